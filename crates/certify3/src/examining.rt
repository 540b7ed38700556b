//! Whether there is anything wrong with the clauses.

ghost use Rattle.std.specs.Prelude.{◌≡◌, ◌+◌, ◌≤◌, ℕ, false, All, IfErr, IfNone, IfOk, IfSome, OnOk, length, map};
ghost use Rattle.lrat.specs.Literals.{IsProper};
ghost use Rattle.cnf.specs.Clauses.{literal};
ghost use Rattle.cnf.specs.Formulas.{IsInRange};
ghost use Rattle.extension.specs.Inductive.{IsOverAll};
ghost use Rattle.checker3.specs.Judged.{IsOutside};
ghost use Rattle.certify3.specs.Causes.{IsFault, IsRepeated};

use crate::certify_error::CertifyError;
use base::{Lists, Refused};
use checker3::CheckError;
use cnf::TimeFrame;
use graph::{Lit, MOST_VARIABLES, Model};
use inductive_proofs::is_over;
use lrat::Trail;
use std::alloc::Global;

/// The most clauses that a certificate may have.
const MOST_CLAUSES: usize = MOST_VARIABLES as usize;

/// The first clause with a literal outside of the circuit.
fn first_outside(circuit: &Model, invariant: &Lists<Lit>) -> Option<u64>
    ensures none { IfNone result (All (IsOverAll circuit.now) invariant.now) }
    ensures some { IfSome result (λ k. IsOutside circuit.now invariant.now k) }
{
    for k in 0..invariant.len() {
        if !is_over(circuit, invariant.list(k)) {
            return Some(k as u64);
        }
    }
    None
}

/// Whether no literal of the clause is repeated or opposed. The trail is emptied first.
fn is_proper(trail: &mut Trail, time: TimeFrame, clause: &[Lit]) -> Result<bool, Refused>
    requires fits { time.offset + time.max_var + 1 ≤ trail.old.vars }
    requires over { All (IsInRange time.max_var) clause.now }
    ensures vars { trail.new.vars ≡ trail.old.vars }
    ensures repeated { IfOk result (λ yes. yes ≡ false → (n : ℕ) → IsProper n (map (literal time.max_var time.offset) clause.now) → ⊥) }
{
    let _vars = trail.vars();
    trail.clear();
    for lit in clause {
        let literal = time.literal(*lit);
        if trail.has_value(literal) {
            return Ok(false);
        }
        trail.set(literal)?;
    }
    Ok(true)
}

/// The first clause with a literal that is repeated or opposed.
fn first_repeated(
    alloc: Global,
    circuit: &Model,
    invariant: &Lists<Lit>,
) -> Result<Option<u64>, Refused>
    requires over { All (IsOverAll circuit.now) invariant.now }
    ensures some { IfOk result (λ found. IfSome found (IsRepeated circuit.now invariant.now)) }
{
    circuit.well_formed();
    let time = TimeFrame::first(circuit);
    let mut trail = Trail::new(alloc, circuit.max_var() + 1)?;
    for k in 0..invariant.len() {
        if !is_proper(&mut trail, time, invariant.list(k))? {
            return Ok(Some(k as u64));
        }
    }
    Ok(None)
}

/// Looks whether the clauses are no more than a certificate may have, each over the circuit and without
/// a literal that is repeated or opposed. It costs the literals and the variables.
pub fn examine(alloc: Global, circuit: &Model, invariant: &Lists<Lit>) -> Result<(), CertifyError>
    ensures few { OnOk result (length invariant.now ≤ 4194303) }
    ensures over { OnOk result (All (IsOverAll circuit.now) invariant.now) }
    ensures refused { IfErr result (IsFault circuit.now invariant.now) }
{
    if invariant.len() > MOST_CLAUSES {
        return Err(CertifyError::TooMany);
    }
    if let Some(clause) = first_outside(circuit, invariant) {
        return Err(CertifyError::Refused(CheckError::Outside(clause)));
    }
    match first_repeated(alloc, circuit, invariant)? {
        Some(clause) => Err(CertifyError::Repeated { clause }),
        None => Ok(()),
    }
}
