//! The three proofs of clauses.

ghost use Rattle.std.specs.Prelude.{◌≤◌, All, IfErr, length};
ghost use Rattle.base.specs.Budget.{Spends};
ghost use Rattle.cnf.specs.Formulas.{IsInRange};
ghost use Rattle.extension.specs.Inductive.{IsOverAll};
ghost use Rattle.inductive_proofs.specs.ProveErrors.{IsProveError};

use crate::cone::Cone;
use crate::counterexample::{Case, Counterexample};
use crate::effort::Effort;
use crate::formulas::{bad_formula, begin_formula, pair_formula};
use crate::prove_error::ProveError;
use crate::ranges::{are_over, is_over};
use crate::shortening::shortened;
use crate::showing::{Kind, Timed, show};
use crate::subject::Subject;
use crate::translating::translated;
use base::{Budget, Lists, Refused};
use cdcl::{Refuted, refute};
use cnf::TimeFrame;
use graph::{Lit, Model};
use lrat::Proof;
use lrat_trim::{Derived, Numbering};
use std::alloc::Global;

/// The proofs of clauses.
#[derive(Drop)]
pub struct Proofs {
    /// that they hold at a first time
    pub first: Derived,
    /// that they hold at a time behind one at which they hold
    pub step: Derived,
    /// that they exclude the literal
    pub last: Proof,
}

/// Shows that the clauses hold at a first time.
fn prove_first(
    alloc: Global,
    circuit: &Model,
    invariant: &Lists<Lit>,
    budget: &mut Budget,
) -> Result<Derived, ProveError>
    requires over { All (IsOverAll circuit.now) invariant.now }
    ensures spends { Spends budget.old budget.new }
    ensures halted { IfErr result (λ h. (a : Lit) → IsProveError circuit.now invariant.now a budget.new h) }
{
    circuit.well_formed();
    let formula = begin_formula(alloc, circuit)?;
    let timed = Timed {
        circuit,
        kind: Kind::First,
        time: TimeFrame::first(circuit),
        clauses: invariant,
    };
    show(alloc, &formula, timed, budget)
}

/// Shows that the clauses hold at a time behind one at which they hold.
fn prove_step(
    alloc: Global,
    circuit: &Model,
    invariant: &Lists<Lit>,
    budget: &mut Budget,
) -> Result<Derived, ProveError>
    requires over { All (IsOverAll circuit.now) invariant.now }
    requires few { length invariant.now ≤ 4194303 }
    ensures spends { Spends budget.old budget.new }
    ensures halted { IfErr result (λ h. (a : Lit) → IsProveError circuit.now invariant.now a budget.new h) }
{
    circuit.well_formed();
    let formula = pair_formula(alloc, circuit, invariant)?;
    let timed = Timed {
        circuit,
        kind: Kind::Step,
        time: TimeFrame::after(circuit, 1),
        clauses: invariant,
    };
    show(alloc, &formula, timed, budget)
}

/// Shows that the clauses exclude the literal.
fn prove_last(
    alloc: Global,
    circuit: &Model,
    invariant: &Lists<Lit>,
    bad: Lit,
    budget: &mut Budget,
) -> Result<Proof, ProveError>
    requires over { All (IsOverAll circuit.now) invariant.now }
    requires few { length invariant.now ≤ 4194303 }
    requires bad { IsInRange circuit.now.max_var bad }
    ensures spends { Spends budget.old budget.new }
    ensures halted { IfErr result (IsProveError circuit.now invariant.now bad budget.new) }
{
    let formula = bad_formula(alloc, circuit, invariant, bad)?;
    match refute(alloc, &formula, budget)? {
        Refuted::Proof(proof) => {
            let numbering = Numbering::new(alloc, formula.clauses.len(), proof.lines())?;
            Ok(numbering.renumbered(alloc, proof.lines())?)
        }
        Refuted::Model(values) => Err(ProveError::NotInvariant(Counterexample {
            case: Case::Last,
            values,
        })),
        Refuted::Spent => Err(ProveError::Spent),
    }
}

/// The proofs of the clauses over the circuit, one after the other. One solver is held at a time.
fn prove_whole(
    alloc: Global,
    subject: &Subject,
    invariant: &Lists<Lit>,
    budget: &mut Budget,
) -> Result<Proofs, ProveError>
    requires over { All (IsOverAll subject.now.circuit) invariant.now }
    requires few { length invariant.now ≤ 4194303 }
    requires bad { IsInRange subject.now.circuit.max_var subject.now.bad }
    ensures spends { Spends budget.old budget.new }
    ensures halted { IfErr result (IsProveError subject.now.circuit invariant.now subject.now.bad budget.new) }
{
    let first = prove_first(alloc, &subject.circuit, invariant, budget)?;
    let step = prove_step(alloc, &subject.circuit, invariant, budget)?;
    let last = prove_last(alloc, &subject.circuit, invariant, subject.bad, budget)?;
    Ok(Proofs { first, step, last })
}

/// The proofs of a part's clauses, where all are shown over the part.
fn prove_part(
    alloc: Global,
    part: &Subject,
    invariant: &Lists<Lit>,
    budget: &mut Budget,
) -> Result<Option<Proofs>, Refused>
    ensures spends { Spends budget.old budget.new }
{
    if !are_over(&part.circuit, invariant) || !is_over(&part.circuit, &[part.bad]) {
        return Ok(None);
    }
    match prove_whole(alloc, part, invariant, budget) {
        Ok(proofs) => Ok(Some(proofs)),
        Err(ProveError::OutOfMemory(refused)) => Err(refused),
        Err(_) => Ok(None),
    }
}

/// The proofs of the clauses by those over the part of the circuit that they are about, where that is small and all are
/// shown over it.
fn prove_near(
    alloc: Global,
    subject: &Subject,
    invariant: &Lists<Lit>,
    budget: &mut Budget,
) -> Result<Option<Proofs>, Refused>
    ensures spends { Spends budget.old budget.new }
{
    let Some(cone) = Cone::of(alloc, subject, invariant)? else {
        return Ok(None);
    };
    match prove_part(alloc, &cone.subject, &cone.invariant, budget)? {
        Some(proofs) => Ok(Some(translated(alloc, &subject.circuit, &cone, &proofs)?)),
        None => Ok(None),
    }
}

/// The proofs of the clauses over the circuit. One solver is held at a time. The part that the clauses are about is
/// asked first, where it is small; where not all is shown over that, the circuit. A thorough effort shortens what was
/// made, while the budget lasts. The proofs are judged by `checker3` before they are an answer.
pub fn prove(
    alloc: Global,
    subject: &Subject,
    invariant: &Lists<Lit>,
    effort: Effort,
    budget: &mut Budget,
) -> Result<Proofs, ProveError>
    requires over { All (IsOverAll subject.now.circuit) invariant.now }
    requires few { length invariant.now ≤ 4194303 }
    requires bad { IsInRange subject.now.circuit.max_var subject.now.bad }
    ensures spends { Spends budget.old budget.new }
    ensures halted { IfErr result (IsProveError subject.now.circuit invariant.now subject.now.bad budget.new) }
{
    let proofs = match prove_near(alloc, subject, invariant, budget)? {
        Some(proofs) => proofs,
        None => prove_whole(alloc, subject, invariant, budget)?,
    };
    match effort {
        Effort::Quick => Ok(proofs),
        Effort::Thorough => Ok(shortened(alloc, subject, invariant, proofs, budget)?),
    }
}
