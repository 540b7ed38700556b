//! The clauses of an invariant.

ghost use Rattle.std.specs.Prelude.{◌≡◌, ◌+◌, ◌<◌, ◌≤◌, List, [], All, IfErr, MatchOption, OnOk, get_or, length, take};
ghost use Rattle.graph.specs.declared.circuit.Lit.{Lit as ALit};
ghost use Rattle.cnf.specs.Tables.{IsTableOf};
ghost use Rattle.checker2.specs.Accepted.{IsGood};
ghost use Rattle.checker2.specs.Causes.{IsClauseFault, IsClausesFault};

use crate::clause_error::ClauseError;
use base::{Lists, Seq, filled};
use cnf::NextTable;
use graph::{Lit, Model};
use std::alloc::Global;

/// What is wrong with a clause.
#[derive(Clone, Copy)]
pub enum ClauseFault {
    /// A literal is not a latch's.
    NotLatch,
    /// A literal is repeated or opposed.
    Repeated,
}

/// The first fault of a clause. `seen` has for each variable a number that is `stamp` once the
/// variable was seen in this clause.
fn clause_fault(
    circuit: &Model,
    table: &NextTable,
    seen: &mut [u32],
    stamp: u32,
    clause: &[Lit],
) -> Option<ClauseFault>
    requires table { IsTableOf circuit.now.latches table.now }
    requires whole { length seen.old ≡ circuit.now.max_var + 1 }
    requires below { All (λ s. s < stamp) seen.old }
    ensures fault { MatchOption result (IsGood circuit.now clause.now) (IsClauseFault circuit.now clause.now) }
    ensures most { All (λ s. s ≤ stamp) seen.new }
    ensures same_length { length seen.new ≡ length seen.old }
{
    circuit.well_formed();
    for (i, lit) in clause.iter().enumerate() {
        let variable = lit.variable();
        if !table.is_latch(variable) {
            return Some(ClauseFault::NotLatch);
        }
        if seen[variable as usize] == stamp {
            return Some(ClauseFault::Repeated);
        }
        seen[variable as usize] = stamp;
    }
    None
}

/// Whether the clause at position `k` of an invariant is one over the latches, without a literal
/// that is repeated or opposed. `seen` is as for `clause_fault`, with the stamp `k + 1`.
fn check_clause(
    circuit: &Model,
    table: &NextTable,
    seen: &mut [u32],
    k: usize,
    clause: &[Lit],
) -> Result<(), ClauseError>
    requires table { IsTableOf circuit.now.latches table.now }
    requires few { k < 4194303 }
    requires whole { length seen.old ≡ circuit.now.max_var + 1 }
    requires below { All (λ s. s < k + 1) seen.old }
    ensures good { OnOk result (IsGood circuit.now clause.now) }
    ensures refused { IfErr result (λ e. (invariant : List (List ALit)) → k < length invariant → clause.now ≡ get_or invariant k [] → All (IsGood circuit.now) (take k invariant) → IsClausesFault circuit.now invariant e) }
    ensures below { All (λ s. s < k + 1 + 1) seen.new }
    ensures whole { length seen.new ≡ length seen.old }
{
    let stamp = k as u32 + 1;
    match clause_fault(circuit, table, seen, stamp, clause) {
        None => Ok(()),
        Some(ClauseFault::NotLatch) => Err(ClauseError::NotLatch { clause: k as u64 }),
        Some(ClauseFault::Repeated) => Err(ClauseError::Repeated { clause: k as u64 }),
    }
}

/// Whether each clause is one over the latches, without a literal that is repeated or opposed. It
/// costs the literals and the variables.
pub fn check_clauses(
    alloc: Global,
    circuit: &Model,
    table: &NextTable,
    invariant: &[Seq<Lit>],
) -> Result<(), ClauseError>
    requires table { IsTableOf circuit.now.latches table.now }
    requires few { length invariant.now ≤ 4194303 }
    ensures good { OnOk result (All (IsGood circuit.now) invariant.now) }
    ensures refused { IfErr result (IsClausesFault circuit.now invariant.now) }
{
    circuit.well_formed();
    let mut seen = filled(alloc, 0u32, circuit.max_var() as usize + 1)?;
    for (k, clause) in invariant.iter().enumerate() {
        check_clause(circuit, table, seen.as_mut_slice(), k, clause.as_slice())?;
    }
    Ok(())
}

/// As `check_clauses`, where the clauses lie in one list.
pub(crate) fn check_lists(
    alloc: Global,
    circuit: &Model,
    table: &NextTable,
    invariant: &Lists<Lit>,
) -> Result<(), ClauseError>
    requires table { IsTableOf circuit.now.latches table.now }
    requires few { length invariant.now ≤ 4194303 }
    ensures good { OnOk result (All (IsGood circuit.now) invariant.now) }
    ensures refused { IfErr result (IsClausesFault circuit.now invariant.now) }
{
    circuit.well_formed();
    let mut seen = filled(alloc, 0u32, circuit.max_var() as usize + 1)?;
    for k in 0..invariant.len() {
        check_clause(circuit, table, seen.as_mut_slice(), k, invariant.list(k))?;
    }
    Ok(())
}
