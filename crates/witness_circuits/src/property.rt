//! The gates that say whether all clauses are true.

ghost use Rattle.std.specs.Prelude.{◌≡◌, ◌+◌, ◌^◌, ◌<◌, ◌≤◌, ◌++◌, length, map, All, IfOk, OnOk};
ghost use Rattle.live_safe.specs.Shadow.{negation as negation_of};
ghost use Rattle.witness_circuits.specs.Witnesses.{clause_gates, gate_count, property_gates, property_literal};

use base::{Lists, Refused, push};
use graph::{Gate, Lit};
use live_safe::{joins, negation, positive, push_chain};
use std::alloc::Global;

/// The literals' negations.
fn negations(alloc: Global, clause: &[Lit]) -> Result<Vec<Lit>, Refused>
    requires small { All (λ a. a.0 + 1 < 2 ^ 32) clause.now }
    ensures { IfOk result (λ v. v.items ≡ map negation_of clause.now) }
{
    let mut lits = Vec::new(alloc);
    for lit in clause {
        push(&mut lits, negation(*lit))?;
    }
    Ok(lits)
}

/// Adds the gates of a clause, from the variable on: the last one says that the literal and the clause are true.
fn push_clause(
    alloc: Global,
    gates: &mut Vec<Gate>,
    clause: &[Lit],
    so_far: Lit,
    variable: u32,
) -> Result<(), Refused>
    requires small { All (λ a. a.0 + 1 < 2 ^ 32) clause.now }
    requires fits { variable + length clause.now + 1 ≤ 4194304 }
    ensures { OnOk result (gates.new.items ≡ gates.old.items ++ clause_gates clause.now so_far variable) }
{
    let denials = negations(alloc, clause)?;
    let denied = push_chain(gates, &denials, Lit(1), variable)?;
    let behind = variable + clause.len() as u32;
    push(gates, joins(behind, so_far, negation(denied)))?;
    Ok(())
}

/// Adds the gates of all clauses, from the variable on, and gives the literal that says that the first one and all
/// clauses are true.
#[tactic(auto, using(crate::proofs::Rows::count_more))]
pub fn push_property(
    alloc: Global,
    gates: &mut Vec<Gate>,
    invariant: &Lists<Lit>,
    first: Lit,
    variable: u32,
) -> Result<Lit, Refused>
    requires small { All (All (λ a. a.0 + 1 < 2 ^ 32)) invariant.now }
    requires fits { variable + gate_count invariant.now ≤ 4194304 }
    ensures gates { OnOk result (gates.new.items ≡ gates.old.items ++ property_gates invariant.now first variable) }
    ensures literal { IfOk result (λ a. a ≡ property_literal invariant.now first variable) }
{
    let mut so_far = first;
    let mut next = variable;
    for k in 0..invariant.len() {
        let clause = invariant.list(k);
        push_clause(alloc, gates, clause, so_far, next)?;
        let behind = next + clause.len() as u32;
        so_far = positive(behind);
        next = behind + 1;
    }
    Ok(so_far)
}
