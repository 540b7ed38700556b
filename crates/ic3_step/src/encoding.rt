//! A solver that has the circuit at one time, and guarded clauses.

ghost use Rattle.std.specs.Prelude.{◌≡◌, ◌+◌, ◌<◌, ◌≤◌, ◌^◌, ◌++◌, ◌∷◌, [], Some, length, All, IfOk, OnOk, OnErr};
ghost use Rattle.ic3_step.specs.Contents.{IsLoaded, guard_literal as guard_literal_of, guarded_clause, state_literal as state_literal_of};

use crate::cone::{Cone, add_constraints, grow};
use base::{Refused, push};
use engine::EngineError;
use graph::Model;
use solver::Sat;
use states::StateLit;
use std::alloc::Global;

/// The literal of a guard.
pub(crate) fn guard_literal(circuit: &Model, guard: u32) -> i32
    requires { circuit.now.max_var + 2 + guard < 2 ^ 31 }
    ensures { result ≡ guard_literal_of circuit.now guard }
{
    (circuit.max_var() + 2 + guard) as i32
}

/// The literal that is true where the latch has the value.
fn state_literal(circuit: &Model, lit: StateLit) -> i32
    requires { lit.latch < length circuit.now.latches }
    ensures { result ≡ state_literal_of circuit.now lit }
{
    circuit.well_formed();
    let latch = circuit.latches()[lit.latch as usize];
    let time = cnf::TimeFrame::first(circuit);
    if lit.value {
        time.literal(latch.lit)
    } else {
        time.denial(latch.lit)
    }
}

/// The clause, or not its guard.
fn guarded(
    alloc: Global,
    circuit: &Model,
    guard: u32,
    clause: &[StateLit],
) -> Result<Vec<i32>, Refused>
    requires guard { circuit.now.max_var + 2 + guard < 2 ^ 31 }
    requires latches { All (λ a. a.latch < length circuit.now.latches) clause.now }
    ensures { IfOk result (λ v. v.items ≡ guarded_clause circuit.now (record { guard = guard; clause = clause.now })) }
{
    let mut literals = Vec::new(alloc);
    push(&mut literals, -guard_literal(circuit, guard))?;
    for lit in clause {
        push(&mut literals, state_literal(circuit, *lit))?;
    }
    Ok(literals)
}

/// Begins anew with the cone of the circuit's constraints. A circuit has at most 4,194,303 variables, so the
/// guards have theirs.
pub(crate) fn load<S: Sat>(
    solver: &mut S,
    alloc: Global,
    circuit: &Model,
    guards: u32,
) -> Result<Cone, EngineError>
    requires { guards ≤ 2143289343 }
    ensures { IfOk result (λ c. IsLoaded circuit.now guards [] (record { vars = S.vars solver.new; clauses = S.clauses solver.new; cone = Some c })) }
{
    circuit.well_formed();
    let variables = circuit.max_var() + 1;
    let mut cone = Cone::new(alloc, circuit)?;
    solver.reset(alloc, variables + guards)?;
    add_constraints(solver, alloc, circuit)?;
    grow(solver, alloc, circuit, &mut cone, circuit.constraints())?;
    Ok(cone)
}

/// Adds a clause under a guard.
pub(crate) fn add<S: Sat>(
    solver: &mut S,
    alloc: Global,
    circuit: &Model,
    guard: u32,
    clause: &[StateLit],
) -> Result<(), EngineError>
    requires guard { circuit.now.max_var + 2 + guard ≤ S.vars solver.old }
    requires latches { All (λ a. a.latch < length circuit.now.latches) clause.now }
    ensures vars { S.vars solver.new ≡ S.vars solver.old }
    ensures added { OnOk result (S.clauses solver.new ≡ S.clauses solver.old ++ guarded_clause circuit.now (record { guard = guard; clause = clause.now }) ∷ []) }
    ensures err { OnErr result (S.clauses solver.new ≡ S.clauses solver.old) }
{
    circuit.well_formed();
    solver.vars();
    let literals = guarded(alloc, circuit, guard, clause)?;
    solver.add(alloc, literals.as_slice())?;
    Ok(())
}
