//! What shows clauses over any variables of a circuit to be inductive, for refuters to take over.

ghost use Rattle.std.specs.Prelude.{◌≡◌, ◌≢◌, ◌<◌, ◌≤◌, ◌+◌, ◌*◌, ◌^◌, ◌++◌, pos, All, flat_map, length, map, IfOk, OnOk};
ghost use Rattle.lrat.specs.Limits.{IsFormula};
ghost use Rattle.cnf.specs.Clauses.{bad_clauses, gate_clauses, gates_at, literal, time_clauses};
ghost use Rattle.cnf.specs.Formulas.{IsInRange, formula_of};
ghost use Rattle.cnf.specs.Unrolled.{times_from, unroll_clauses};

use crate::push::{push, push_constraints, push_lists, push_literals, push_resets};
use crate::time_frame::TimeFrame;
use crate::unrolling::push_joins;
use base::{Lists, Refused};
use graph::{Lit, Model};
use lrat::{ClauseRow, GateLiterals};
use std::alloc::Global;

/// Adds the clauses of the circuit's gates at a time to a row. The gates are those of `gates_of`, which stay
/// where they are.
fn add_gates<'a>(
    clauses: &mut ClauseRow<'a>,
    circuit: &Model,
    gates: &'a [GateLiterals],
    time: TimeFrame,
) -> Result<(), Refused>
    requires gates { gates.now ≡ gates_at circuit.now }
    requires max_var { time.max_var ≡ circuit.now.max_var }
    requires fits { time.offset + time.max_var + 1 < 2 ^ 31 }
    ensures { OnOk result (clauses.new ≡ clauses.old ++ flat_map (gate_clauses circuit.now.max_var time.offset) circuit.now.gates) }
{
    circuit.well_formed();
    clauses.add_gates(gates, time.offset)?;
    Ok(())
}

/// Adds truth, gates and constraints of one time to a row. The gates are those of `gates_of`, which stay
/// where they are.
pub(crate) fn add_time<'a>(
    alloc: Global,
    clauses: &mut ClauseRow<'a>,
    circuit: &Model,
    gates: &'a [GateLiterals],
    time: TimeFrame,
) -> Result<(), Refused>
    requires gates { gates.now ≡ gates_at circuit.now }
    requires max_var { time.max_var ≡ circuit.now.max_var }
    requires fits { time.offset + time.max_var + 1 < 2 ^ 31 }
    ensures { OnOk result (clauses.new ≡ clauses.old ++ time_clauses circuit.now time.offset) }
{
    circuit.well_formed();
    push(alloc, clauses, &[time.truth()])?;
    add_gates(clauses, circuit, gates, time)?;
    push_constraints(alloc, clauses, time, circuit.constraints())?;
    Ok(())
}

/// Resets, frame and constraints of a first time. The gates are those of `gates_of`. It costs the
/// latches and the constraints.
pub fn begin_row<'a>(
    alloc: Global,
    circuit: &Model,
    gates: &'a [GateLiterals],
) -> Result<ClauseRow<'a>, Refused>
    requires gates { gates.now ≡ gates_at circuit.now }
    ensures clauses { IfOk result (λ r. r ≡ unroll_clauses circuit.now 0) }
    ensures is_formula { IfOk result (λ r. IsFormula (record { vars = circuit.now.max_var + 1; clauses = r })) }
{
    circuit.well_formed();
    let time = TimeFrame::first(circuit);
    let mut clauses = ClauseRow::new(alloc);
    push_resets(alloc, &mut clauses, time, circuit.latches())?;
    add_time(alloc, &mut clauses, circuit, gates, time)?;
    Ok(clauses)
}

/// Frame and constraints of two times, the step between them, and clauses at the first. The gates are
/// those of `gates_of`. It costs the latches, the constraints and the clauses.
pub fn pair_row<'a>(
    alloc: Global,
    circuit: &Model,
    gates: &'a [GateLiterals],
    invariant: &Lists<Lit>,
) -> Result<ClauseRow<'a>, Refused>
    requires gates { gates.now ≡ gates_at circuit.now }
    requires over { All (All (IsInRange circuit.now.max_var)) invariant.now }
    requires few { length invariant.now ≤ 4194303 }
    ensures clauses { IfOk result (λ r. r ≡ times_from circuit.now 1 0 ++ map (map (literal circuit.now.max_var 0)) invariant.now) }
    ensures is_formula { IfOk result (λ r. IsFormula (record { vars = 2 * (circuit.now.max_var + 1); clauses = r })) }
{
    circuit.well_formed();
    let time = TimeFrame::first(circuit);
    let mut clauses = ClauseRow::new(alloc);
    add_time(alloc, &mut clauses, circuit, gates, time)?;
    push_joins(alloc, &mut clauses, time, circuit.latches())?;
    add_time(alloc, &mut clauses, circuit, gates, time.next())?;
    push_lists(alloc, &mut clauses, time, invariant)?;
    Ok(clauses)
}

/// Frame and constraints of one time, the clauses, and the literal as a unit. The gates are those of
/// `gates_of`. It costs the constraints and the clauses.
pub fn bad_row<'a>(
    alloc: Global,
    circuit: &Model,
    gates: &'a [GateLiterals],
    invariant: &Lists<Lit>,
    bad: Lit,
) -> Result<ClauseRow<'a>, Refused>
    requires gates { gates.now ≡ gates_at circuit.now }
    requires over { All (All (IsInRange circuit.now.max_var)) invariant.now }
    requires few { length invariant.now ≤ 4194303 }
    requires bad { IsInRange circuit.now.max_var bad }
    ensures clauses { IfOk result (λ r. r ≡ bad_clauses circuit.now invariant.now bad) }
    ensures is_formula { IfOk result (λ r. IsFormula (formula_of circuit.now r)) }
{
    circuit.well_formed();
    let time = TimeFrame::first(circuit);
    let mut clauses = ClauseRow::new(alloc);
    add_time(alloc, &mut clauses, circuit, gates, time)?;
    push_lists(alloc, &mut clauses, time, invariant)?;
    push(alloc, &mut clauses, &[time.literal(bad)])?;
    Ok(clauses)
}

/// Puts the literals of a clause at this time into a list, which is emptied first and keeps its
/// memory.
pub fn clause_into(literals: &mut Vec<i32>, time: TimeFrame, clause: &[Lit]) -> Result<(), Refused>
    requires fits { time.offset + time.max_var + 1 < 2 ^ 31 }
    requires in_range { All (IsInRange time.max_var) clause.now }
    ensures literals { OnOk result (literals.new.items ≡ map (literal time.max_var time.offset) clause.now) }
    ensures not_zero { OnOk result (All (λ l. l ≢ pos 0) literals.new.items) }
{
    literals.clear();
    push_literals(literals, time, clause)?;
    Ok(())
}
