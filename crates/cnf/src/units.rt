//! The units that make a case of what the cases share.

ghost use Rattle.std.specs.Prelude.{◌≡◌, ◌+◌, All, Contains, IfOk, OnOk};
ghost use Rattle.graph.specs.WellFormed.{used};
ghost use Rattle.lrat.specs.Literals.{IsLiteral};
ghost use Rattle.cnf.specs.Clauses.{init_units as init_units_of, step_units as step_units_of, literal};
ghost use Rattle.cnf.specs.Formulas.{IsOverLatches};
ghost use Rattle.cnf.specs.Tables.{IsTableOf};

use crate::next_table::NextTable;
use crate::push::push_denials;
use crate::time_frame::TimeFrame;
use base::{Refused, push};
use graph::{Lit, Model};
use std::alloc::Global;

/// Puts the units of the initial case of a clause into a list, which is emptied first and keeps its
/// memory: each of the clause's literals is denied.
pub fn init_units_into(units: &mut Vec<i32>, circuit: &Model, clause: &[Lit]) -> Result<(), Refused>
    requires { IsOverLatches circuit.now clause.now }
    ensures units { OnOk result (units.new.items ≡ init_units_of circuit.now clause.now) }
    ensures in_range { OnOk result (All (IsLiteral (circuit.now.max_var + 1)) units.new.items) }
{
    circuit.well_formed();
    units.clear();
    push_denials(units, TimeFrame::first(circuit), clause)?;
    Ok(())
}

/// As `init_units_into`, in a list of its own.
pub fn init_units(alloc: Global, circuit: &Model, clause: &[Lit]) -> Result<Vec<i32>, Refused>
    requires { IsOverLatches circuit.now clause.now }
    ensures units { IfOk result (λ v. v.items ≡ init_units_of circuit.now clause.now) }
    ensures in_range { IfOk result (λ v. All (IsLiteral (circuit.now.max_var + 1)) v.items) }
{
    let mut units = Vec::new(alloc);
    init_units_into(&mut units, circuit, clause)?;
    Ok(units)
}

/// Puts the units of the step case of a clause into a list, which is emptied first and keeps its
/// memory: each of the clause's literals is denied, with its latch replaced by that latch's next
/// literal.
pub fn step_units_into(
    units: &mut Vec<i32>,
    circuit: &Model,
    table: &NextTable,
    clause: &[Lit],
) -> Result<(), Refused>
    requires over { IsOverLatches circuit.now clause.now }
    requires table { IsTableOf circuit.now.latches table.now }
    ensures units { OnOk result (units.new.items ≡ step_units_of circuit.now clause.now) }
    ensures in_range { OnOk result (All (IsLiteral (circuit.now.max_var + 1)) units.new.items) }
{
    circuit.well_formed();
    let time = TimeFrame::first(circuit);
    units.clear();
    for lit in clause {
        push(units, time.denial(table.next_of(*lit)))?;
    }
    Ok(())
}

/// As `step_units_into`, in a list of its own.
pub fn step_units(
    alloc: Global,
    circuit: &Model,
    table: &NextTable,
    clause: &[Lit],
) -> Result<Vec<i32>, Refused>
    requires over { IsOverLatches circuit.now clause.now }
    requires table { IsTableOf circuit.now.latches table.now }
    ensures units { IfOk result (λ v. v.items ≡ step_units_of circuit.now clause.now) }
    ensures in_range { IfOk result (λ v. All (IsLiteral (circuit.now.max_var + 1)) v.items) }
{
    let mut units = Vec::new(alloc);
    step_units_into(&mut units, circuit, table, clause)?;
    Ok(units)
}

/// The unit of the bad case of one of the circuit's literals.
pub fn bad_unit(circuit: &Model, bad: Lit) -> i32
    requires { Contains (used circuit.now) bad }
    ensures unit { result ≡ literal circuit.now.max_var 0 bad }
    ensures in_range { IsLiteral (circuit.now.max_var + 1) result }
{
    circuit.well_formed();
    TimeFrame::first(circuit).literal(bad)
}
