//! Marks that lead on from literals: to all that they are made of, or to what gives them their values.

ghost use Rattle.std.specs.Prelude.{◌≡◌, ◌+◌, ◌<◌, ◌≤◌, List, Bool, [], ◌∷◌, length, map, slice_index, All, OnOk, IfOk};
ghost use Rattle.graph.specs.Circuits.{variable};
ghost use Rattle.cones.specs.Marks.{IsMarked, IsCone};
ghost use Rattle.cones.specs.Reach.{IsGateTable, IsSettled, IsClosed, Serves, Grows, IsDomain, IsInside, IsFrom, IsExtended};
ghost use Rattle.cones.specs.declared.reach.Reach.TheVariants.{Justification};

use crate::table::GateTable;
use base::{Refused, push};
use graph::{Gate, Lit, Model, literal_value};
use std::alloc::Global;

/// What a marked gate wants marked.
#[derive(Clone, Copy)]
pub enum Reach {
    /// Both right sides.
    Cone,
    /// What gives the gate its value: both right sides where it is true, and else one that is
    /// false.
    Justification,
}

/// Marks the variable, and adds it to the list where it was not marked.
fn mark(marks: &mut [bool], list: &mut Vec<u32>, variable: u32) -> Result<(), Refused>
    requires { variable < length marks.old }
    ensures grows { OnOk result (Grows (variable ∷ []) marks.old list.old.items marks.new list.new.items) }
    ensures from { OnOk result (IsFrom (variable ∷ []) marks.old marks.new) }
{
    if !marks[variable as usize] {
        marks[variable as usize] = true;
        push(list, variable)?;
    }
    Ok(())
}

/// Marks both right sides of the gate.
fn mark_both(marks: &mut [bool], list: &mut Vec<u32>, gate: Gate) -> Result<(), Refused>
    requires { (variable gate.rhs0 < length marks.old) × (variable gate.rhs1 < length marks.old) }
    ensures grows { OnOk result (Grows (variable gate.rhs0 ∷ variable gate.rhs1 ∷ []) marks.old list.old.items marks.new list.new.items) }
    ensures from { OnOk result (IsFrom (variable gate.rhs0 ∷ variable gate.rhs1 ∷ []) marks.old marks.new) }
{
    mark(marks, list, gate.rhs0.variable())?;
    mark(marks, list, gate.rhs1.variable())?;
    Ok(())
}

/// Of two false right sides, whether the gate's value is to rest on the second: on one that is marked
/// anyway, else on that of the lesser variable, since inputs are numbered before latches, and these
/// before gates.
fn prefers_second(marks: &[bool], gate: Gate) -> bool
    requires { (variable gate.rhs0 < length marks.now) × (variable gate.rhs1 < length marks.now) }
{
    let is_lesser = gate.rhs1.0 < gate.rhs0.0;
    let is_marked = marks[gate.rhs1.variable() as usize];
    !marks[gate.rhs0.variable() as usize] && (is_marked || is_lesser)
}

/// Marks what gives the gate its value.
fn mark_justification(
    values: &[bool],
    marks: &mut [bool],
    list: &mut Vec<u32>,
    gate: Gate,
) -> Result<(), Refused>
    requires range { (variable gate.rhs0 < length marks.old) × (variable gate.rhs1 < length marks.old) }
    requires serves { Serves Justification values.now gate }
    ensures grows { OnOk result (Grows [] marks.old list.old.items marks.new list.new.items) }
    ensures settled { OnOk result (IsSettled Justification values.now marks.new gate) }
    ensures from { OnOk result (IsFrom (variable gate.rhs0 ∷ variable gate.rhs1 ∷ []) marks.old marks.new) }
{
    let first = literal_value(gate.rhs0, values);
    let second = literal_value(gate.rhs1, values);
    if first && second {
        mark_both(marks, list, gate)?;
        return Ok(());
    }
    let is_preferred = prefers_second(marks, gate);
    let is_second = first || (!second && is_preferred);
    if is_second {
        mark(marks, list, gate.rhs1.variable())?;
        return Ok(());
    }
    mark(marks, list, gate.rhs0.variable())?;
    Ok(())
}

/// Marks what the gate wants marked.
fn settle(
    reach: Reach,
    values: &[bool],
    marks: &mut [bool],
    list: &mut Vec<u32>,
    gate: Gate,
) -> Result<(), Refused>
    requires range { (variable gate.rhs0 < length marks.old) × (variable gate.rhs1 < length marks.old) }
    requires serves { Serves reach values.now gate }
    ensures grows { OnOk result (Grows [] marks.old list.old.items marks.new list.new.items) }
    ensures settled { OnOk result (IsSettled reach values.now marks.new gate) }
    ensures from { OnOk result (IsFrom (variable gate.rhs0 ∷ variable gate.rhs1 ∷ []) marks.old marks.new) }
{
    match reach {
        Reach::Cone => {
            mark_both(marks, list, gate)?;
            Ok(())
        }
        Reach::Justification => {
            mark_justification(values, marks, list, gate)?;
            Ok(())
        }
    }
}

/// Marks the literals' variables.
fn mark_all(marks: &mut [bool], list: &mut Vec<u32>, lits: &[Lit]) -> Result<(), Refused>
    requires { All (λ a. variable a < length marks.old) lits.now }
    ensures grows { OnOk result (Grows (map variable lits.now) marks.old list.old.items marks.new list.new.items) }
    ensures from { OnOk result (IsFrom (map variable lits.now) marks.old marks.new) }
{
    for lit in lits {
        mark(marks, list, lit.variable())?;
    }
    Ok(())
}

/// Marks what the gate of the listed variable wants marked, if the variable is a gate's.
fn visit(
    circuit: &Model,
    table: &GateTable,
    reach: Reach,
    values: &[bool],
    marks: &mut [bool],
    list: &mut Vec<u32>,
    next: usize,
) -> Result<(), Refused>
    requires table { IsGateTable circuit.now table.now }
    requires places { length marks.old ≡ circuit.now.max_var + 1 }
    requires domain { (d : List Bool) × IsDomain circuit.now reach values.now d × IsInside marks.old d }
    requires inside { next < length list.old.items }
    requires listed { IsMarked marks.old (slice_index list.old.items next) }
    ensures grows { OnOk result (Grows [] marks.old list.old.items marks.new list.new.items) }
    ensures settled { OnOk result (All (λ g. variable g.lhs ≡ slice_index list.old.items next → IsSettled reach values.now marks.new g) circuit.now.gates) }
    ensures inside { (d : List Bool) → IsCone circuit.now (IsMarked d) → IsInside marks.old d → OnOk result (IsInside marks.new d) }
{
    circuit.well_formed();
    let Some(gate) = table.gate_of(list[next]) else {
        return Ok(());
    };
    settle(reach, values, marks, list, gate)?;
    Ok(())
}

/// Marks the literals' variables and what they lead to, and lists what was not marked before. It
/// costs what it lists.
pub fn extend(
    alloc: Global,
    circuit: &Model,
    table: &GateTable,
    reach: Reach,
    values: &[bool],
    wanted: &[Lit],
    marks: &mut [bool],
) -> Result<Vec<u32>, Refused>
    requires table { IsGateTable circuit.now table.now }
    requires places { length marks.old ≡ circuit.now.max_var + 1 }
    requires wanted { All (λ a. variable a ≤ circuit.now.max_var) wanted.now }
    requires domain { (d : List Bool) × IsDomain circuit.now reach values.now d × IsInside marks.old d × All (λ a. IsMarked d (variable a)) wanted.now }
    requires closed { IsClosed circuit.now reach values.now marks.old }
    ensures { IfOk result (λ list. IsExtended circuit.now reach values.now wanted.now marks.old marks.new list.items) }
{
    let mut list = Vec::new(alloc);
    mark_all(marks, &mut list, wanted)?;
    let mut next: usize = 0;
    'closing: while next < list.len() {
        visit(circuit, table, reach, values, marks, &mut list, next)?;
        next += 1;
    }
    Ok(list)
}
