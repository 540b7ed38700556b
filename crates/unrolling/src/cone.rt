//! The cone of influence: all that the bad literals and the constraints depend on at any time.

ghost use Rattle.std.specs.Prelude.{◌≡◌, ℕ, false, ◌+◌, ◌<◌, ◌≤◌, ◌∷◌, [], length, map, slice_index, All, IfOk, OnOk};
ghost use Rattle.graph.specs.Circuits.{variable, place};
ghost use Rattle.cnf.specs.Tables.{IsTableOf};
ghost use Rattle.cones.specs.Reach.{Grows};
ghost use Rattle.cuts.specs.Cuts.{AreCuts};
ghost use Rattle.unrolling.specs.Cones.{IsClosed, IsVisited, IsConeOf, ArePositions, AreOrdered, is_marked_input, is_marked_latch};

use base::{Refused, filled, push};
use cnf::NextTable;
use cuts::{Cut, cuts_of};
use graph::{Latch, Lit, Model};
use std::alloc::Global;

/// A variable of a gate, and the cut by which it is encoded.
#[derive(Clone, Copy)]
pub struct Cell {
    pub variable: u32,
    pub cut: Cut,
}

/// What is encoded of each time.
#[derive(Drop)]
pub struct Cone {
    /// the positions of its inputs, in their order
    pub inputs: Vec<u32>,
    /// the positions of its latches, in their order
    pub latches: Vec<u32>,
    /// those of its gates that are encoded, each after the leaves of its cut
    pub cells: Vec<Cell>,
}

/// Marks the variable, and adds it to the list where it was not marked.
fn mark(marks: &mut [bool], list: &mut Vec<u32>, variable: u32) -> Result<(), Refused>
    requires { variable < length marks.old }
    ensures { OnOk result (Grows (variable ∷ []) marks.old list.old.items marks.new list.new.items) }
{
    if !marks[variable as usize] {
        marks[variable as usize] = true;
        push(list, variable)?;
    }
    Ok(())
}

/// Marks the literals' variables.
fn mark_all(marks: &mut [bool], list: &mut Vec<u32>, lits: &[Lit]) -> Result<(), Refused>
    requires { All (λ a. variable a < length marks.old) lits.now }
    ensures { OnOk result (Grows (map variable lits.now) marks.old list.old.items marks.new list.new.items) }
{
    for lit in lits {
        mark(marks, list, lit.variable())?;
    }
    Ok(())
}

/// Marks what the listed variable depends on: the leaves of its cut, and of a latch the next literal.
fn visit(
    circuit: &Model,
    cuts: &[Cut],
    nexts: &NextTable,
    marks: &mut [bool],
    list: &mut Vec<u32>,
    place: usize,
) -> Result<(), Refused>
    requires cuts { AreCuts circuit.now cuts.now }
    requires nexts { IsTableOf circuit.now.latches nexts.now }
    requires places { length marks.old ≡ circuit.now.max_var + 1 }
    requires inside { place < length list.old.items }
    requires in_range { All (λ v. v < length marks.old) list.old.items }
    ensures grows { OnOk result (Grows [] marks.old list.old.items marks.new list.new.items) }
    ensures visited { OnOk result (IsVisited circuit.now cuts.now marks.new (slice_index list.old.items place)) }
{
    circuit.well_formed();
    let variable = list[place];
    mark(marks, list, nexts.next_of(Lit(2 * variable)).variable())?;
    let (first, second, third, fourth) = cuts[variable as usize].leaves;
    mark(marks, list, first)?;
    mark(marks, list, second)?;
    mark(marks, list, third)?;
    mark(marks, list, fourth)?;
    Ok(())
}

/// Marks the cone, where nothing is marked yet.
fn mark_cone(
    alloc: Global,
    circuit: &Model,
    cuts: &[Cut],
    nexts: &NextTable,
    marks: &mut [bool],
) -> Result<(), Refused>
    requires nexts { IsTableOf circuit.now.latches nexts.now }
    requires places { length marks.old ≡ circuit.now.max_var + 1 }
    requires clear { (v : ℕ) → place marks.old v ≡ false }
    requires cuts { AreCuts circuit.now cuts.now }
    ensures { OnOk result (IsClosed circuit.now cuts.now marks.new) }
{
    circuit.well_formed();
    let mut list = Vec::new(alloc);
    mark_all(marks, &mut list, circuit.bad())?;
    mark_all(marks, &mut list, circuit.constraints())?;
    let mut next: usize = 0;
    'closing: while next < list.len() {
        visit(circuit, cuts, nexts, marks, &mut list, next)?;
        next += 1;
    }
    Ok(())
}

/// A mark for each variable of the cone.
fn marks_of(
    alloc: Global,
    circuit: &Model,
    cuts: &[Cut],
    nexts: &NextTable,
) -> Result<Vec<bool>, Refused>
    requires nexts { IsTableOf circuit.now.latches nexts.now }
    requires cuts { AreCuts circuit.now cuts.now }
    ensures { IfOk result (λ marks. IsClosed circuit.now cuts.now marks.items) }
{
    circuit.well_formed();
    let mut marks = filled(alloc, false, circuit.max_var() as usize + 1)?;
    mark_cone(alloc, circuit, cuts, nexts, marks.as_mut_slice())?;
    Ok(marks)
}

/// The positions of the marked inputs.
fn marked_inputs(alloc: Global, marks: &[bool], inputs: &[Lit]) -> Result<Vec<u32>, Refused>
    requires range { All (λ a. variable a < length marks.now) inputs.now }
    requires few { length inputs.now ≤ 4194303 }
    ensures { IfOk result (λ list. ArePositions (is_marked_input marks.now inputs.now) (length inputs.now) list.items) }
{
    let mut positions = Vec::new(alloc);
    for (position, lit) in inputs.iter().enumerate() {
        if marks[lit.variable() as usize] {
            push(&mut positions, position as u32)?;
        }
    }
    Ok(positions)
}

/// The positions of the marked latches.
fn marked_latches(alloc: Global, marks: &[bool], latches: &[Latch]) -> Result<Vec<u32>, Refused>
    requires range { All (λ l. variable l.lit < length marks.now) latches.now }
    requires few { length latches.now ≤ 4194303 }
    ensures { IfOk result (λ list. ArePositions (is_marked_latch marks.now latches.now) (length latches.now) list.items) }
{
    let mut positions = Vec::new(alloc);
    for (position, latch) in latches.iter().enumerate() {
        if marks[latch.lit.variable() as usize] {
            push(&mut positions, position as u32)?;
        }
    }
    Ok(positions)
}

/// The marked gates with their cuts, each after its leaves.
fn marked_cells(
    alloc: Global,
    marks: &[bool],
    circuit: &Model,
    cuts: &[Cut],
) -> Result<Vec<Cell>, Refused>
    requires places { length marks.now ≡ circuit.now.max_var + 1 }
    requires cuts { AreCuts circuit.now cuts.now }
    ensures { IfOk result (λ cells. AreOrdered circuit.now cuts.now marks.now cells.items) }
{
    circuit.well_formed();
    let gates = circuit.gates();
    let mut cells = Vec::new(alloc);
    for position in circuit.order() {
        let variable = gates[*position as usize].lhs.variable();
        if marks[variable as usize] {
            let cut = cuts[variable as usize];
            push(&mut cells, Cell { variable, cut })?;
        }
    }
    Ok(cells)
}

/// The cone of the circuit's bad literals and constraints. It costs the circuit.
pub fn cone_of(alloc: Global, circuit: &Model, nexts: &NextTable) -> Result<Cone, Refused>
    requires nexts { IsTableOf circuit.now.latches nexts.now }
    ensures { IfOk result (IsConeOf circuit.now) }
{
    circuit.well_formed();
    let cuts = cuts_of(alloc, circuit)?;
    let marks = marks_of(alloc, circuit, cuts.as_slice(), nexts)?;
    let inputs = marked_inputs(alloc, marks.as_slice(), circuit.inputs())?;
    let latches = marked_latches(alloc, marks.as_slice(), circuit.latches())?;
    let cells = marked_cells(alloc, marks.as_slice(), circuit, cuts.as_slice())?;
    Ok(Cone {
        inputs,
        latches,
        cells,
    })
}
