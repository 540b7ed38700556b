//! The lists of a reduced circuit.

ghost use Rattle.std.specs.Prelude.{◌≡◌, IfOk, map, filter};
ghost use Rattle.graph.specs.Circuits.{variable, place};
ghost use Rattle.cone_of_influence.specs.Numbers.{IsSmall, renamed};
ghost use Rattle.cone_of_influence.specs.Reduced.{input_filler as input_filler_of, latch_filler as latch_filler_of, reduced_parts as parts_of, renamed_gate, renamed_latch};

use crate::numbering::rename;
use base::{Refused, Seq};
use graph::{Gate, Latch, Lit, Model, Parts};
use sequential_cones::is_marked;
use std::alloc::Global;

/// The literals, renamed.
pub(crate) fn rename_all(alloc: Global, table: &[u32], lits: &[Lit]) -> Result<Seq<Lit>, Refused>
    requires { IsSmall table.now }
    ensures { IfOk result (λ s. s ≡ map (renamed table.now) lits.now) }
{
    let mut all = Seq::new(alloc);
    for lit in lits {
        all.push(rename(table, *lit))?;
    }
    Ok(all)
}

/// The literals that are marked.
fn marked_inputs(alloc: Global, marks: &[bool], inputs: &[Lit]) -> Result<Seq<Lit>, Refused>
    ensures { IfOk result (λ kept. kept ≡ filter (λ a. place marks.now (variable a)) inputs.now) }
{
    let mut kept = Seq::new(alloc);
    'choosing: for lit in inputs {
        if is_marked(marks, lit.variable()) {
            kept.push(*lit)?;
        }
    }
    Ok(kept)
}

/// The marked inputs, renamed.
fn kept_inputs(
    alloc: Global,
    marks: &[bool],
    numbers: &[u32],
    inputs: &[Lit],
) -> Result<Seq<Lit>, Refused>
    requires { IsSmall numbers.now }
    ensures { IfOk result (λ s. s ≡ map (renamed numbers.now) (filter (λ a. place marks.now (variable a)) inputs.now)) }
{
    let kept = marked_inputs(alloc, marks, inputs)?;
    let all = rename_all(alloc, numbers, kept.as_slice())?;
    Ok(all)
}

/// The latches that are marked.
fn marked_latches(alloc: Global, marks: &[bool], latches: &[Latch]) -> Result<Seq<Latch>, Refused>
    ensures { IfOk result (λ kept. kept ≡ filter (λ l. place marks.now (variable l.lit)) latches.now) }
{
    let mut kept = Seq::new(alloc);
    'choosing: for latch in latches {
        if is_marked(marks, latch.lit.variable()) {
            kept.push(*latch)?;
        }
    }
    Ok(kept)
}

/// A latch, renamed.
fn rename_latch(numbers: &[u32], latch: Latch) -> Latch
    requires { IsSmall numbers.now }
    ensures { result ≡ renamed_latch numbers.now latch }
{
    Latch {
        lit: rename(numbers, latch.lit),
        next: rename(numbers, latch.next),
        reset: rename(numbers, latch.reset),
    }
}

/// The latches, renamed.
fn rename_latches(alloc: Global, numbers: &[u32], latches: &[Latch]) -> Result<Seq<Latch>, Refused>
    requires { IsSmall numbers.now }
    ensures { IfOk result (λ s. s ≡ map (renamed_latch numbers.now) latches.now) }
{
    let mut all = Seq::new(alloc);
    for latch in latches {
        all.push(rename_latch(numbers, *latch))?;
    }
    Ok(all)
}

/// The marked latches, renamed.
fn kept_latches(
    alloc: Global,
    marks: &[bool],
    numbers: &[u32],
    latches: &[Latch],
) -> Result<Seq<Latch>, Refused>
    requires { IsSmall numbers.now }
    ensures { IfOk result (λ s. s ≡ map (renamed_latch numbers.now) (filter (λ l. place marks.now (variable l.lit)) latches.now)) }
{
    let kept = marked_latches(alloc, marks, latches)?;
    let all = rename_latches(alloc, numbers, kept.as_slice())?;
    Ok(all)
}

/// The gates that are marked.
fn marked_gates(alloc: Global, marks: &[bool], gates: &[Gate]) -> Result<Seq<Gate>, Refused>
    ensures { IfOk result (λ kept. kept ≡ filter (λ g. place marks.now (variable g.lhs)) gates.now) }
{
    let mut kept = Seq::new(alloc);
    'choosing: for gate in gates {
        if is_marked(marks, gate.lhs.variable()) {
            kept.push(*gate)?;
        }
    }
    Ok(kept)
}

/// A gate, renamed.
fn rename_gate(numbers: &[u32], gate: Gate) -> Gate
    requires { IsSmall numbers.now }
    ensures { result ≡ renamed_gate numbers.now gate }
{
    Gate {
        lhs: rename(numbers, gate.lhs),
        rhs0: rename(numbers, gate.rhs0),
        rhs1: rename(numbers, gate.rhs1),
    }
}

/// The gates, renamed.
fn rename_gates(alloc: Global, numbers: &[u32], gates: &[Gate]) -> Result<Seq<Gate>, Refused>
    requires { IsSmall numbers.now }
    ensures { IfOk result (λ s. s ≡ map (renamed_gate numbers.now) gates.now) }
{
    let mut all = Seq::new(alloc);
    for gate in gates {
        all.push(rename_gate(numbers, *gate))?;
    }
    Ok(all)
}

/// The marked gates, renamed.
fn kept_gates(
    alloc: Global,
    marks: &[bool],
    numbers: &[u32],
    gates: &[Gate],
) -> Result<Seq<Gate>, Refused>
    requires { IsSmall numbers.now }
    ensures { IfOk result (λ s. s ≡ map (renamed_gate numbers.now) (filter (λ g. place marks.now (variable g.lhs)) gates.now)) }
{
    let kept = marked_gates(alloc, marks, gates)?;
    let all = rename_gates(alloc, numbers, kept.as_slice())?;
    Ok(all)
}

/// The marked part of the circuit, renamed.
pub(crate) fn reduced_parts(
    alloc: Global,
    circuit: &Model,
    marks: &[bool],
    numbers: &[u32],
    greatest: u32,
) -> Result<Parts, Refused>
    requires { IsSmall numbers.now }
    ensures { IfOk result (λ s. s ≡ parts_of circuit.now marks.now numbers.now greatest) }
{
    Ok(Parts {
        max_var: greatest,
        inputs: kept_inputs(alloc, marks, numbers, circuit.inputs())?,
        latches: kept_latches(alloc, marks, numbers, circuit.latches())?,
        outputs: Seq::new(alloc),
        bad: rename_all(alloc, numbers, circuit.bad())?,
        constraints: rename_all(alloc, numbers, circuit.constraints())?,
        justice: Seq::new(alloc),
        fairness: Seq::new(alloc),
        gates: kept_gates(alloc, marks, numbers, circuit.gates())?,
    })
}

/// What a latch begins with where it is left out, and none where it is kept.
fn latch_filler(marks: &[bool], latch: Latch) -> Option<bool>
    ensures { result ≡ latch_filler_of marks.now latch }
{
    if is_marked(marks, latch.lit.variable()) {
        None
    } else {
        Some(latch.reset.0 == 1)
    }
}

/// For each latch what it begins with where it is left out, and none where it is kept.
pub(crate) fn latch_fillers(
    alloc: Global,
    marks: &[bool],
    latches: &[Latch],
) -> Result<Seq<Option<bool>>, Refused>
    ensures { IfOk result (λ s. s ≡ map (latch_filler_of marks.now) latches.now) }
{
    let mut fillers = Seq::new(alloc);
    for latch in latches {
        fillers.push(latch_filler(marks, *latch))?;
    }
    Ok(fillers)
}

/// False where an input is left out, and none where it is kept.
fn input_filler(marks: &[bool], input: Lit) -> Option<bool>
    ensures { result ≡ input_filler_of marks.now input }
{
    if is_marked(marks, input.variable()) {
        None
    } else {
        Some(false)
    }
}

/// For each input false where it is left out, and none where it is kept.
pub(crate) fn input_fillers(
    alloc: Global,
    marks: &[bool],
    inputs: &[Lit],
) -> Result<Seq<Option<bool>>, Refused>
    ensures { IfOk result (λ s. s ≡ map (input_filler_of marks.now) inputs.now) }
{
    let mut fillers = Seq::new(alloc);
    for lit in inputs {
        fillers.push(input_filler(marks, *lit))?;
    }
    Ok(fillers)
}
