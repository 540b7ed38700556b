//! Lifting: from one state to all states that lead on with the same inputs, by a justification of
//! what they lead to (Een, Mishchenko, Brayton 2011).

ghost use Rattle.std.specs.Prelude.{◌≡◌, ◌+◌, ◌<◌, ◌++◌, ◌^◌, ◌↔◌, IsTrue, ℕ, false, length, All, IfOk, OnOk};
ghost use Rattle.graph.specs.declared.parts.Parts.{Parts};
ghost use Rattle.graph.specs.Circuits.{Valuation, variable, place};
ghost use Rattle.states.specs.States.{Denies};
ghost use Rattle.ic3_step.specs.States.{IsAt, AllSet};
ghost use Rattle.ic3_step.specs.Replies.{IsUsable};
ghost use Rattle.cones.specs.Marks.{IsMarked};
ghost use Rattle.cones.specs.Reach.{IsGateTable};
ghost use Rattle.ic3_frames.specs.Frames.{IsStateClause};
ghost use Rattle.ic3_blocking.specs.Cubes.{Justifies, HasMarked, IsReady};

use base::{Refused, Seq, copied, extend, filled};
use cones::{GateTable, Reach, unmark};
use graph::{Latch, Lit, Model};
use ic3_step::Assignment;
use states::StateLit;
use std::alloc::Global;

/// What lifting keeps of a circuit from one call to the next: the gate of each variable, and a mark
/// for each variable, of which none is set between two calls.
#[derive(Drop)]
pub struct Lifting {
    table: GateTable,
    marks: Vec<bool>,
}

/// Whether the literal's variable is marked.
fn is_marked(marks: &[bool], lit: Lit) -> bool
    ensures { IsTrue result ↔ IsMarked marks.now (variable lit) }
{
    match marks.get(lit.variable() as usize) {
        Some(mark) => *mark,
        None => false,
    }
}

/// The clause that is false where the latches that are marked have their values in the state.
fn clause_of(
    alloc: Global,
    latches: &[Latch],
    state: &[bool],
    marks: &[bool],
) -> Result<Seq<StateLit>, Refused>
    requires small { length latches.now < 2 ^ 32 }
    requires state { length state.now ≡ length latches.now }
    ensures denies { IfOk result (Denies state.now) }
    ensures clause { (m : Parts) → m.latches ≡ latches.now → IfOk result (IsStateClause m) }
    ensures each { IfOk result (HasMarked latches.now state.now marks.now) }
{
    let mut clause = Seq::new(alloc);
    'denying: for i in 0..latches.len() {
        if is_marked(marks, latches[i].lit) {
            clause.push(StateLit {
                latch: i as u32,
                value: !state[i],
            })?;
        }
    }
    Ok(clause)
}

/// The targets, and the constraints of the circuit.
fn wanted_of(alloc: Global, circuit: &Model, targets: &[Lit]) -> Result<Vec<Lit>, Refused>
    ensures { IfOk result (λ v. v.items ≡ targets.now ++ circuit.now.constraints) }
{
    let mut wanted = copied(alloc, targets)?;
    extend(&mut wanted, circuit.constraints())?;
    Ok(wanted)
}

/// The clause of the cube of all states that justify the targets and the constraints as the state of
/// the time does. It costs the latches and what it marks, and takes the marks away.
fn lifted(
    alloc: Global,
    circuit: &Model,
    table: &GateTable,
    marks: &mut [bool],
    time: &Assignment,
    targets: &[Lit],
) -> Result<Seq<StateLit>, Refused>
    requires table { IsGateTable circuit.now table.now }
    requires places { length marks.old ≡ circuit.now.max_var + 1 }
    requires clear { (v : ℕ) → place marks.old v ≡ false }
    requires at { (w : Valuation) × IsAt circuit.now targets.now w time.now × AllSet w targets.now }
    requires known { All (IsUsable circuit.now) targets.now }
    ensures places { OnOk result (length marks.new ≡ circuit.now.max_var + 1) }
    ensures clear { OnOk result ((v : ℕ) → place marks.new v ≡ false) }
    ensures denies { IfOk result (Denies time.now.state) }
    ensures clause { IfOk result (IsStateClause circuit.now) }
    ensures justifies { IfOk result (λ c. Justifies circuit.now c time.now.inputs targets.now) }
{
    circuit.well_formed();
    circuit.order();
    let wanted = wanted_of(alloc, circuit, targets)?;
    let list = cones::extend(
        alloc,
        circuit,
        table,
        Reach::Justification,
        time.values.as_slice(),
        &wanted,
        marks,
    )?;
    let clause = clause_of(alloc, circuit.latches(), time.state.as_slice(), marks)?;
    unmark(marks, &list);
    Ok(clause)
}

impl Lifting {
    /// The tables of a circuit. It costs the circuit.
    pub fn new(alloc: Global, circuit: &Model) -> Result<Lifting, Refused>
        ensures { IfOk result (IsReady circuit.now) }
    {
        circuit.well_formed();
        let table = GateTable::new(alloc, circuit)?;
        let marks = filled(alloc, false, circuit.max_var() as usize + 1)?;
        Ok(Lifting { table, marks })
    }

    /// The clause that is false in the state of the time, and in a cube of states each of which keeps
    /// the constraints and makes the targets true, with the inputs of the time. It costs the latches
    /// and what gives the targets and the constraints their values. After an `Err` no state is
    /// lifted any more.
    pub(crate) fn lift(
        &mut self,
        alloc: Global,
        circuit: &Model,
        time: &Assignment,
        targets: &[Lit],
    ) -> Result<Seq<StateLit>, Refused>
        requires ready { IsReady circuit.now self.old }
        requires at { (w : Valuation) × IsAt circuit.now targets.now w time.now × AllSet w targets.now }
        requires known { All (IsUsable circuit.now) targets.now }
        ensures ready { OnOk result (IsReady circuit.now self.new) }
        ensures denies { IfOk result (Denies time.now.state) }
        ensures clause { IfOk result (IsStateClause circuit.now) }
        ensures justifies { IfOk result (λ c. Justifies circuit.now c time.now.inputs targets.now) }
    {
        let clause = lifted(alloc, circuit, &self.table, &mut self.marks, time, targets)?;
        Ok(clause)
    }
}
