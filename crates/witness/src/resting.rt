//! On which values a time of a run rests.

ghost use Rattle.std.specs.Prelude.{◌≡◌, ◌<◌, ◌+◌, ℕ, true, IsTrue, ◌↔◌, false, IfOk, OnOk, IfSome, All, length, map};
ghost use Rattle.graph.specs.Circuits.{Valuation, Agrees, place, state_of, inputs_of, value_of, variable, next_state};
ghost use Rattle.stimulus.specs.Causes.{KeepsAt};
ghost use Rattle.cones.specs.Marks.{IsMarked, IsKnown, IsJustification};
ghost use Rattle.cones.specs.Reach.{IsGateTable};
ghost use Rattle.witness.specs.Completions.{Completes};
ghost use Rattle.witness.specs.Cleared.{AreTrueFrom, IsTimeEnough, kept_by};

use base::{Refused, Seq, copied, extend, filled, push};
use cones::{GateTable, Reach, extend as extend_marks, value_laws};
use graph::{Lit, Model, literal_value};
use std::alloc::Global;

/// The literal that is true where this one has the value.
pub fn with_value(lit: Lit, value: bool) -> Lit
    ensures variable { variable result ≡ variable lit }
    ensures value { (w : Valuation) → value_of w result ≡ true → value_of w lit ≡ value }
{
    if value {
        return lit;
    }
    if lit.is_negated() {
        Lit(lit.0 - 1)
    } else {
        Lit(lit.0 + 1)
    }
}

/// Literals that are true where the state after a time has the values that are wanted later.
#[tactic(auto, using(crate::proofs::NextLaws::nexts_given, crate::proofs::NextLaws::nexts_none))]
fn nexts(alloc: Global, circuit: &Model, later: &[Option<bool>]) -> Result<Vec<Lit>, Refused>
    requires { length later.now ≡ length circuit.now.latches }
    ensures known { IfOk result (λ v. All (λ a. IsKnown circuit.now (variable a)) v.items) }
    ensures means { (w : Valuation) → IfOk result (λ v. All (λ a. value_of w a ≡ true) v.items → Completes later.now (next_state circuit.now w)) }
{
    let latches = circuit.parts().latches.as_slice();
    let mut nexts = Vec::new(alloc);
    for (position, given) in later.iter().enumerate() {
        if let Some(value) = *given {
            push(&mut nexts, with_value(latches[position].next, value))?;
        }
    }
    Ok(nexts)
}

/// Literals that are true at a time that keeps the constraints, meets the goal, and leads to what is wanted later.
fn wanted(
    alloc: Global,
    circuit: &Model,
    goal: &[Lit],
    later: &[Option<bool>],
) -> Result<Vec<Lit>, Refused>
    requires goal { All (λ a. IsKnown circuit.now (variable a)) goal.now }
    requires later { length later.now ≡ length circuit.now.latches }
    ensures known { IfOk result (λ v. All (λ a. IsKnown circuit.now (variable a)) v.items) }
    ensures means { (w : Valuation) → IfOk result (λ v. All (λ a. value_of w a ≡ true) v.items → (KeepsAt circuit.now w × All (λ a. value_of w a ≡ true) goal.now) × Completes later.now (next_state circuit.now w)) }
{
    let mut wanted = copied(alloc, circuit.parts().constraints.as_slice())?;
    let nexts = nexts(alloc, circuit, later)?;
    extend(&mut wanted, goal)?;
    extend(&mut wanted, &nexts)?;
    Ok(wanted)
}

/// Whether each literal is true.
fn are_true(circuit: &Model, values: &[bool], lits: &[Lit]) -> bool
    requires places { length values.now ≡ circuit.now.max_var + 1 }
    requires known { All (λ a. IsKnown circuit.now (variable a)) lits.now }
    ensures { IsTrue result ↔ All (λ a. value_of values.now a ≡ true) lits.now }
{
    circuit.well_formed();
    for lit in lits {
        if !literal_value(*lit, values) {
            return false;
        }
    }
    true
}

/// Marks the variables on whose values the literals rest. None is marked before.
fn mark(
    alloc: Global,
    circuit: &Model,
    table: &GateTable,
    values: &[bool],
    lits: &[Lit],
    marks: &mut [bool],
) -> Result<(), Refused>
    requires table { IsGateTable circuit.now table.now }
    requires agrees { Agrees circuit.now values.now }
    requires known { All (λ a. IsKnown circuit.now (variable a)) lits.now }
    requires places { length marks.old ≡ circuit.now.max_var + 1 }
    requires clear { (v : ℕ) → place marks.old v ≡ false }
    ensures justified { OnOk result (IsJustification circuit.now (IsMarked marks.new) values.now) }
    ensures marked { OnOk result (All (λ a. IsMarked marks.new (variable a)) lits.now) }
    ensures same_places { length marks.new ≡ length marks.old }
{
    circuit.well_formed();
    extend_marks(
        alloc,
        circuit,
        table,
        Reach::Justification,
        values,
        lits,
        marks,
    )?;
    Ok(())
}

/// The mark of the literal's variable.
fn is_marked(marks: &[bool], lit: Lit) -> bool
    ensures { result ≡ place marks.now (variable lit) }
{
    match marks.get(lit.variable() as usize) {
        Some(is_marked) => *is_marked,
        None => false,
    }
}

/// The value of the literal, where it is marked.
fn kept_value(values: &[bool], marks: &[bool], lit: Lit) -> Option<bool>
    requires { variable lit < length values.now }
    ensures { result ≡ kept_by values.now marks.now lit }
{
    if is_marked(marks, lit) {
        Some(literal_value(lit, values))
    } else {
        None
    }
}

/// The values of the literals that are marked.
fn kept(
    alloc: Global,
    lits: &[Lit],
    values: &[bool],
    marks: &[bool],
) -> Result<Seq<Option<bool>>, Refused>
    requires { All (λ a. variable a < length values.now) lits.now }
    ensures { IfOk result (λ row. row ≡ map (kept_by values.now marks.now) lits.now) }
{
    let mut row = Seq::new(alloc);
    for lit in lits {
        row.push(kept_value(values, marks, *lit))?;
    }
    Ok(row)
}

/// The literals of the latches.
pub fn latch_literals(alloc: Global, circuit: &Model) -> Result<Vec<Lit>, Refused>
    ensures { IfOk result (λ v. v.items ≡ map (λ l. l.lit) circuit.now.latches) }
{
    let mut lits = Vec::new(alloc);
    for latch in circuit.parts().latches.as_slice() {
        push(&mut lits, latch.lit)?;
    }
    Ok(lits)
}

/// What is looked up of a circuit.
#[derive(Drop)]
pub struct Tables {
    /// its gates by their variables
    pub gates: GateTable,
    /// the literals of its latches
    pub latches: Vec<Lit>,
}

/// What a time rests on.
#[derive(Drop)]
pub struct Left {
    /// of its state
    pub state: Seq<Option<bool>>,
    /// of its inputs
    pub row: Seq<Option<bool>>,
}

/// The values of the latches and inputs that are marked.
fn left_by(
    alloc: Global,
    circuit: &Model,
    latches: &[Lit],
    values: &[bool],
    marks: &[bool],
) -> Result<Left, Refused>
    requires latches { latches.now ≡ map (λ l. l.lit) circuit.now.latches }
    requires places { length values.now ≡ circuit.now.max_var + 1 }
    ensures state { IfOk result (λ left. left.state ≡ map (kept_by values.now marks.now) latches.now) }
    ensures row { IfOk result (λ left. left.row ≡ map (kept_by values.now marks.now) circuit.now.inputs) }
{
    circuit.well_formed();
    let state = kept(alloc, latches, values, marks)?;
    let row = kept(alloc, circuit.inputs(), values, marks)?;
    Ok(Left { state, row })
}

/// What literals that are true at the time of these values rest on.
fn left_of(
    alloc: Global,
    circuit: &Model,
    table: &GateTable,
    latches: &[Lit],
    values: &[bool],
    lits: &[Lit],
) -> Result<Left, Refused>
    requires table { IsGateTable circuit.now table.now }
    requires latches { latches.now ≡ map (λ l. l.lit) circuit.now.latches }
    requires agrees { Agrees circuit.now values.now }
    requires known { All (λ a. IsKnown circuit.now (variable a)) lits.now }
    requires are_true { All (λ a. value_of values.now a ≡ true) lits.now }
    ensures enough { IfOk result (λ left. AreTrueFrom circuit.now left.state left.row lits.now) }
    ensures state { IfOk result (λ left. Completes left.state (state_of circuit.now values.now)) }
    ensures row { IfOk result (λ left. Completes left.row (inputs_of circuit.now values.now)) }
{
    value_laws(circuit);
    let mut marks = filled(alloc, false, circuit.parts().max_var as usize + 1)?;
    mark(alloc, circuit, table, values, lits, &mut marks)?;
    let left = left_by(alloc, circuit, latches, values, &marks)?;
    Ok(left)
}

/// What a time of this state and these inputs rests on, where it meets the goal and leads to what is wanted later; nothing
/// where it does not.
pub fn left_of_time(
    alloc: Global,
    circuit: &Model,
    tables: &Tables,
    state: &[bool],
    line: &[bool],
    goal: &[Lit],
    later: &[Option<bool>],
) -> Result<Option<Left>, Refused>
    requires gates { IsGateTable circuit.now tables.now.gates }
    requires latches { tables.now.latches.items ≡ map (λ l. l.lit) circuit.now.latches }
    requires state { length state.now ≡ length circuit.now.latches }
    requires line { length line.now ≡ length circuit.now.inputs }
    requires goal { All (λ a. IsKnown circuit.now (variable a)) goal.now }
    requires later { length later.now ≡ length circuit.now.latches }
    ensures enough { IfOk result (λ left. IfSome left (λ l. IsTimeEnough circuit.now goal.now later.now l.state l.row)) }
    ensures state { IfOk result (λ left. IfSome left (λ l. Completes l.state state.now)) }
    ensures row { IfOk result (λ left. IfSome left (λ l. Completes l.row line.now)) }
{
    let mut values = filled(alloc, false, circuit.parts().max_var as usize + 1)?;
    circuit.eval(state, line, &mut values);
    let wanted = wanted(alloc, circuit, goal, later)?;
    if !are_true(circuit, &values, &wanted) {
        return Ok(None);
    }
    let (gates, latches) = (&tables.gates, tables.latches.as_slice());
    Ok(Some(left_of(alloc, circuit, gates, latches, &values, &wanted)?))
}
