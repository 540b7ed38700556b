//! What a violation rests on.

ghost use Rattle.std.specs.Prelude.{◌≡◌, ◌+◌, [], false, IfOk, IfSome, IsTrue, All, None, Some, length, map, replicate, slice_get, slice_index_or};
ghost use Rattle.graph.specs.Circuits.{variable, IsWatched};
ghost use Rattle.cones.specs.Marks.{IsKnown};
ghost use Rattle.cones.specs.Reach.{IsGateTable};
ghost use Rattle.witness.specs.Completions.{Completes};
ghost use Rattle.witness.specs.Cleared.{AreEnough, CompleteAll, IsClearedOf, IsEnough, goals_for};
ghost use Rattle.stimulus.specs.Causes.{IsPlayable};
ghost use Rattle.stimulus.specs.declared.value.Stimulus.TheVariants.{Violated};
ghost use Rattle.stimulus.specs.Shown.{Shows};

use crate::cleared::Cleared;
use crate::resting::{Left, Tables, latch_literals, left_of_time};
use base::{Refused, Seq, filled_like, push};
use cones::{GateTable, value_laws};
use graph::{Lit, Model, Property};
use simulate::{Replay, ReplayError};
use std::alloc::Global;
use stimulus::{JudgeError, Stimulus, check_playable, judge};

/// What the times of a run rest on, where each meets its goal and the last leads to what is wanted in the end: of the
/// first state and of the inputs.
fn walk_back(
    alloc: Global,
    circuit: &Model,
    tables: &Tables,
    states: &[Seq<bool>],
    lines: &[Seq<bool>],
    goals: &[Seq<Lit>],
    closing: Seq<Option<bool>>,
) -> Result<Option<(Seq<Option<bool>>, Seq<Seq<Option<bool>>>)>, Refused>
    requires gates { IsGateTable circuit.now tables.now.gates }
    requires latches { tables.now.latches.items ≡ map (λ l. l.lit) circuit.now.latches }
    requires states { length states.now ≡ length lines.now + 1 }
    requires states_fit { All (λ s. length s ≡ length circuit.now.latches) states.now }
    requires lines_fit { All (λ l. length l ≡ length circuit.now.inputs) lines.now }
    requires goals { length goals.now ≡ length lines.now }
    requires known { All (λ goal. All (λ a. IsKnown circuit.now (variable a)) goal) goals.now }
    requires closing { Completes closing (slice_index_or states.now (length lines.now) []) }
    ensures enough { IfOk result (λ found. IfSome found (λ c. AreEnough circuit.now goals.now closing c.0 c.1)) }
    ensures state { IfOk result (λ found. IfSome found (λ c. Completes c.0 (slice_index_or states.now 0 []))) }
    ensures rows { IfOk result (λ found. IfSome found (λ c. CompleteAll c.1 lines.now)) }
{
    let mut state = closing;
    let mut rows = Vec::new(alloc);
    for t in (0..lines.len()).rev() {
        let (line, goal) = (lines[t].as_slice(), goals[t].as_slice());
        let later = state.as_slice();
        let Some(Left { state: before, row }) = left_of_time(
            alloc,
            circuit,
            tables,
            states[t].as_slice(),
            line,
            goal,
            later,
        )?
        else {
            return Ok(None);
        };
        state = before;
        push(&mut rows, row)?;
    }
    rows.reverse();
    Ok(Some((state, Seq::from_vec(rows))))
}

/// The states of the run of these lines, up to the one after the last time. There are none where the first is against a reset.
fn states_of(
    alloc: Global,
    circuit: &Model,
    initial: &[bool],
    lines: &[Seq<bool>],
) -> Result<Option<Vec<Seq<bool>>>, Refused>
    requires playable { IsPlayable circuit.now initial.now lines.now }
    ensures count { IfOk result (λ found. IfSome found (λ v. length v.items ≡ length lines.now + 1)) }
    ensures fit { IfOk result (λ found. IfSome found (λ v. All (λ s. length s ≡ length circuit.now.latches) v.items)) }
    ensures first { IfOk result (λ found. IfSome found (λ v. slice_index_or v.items 0 [] ≡ initial.now)) }
{
    let mut replay = match Replay::new(alloc, circuit, initial) {
        Ok(replay) => replay,
        Err(ReplayError::InitialReset { .. }) => return Ok(None),
        Err(ReplayError::OutOfMemory(refused)) => return Err(refused),
    };
    let states = passed(alloc, &mut replay, lines)?;
    Ok(Some(states))
}

/// The states of the replay from now on, up to the one after the last line.
fn passed(
    alloc: Global,
    replay: &mut Replay<'_>,
    lines: &[Seq<bool>],
) -> Result<Vec<Seq<bool>>, Refused>
    requires state { length replay.old.state ≡ length replay.old.circuit.latches }
    requires lines_fit { All (λ l. length l ≡ length replay.old.circuit.inputs) lines.now }
    ensures count { IfOk result (λ v. length v.items ≡ length lines.now + 1) }
    ensures fit { IfOk result (λ v. All (λ s. length s ≡ length replay.old.circuit.latches) v.items) }
    ensures first { IfOk result (λ v. slice_index_or v.items 0 [] ≡ replay.old.state) }
{
    let mut states = Vec::new(alloc);
    push(&mut states, Seq::from_slice(alloc, replay.state())?)?;
    for line in lines {
        replay.step(line.as_slice());
        push(&mut states, Seq::from_slice(alloc, replay.state())?)?;
    }
    Ok(states)
}

/// The goals of a run whose last time sets a literal, behind this number of other times.
#[tactic(auto, using(crate::proofs::EnoughLaws::goals_more))]
fn goals_to_set(alloc: Global, before: usize, lit: Lit) -> Result<Vec<Seq<Lit>>, Refused>
    ensures { IfOk result (λ v. v.items ≡ goals_for before lit) }
{
    let mut goals = Vec::new(alloc);
    push(&mut goals, Seq::from_slice(alloc, &[lit])?)?;
    for _position in 0..before {
        push(&mut goals, Seq::new(alloc))?;
    }
    goals.reverse();
    Ok(goals)
}

/// A row in which each value is open, one for each of these.
fn open_row(alloc: Global, like: &[Lit]) -> Result<Seq<Option<bool>>, Refused>
    ensures { IfOk result (λ row. row ≡ replicate (length like.now) None) }
{
    let row: Vec<Option<bool>> = filled_like(alloc, None, like)?;
    Ok(Seq::from_vec(row))
}

/// What the run of these lines rests on, whose last time sets the literal.
fn clear_bad(
    alloc: Global,
    circuit: &Model,
    property: Property,
    lit: Lit,
    initial: &[bool],
    lines: &[Seq<bool>],
) -> Result<Option<Cleared>, Refused>
    requires watched { IsWatched circuit.now property lit }
    requires playable { IsPlayable circuit.now initial.now lines.now }
    ensures enough { IfOk result (λ found. IfSome found (IsEnough circuit.now)) }
    ensures is { IfOk result (λ found. IfSome found (λ c. IsClearedOf c (Violated property initial.now lines.now))) }
{
    value_laws(circuit);
    circuit.well_formed();
    let tables = Tables {
        gates: GateTable::new(alloc, circuit)?,
        latches: latch_literals(alloc, circuit)?,
    };
    let Some(states) = states_of(alloc, circuit, initial, lines)? else {
        return Ok(None);
    };
    let goals = goals_to_set(alloc, lines.len() - 1, lit)?;
    let closing = open_row(alloc, &tables.latches)?;
    match walk_back(alloc, circuit, &tables, &states, lines, &goals, closing)? {
        Some((initial, inputs)) => Ok(Some(Cleared {
            property,
            initial,
            inputs,
        })),
        None => Ok(None),
    }
}

/// The literal at a position, if there is one.
fn nth(lits: &[Lit], n: u32) -> Option<Lit>
    ensures { result ≡ slice_get lits.now n }
{
    lits.get(n as usize).copied()
}

/// The literal that a property of the circuit watches; none of a justice property, or of one that there is not.
fn literal_of(circuit: &Model, property: Property) -> Option<Lit>
    ensures { IfSome result (IsWatched circuit.now property) }
{
    let parts = circuit.parts();
    if !parts.has_property(property) {
        return None;
    }
    match property {
        Property::Bad(n) => nth(parts.bad.as_slice(), n),
        Property::Output(n) => nth(parts.outputs.as_slice(), n),
        Property::Justice(_) => None,
    }
}

/// All values, of which each is left.
fn whole_row(alloc: Global, values: &[bool]) -> Result<Seq<Option<bool>>, Refused>
    ensures { IfOk result (λ row. row ≡ map Some values.now) }
{
    let mut row = Seq::new(alloc);
    for value in values {
        row.push(Some(*value))?;
    }
    Ok(row)
}

/// All lines, of which each value is left.
fn whole_rows(alloc: Global, lines: &[Seq<bool>]) -> Result<Seq<Seq<Option<bool>>>, Refused>
    ensures { IfOk result (λ rows. rows ≡ map (map Some) lines.now) }
{
    let mut rows = Seq::new(alloc);
    for line in lines {
        rows.push(whole_row(alloc, line.as_slice())?)?;
    }
    Ok(rows)
}

/// The run of these lines, of which each value is left.
fn clear_nothing(
    alloc: Global,
    circuit: &Model,
    property: Property,
    initial: &[bool],
    lines: &[Seq<bool>],
) -> Result<Cleared, Refused>
    requires { Shows circuit.now (Violated property initial.now lines.now) }
    ensures enough { IfOk result (IsEnough circuit.now) }
    ensures is { IfOk result (λ c. IsClearedOf c (Violated property initial.now lines.now)) }
{
    Ok(Cleared {
        property,
        initial: whole_row(alloc, initial)?,
        inputs: whole_rows(alloc, lines)?,
    })
}

/// Whether the stimulus shows its violation.
fn is_shown(alloc: Global, circuit: &Model, stimulus: &Stimulus) -> Result<bool, Refused>
    ensures shows { IfOk result (λ shown. IsTrue shown → Shows circuit.now stimulus.now) }
    ensures exact { IfOk result (λ shown. shown ≡ false → Shows circuit.now stimulus.now → ⊥) }
{
    match judge(alloc, circuit, stimulus) {
        Ok(()) => Ok(true),
        Err(JudgeError::OutOfMemory(refused)) => Err(refused),
        Err(_) => Ok(false),
    }
}

/// What the run of these lines rests on, where it sets what a bad literal or an output watches.
fn clear_safety(
    alloc: Global,
    circuit: &Model,
    property: Property,
    initial: &[bool],
    lines: &[Seq<bool>],
) -> Result<Option<Cleared>, Refused>
    ensures enough { IfOk result (λ found. IfSome found (IsEnough circuit.now)) }
    ensures is { IfOk result (λ found. IfSome found (λ c. IsClearedOf c (Violated property initial.now lines.now))) }
{
    if check_playable(circuit.parts(), initial, lines).is_err() {
        return Ok(None);
    }
    match literal_of(circuit, property) {
        Some(lit) => clear_bad(alloc, circuit, property, lit, initial, lines),
        None => Ok(None),
    }
}

/// What a violation rests on: whatever stands in place of the other values, with each latch at its reset, the violation is shown
/// (a justification of the literals that make it, from the last time to the first: Een, Mishchenko, Brayton 2011). Of a justice
/// property all values are left. There is nothing where the stimulus shows no violation. It costs three passes over the gates for each
/// time, and takes the state of each time.
pub fn clear(
    alloc: Global,
    circuit: &Model,
    stimulus: &Stimulus,
) -> Result<Option<Cleared>, Refused>
    ensures enough { IfOk result (λ found. IfSome found (IsEnough circuit.now)) }
    ensures is { IfOk result (λ found. IfSome found (λ c. IsClearedOf c stimulus.now)) }
    ensures none { IfOk result (λ found. found ≡ None → Shows circuit.now stimulus.now → ⊥) }
{
    let Stimulus::Violated {
        property,
        initial,
        inputs,
    } = stimulus
    else {
        return Ok(None);
    };
    if !is_shown(alloc, circuit, stimulus)? {
        return Ok(None);
    }
    let (initial, lines) = (initial.as_slice(), inputs.as_slice());
    match clear_safety(alloc, circuit, *property, initial, lines)? {
        Some(cleared) => Ok(Some(cleared)),
        None => Ok(Some(clear_nothing(alloc, circuit, *property, initial, lines)?)),
    }
}
