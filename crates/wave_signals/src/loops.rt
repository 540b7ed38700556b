//! Where the loop of a lasso begins.

ghost use Rattle.std.specs.Prelude.{◌≡◌, ◌≤◌, ◌<◌, ℕ, [], ◌∷◌, ◌↔◌, true, IsTrue, IsSome, Some, List, All, length, IfOk, IfErr, MatchOption};
ghost use Rattle.graph.specs.Circuits.{wanted_of, Valuation, place, variable};
ghost use Rattle.simulate.specs.Refusals.{HasCause};
ghost use Rattle.stimulus.specs.Courses.{Course, Marks, MeetsAt, NeverMeets};
ghost use Rattle.wave_signals.specs.Loops.{IsFirstLasso, IsLoopStart};

use base::{Refused, Seq, extend, filled_like};
use graph::{Lit, Model, Parts, Property};
use simulate::{Replay, ReplayError};
use std::alloc::Global;

/// Steps to the first time of this state, and answers it.
fn meet(replay: &mut Replay<'_>, closing: &[bool], lines: &[Seq<bool>]) -> Option<usize>
    requires lengths { All (λ line. length line ≡ length replay.old.circuit.inputs) lines.now }
    ensures circuit { replay.new.circuit ≡ replay.old.circuit }
    ensures met { MatchOption result (NeverMeets replay.old.circuit replay.old.state lines.now closing.now) (MeetsAt replay.old.circuit replay.old.state lines.now closing.now replay.new.state) }
{
    for (i, line) in lines.iter().enumerate() {
        if replay.state() == closing {
            return Some(i);
        }
        replay.step(line.as_slice());
    }
    None
}

/// Marks the literals that are set at the time stepped last.
fn mark(replay: &Replay<'_>, wanted: &[Lit], marks: &mut [bool])
    requires stepped { IsSome replay.now.now }
    requires in_range { All (λ a. variable a ≤ replay.now.circuit.max_var) wanted.now }
    requires lengths { length marks.old ≡ length wanted.now }
    ensures { (w : Valuation) → replay.now.now ≡ Some w → Marks wanted.now (w ∷ []) 1 marks.old marks.new }
{
    for (k, lit) in wanted.iter().enumerate() {
        if replay.value(*lit) {
            marks[k] = true;
        }
    }
}

/// Whether every mark is set.
fn are_all_set(marks: &[bool]) -> bool
    ensures { IsTrue result ↔ ((k : ℕ) → k < length marks.now → place marks.now k ≡ true) }
{
    for mark in marks {
        if !*mark {
            return false;
        }
    }
    true
}

/// Steps through the lines, as far as it takes to mark the literals that are set at one of the times.
fn gather(replay: &mut Replay<'_>, wanted: &[Lit], marks: &mut [bool], lines: &[Seq<bool>])
    requires lines_fit { All (λ line. length line ≡ length replay.old.circuit.inputs) lines.now }
    requires in_range { All (λ a. variable a ≤ replay.old.circuit.max_var) wanted.now }
    requires lengths { length marks.old ≡ length wanted.now }
    ensures { (x : List Valuation) → Course replay.old.circuit replay.old.state lines.now x → Marks wanted.now x (length x) marks.old marks.new }
{
    for line in lines {
        if are_all_set(marks) {
            return;
        }
        replay.step(line.as_slice());
        mark(replay, wanted, marks);
    }
}

/// The literals of a justice property, then the fairness literals.
fn wanted(alloc: Global, parts: &Parts, j: u32) -> Result<Vec<Lit>, Refused>
    requires { j < length parts.now.justice }
    ensures { IfOk result (λ v. v.items ≡ wanted_of parts.now j) }
{
    let mut wanted = Vec::new(alloc);
    let lits = &parts.justice.as_slice()[j as usize];
    extend(&mut wanted, lits.as_slice())?;
    extend(&mut wanted, parts.fairness.as_slice())?;
    Ok(wanted)
}

/// The first time of this state, where each wanted literal is set from there on. Where one is not, no later time has
/// them all: what is set from a later time on is set from the first on.
fn first_lasso(
    alloc: Global,
    circuit: &Model,
    wanted: &[Lit],
    closing: &[bool],
    initial: &[bool],
    lines: &[Seq<bool>],
) -> Result<Option<usize>, ReplayError>
    requires latches { length initial.now ≡ length circuit.now.latches }
    requires lines_fit { All (λ line. length line ≡ length circuit.now.inputs) lines.now }
    requires in_range { All (λ a. variable a ≤ circuit.now.max_var) wanted.now }
    ensures found { IfOk result (λ found. (x : List Valuation) → Course circuit.now initial.now lines.now x → IsFirstLasso circuit.now wanted.now closing.now x found) }
    ensures refused { IfErr result (HasCause circuit.now.latches initial.now) }
{
    let mut replay = Replay::new(alloc, circuit, initial)?;
    let Some(start) = meet(&mut replay, closing, lines) else {
        return Ok(None);
    };
    let mut marks = filled_like(alloc, false, wanted)?;
    gather(&mut replay, wanted, &mut marks, &lines[start..]);
    if are_all_set(&marks) {
        Ok(Some(start))
    } else {
        Ok(None)
    }
}

/// The first time from which the replay of these lines closes a lasso of the property at this state, which is that
/// after the last line.
pub fn loop_start(
    alloc: Global,
    circuit: &Model,
    property: Property,
    closing: &[bool],
    initial: &[bool],
    lines: &[Seq<bool>],
) -> Result<Option<usize>, ReplayError>
    requires latches { length initial.now ≡ length circuit.now.latches }
    requires lines_fit { All (λ line. length line ≡ length circuit.now.inputs) lines.now }
    ensures found { IfOk result (λ found. (x : List Valuation) → Course circuit.now initial.now lines.now x → IsLoopStart circuit.now property closing.now x found) }
    ensures refused { IfErr result (HasCause circuit.now.latches initial.now) }
{
    let Property::Justice(j) = property else {
        return Ok(None);
    };
    let parts = circuit.parts();
    if j as usize >= parts.justice.len() {
        return Ok(None);
    }
    let wanted = wanted(alloc, parts, j)?;
    first_lasso(alloc, circuit, &wanted, closing, initial, lines)
}
