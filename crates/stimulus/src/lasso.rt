//! Whether a run closes a lasso.

ghost use Rattle.std.specs.Prelude.{◌≡◌, ◌≤◌, ◌<◌, ℕ, [], ◌∷◌, ◌↔◌, true, IsTrue, IsSome, Some, List, All, length, IfOk, IfErr, MatchOption};
ghost use Rattle.graph.specs.Circuits.{wanted_of, Valuation, place, variable};
ghost use Rattle.stimulus.specs.Courses.{Course, HasRunCause, Marks, MeetsAt, NeverMeets};
ghost use Rattle.stimulus.specs.Shown.{ClosesLasso};

use crate::judge_error::JudgeError;
use base::{Refused, Seq, extend, filled_like};
use graph::{Lit, Model, Parts};
use simulate::Replay;
use std::alloc::Global;

/// Steps to the first time of this state, and answers it.
fn meet(replay: &mut Replay<'_>, closing: &[bool], lines: &[Seq<bool>]) -> Option<usize>
    requires lengths { All (λ line. length line ≡ length replay.old.circuit.inputs) lines.now }
    ensures circuit { replay.new.circuit ≡ replay.old.circuit }
    ensures met { MatchOption result (NeverMeets replay.old.circuit replay.old.state lines.now closing.now) (MeetsAt replay.old.circuit replay.old.state lines.now closing.now replay.new.state) }
{
    for (i, line) in lines.iter().enumerate() {
        if replay.state() == closing {
            return Some(i);
        }
        replay.step(line.as_slice());
    }
    None
}

/// Marks the literals that are set at the time stepped last.
fn mark(replay: &Replay<'_>, wanted: &[Lit], marks: &mut [bool])
    requires stepped { IsSome replay.now.now }
    requires in_range { All (λ a. variable a ≤ replay.now.circuit.max_var) wanted.now }
    requires lengths { length marks.old ≡ length wanted.now }
    ensures { (w : Valuation) → replay.now.now ≡ Some w → Marks wanted.now (w ∷ []) 1 marks.old marks.new }
{
    for (k, lit) in wanted.iter().enumerate() {
        if replay.value(*lit) {
            marks[k] = true;
        }
    }
}

/// Whether every mark is set.
fn are_all_set(marks: &[bool]) -> bool
    ensures { IsTrue result ↔ ((k : ℕ) → k < length marks.now → place marks.now k ≡ true) }
{
    for mark in marks {
        if !*mark {
            return false;
        }
    }
    true
}

/// Steps through the lines, as far as it takes to mark the literals that are set at one of the times.
fn gather(replay: &mut Replay<'_>, wanted: &[Lit], marks: &mut [bool], lines: &[Seq<bool>])
    requires lines_fit { All (λ line. length line ≡ length replay.old.circuit.inputs) lines.now }
    requires in_range { All (λ a. variable a ≤ replay.old.circuit.max_var) wanted.now }
    requires lengths { length marks.old ≡ length wanted.now }
    ensures { (x : List Valuation) → Course replay.old.circuit replay.old.state lines.now x → Marks wanted.now x (length x) marks.old marks.new }
{
    for line in lines {
        if are_all_set(marks) {
            return;
        }
        replay.step(line.as_slice());
        mark(replay, wanted, marks);
    }
}

/// The literals of a justice property, then the fairness literals.
pub fn wanted(alloc: Global, parts: &Parts, j: u32) -> Result<Vec<Lit>, Refused>
    requires { j < length parts.now.justice }
    ensures { IfOk result (λ v. v.items ≡ wanted_of parts.now j) }
{
    let mut wanted = Vec::new(alloc);
    let lits = &parts.justice.as_slice()[j as usize];
    extend(&mut wanted, lits.as_slice())?;
    extend(&mut wanted, parts.fairness.as_slice())?;
    Ok(wanted)
}

/// Whether some time of the replay has this state, and from there on each wanted literal is set.
/// The first time of this state is the best: what is set from a later one is set from it.
pub fn has_lasso(
    alloc: Global,
    circuit: &Model,
    wanted: &[Lit],
    closing: &[bool],
    initial: &[bool],
    lines: &[Seq<bool>],
) -> Result<bool, JudgeError>
    requires latches { length initial.now ≡ length circuit.now.latches }
    requires lines_fit { All (λ line. length line ≡ length circuit.now.inputs) lines.now }
    requires in_range { All (λ a. variable a ≤ circuit.now.max_var) wanted.now }
    ensures found { IfOk result (λ found. (x : List Valuation) → Course circuit.now initial.now lines.now x → (IsTrue found ↔ ((start : ℕ) × ClosesLasso circuit.now wanted.now closing.now x start))) }
    ensures refused { IfErr result (HasRunCause circuit.now initial.now lines.now) }
{
    let mut replay = Replay::new(alloc, circuit, initial)?;
    let Some(start) = meet(&mut replay, closing, lines) else {
        return Ok(false);
    };
    let mut marks = filled_like(alloc, false, wanted)?;
    gather(&mut replay, wanted, &mut marks, &lines[start..]);
    Ok(are_all_set(&marks))
}
