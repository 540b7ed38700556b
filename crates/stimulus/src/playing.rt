//! Replaying all lines.

ghost use Rattle.std.specs.Prelude.{◌≡◌, ◌≢◌, ◌≤◌, [], ◌↔◌, true, IsTrue, IsSome, Some, All, length, IfOk, IfErr, MatchOption};
ghost use Rattle.graph.specs.Circuits.{Valuation, value_of, variable};
ghost use Rattle.stimulus.specs.Courses.{HasRun, HasRunCause, PlaysAll, PlaysUpTo};

use crate::judge_error::JudgeError;
use base::Seq;
use graph::{Lit, Model};
use simulate::Replay;
use std::alloc::Global;

/// Whether every constraint is true at the time stepped last.
fn keeps(replay: &Replay<'_>, constraints: &[Lit]) -> bool
    requires stepped { IsSome replay.now.now }
    requires in_range { All (λ a. variable a ≤ replay.now.circuit.max_var) constraints.now }
    ensures { (w : Valuation) → replay.now.now ≡ Some w → (IsTrue result ↔ All (λ a. value_of w a ≡ true) constraints.now) }
{
    for lit in constraints {
        if !replay.value(*lit) {
            return false;
        }
    }
    true
}

/// Steps through the lines up to the first time at which a constraint is false, and answers it.
fn play(replay: &mut Replay<'_>, constraints: &[Lit], lines: &[Seq<bool>]) -> Option<usize>
    requires lengths { All (λ line. length line ≡ length replay.old.circuit.inputs) lines.now }
    requires constraints { constraints.now ≡ replay.old.circuit.constraints }
    requires in_range { All (λ a. variable a ≤ replay.old.circuit.max_var) replay.old.circuit.constraints }
    ensures { MatchOption result (PlaysAll replay.old.circuit replay.old replay.new lines.now) (PlaysUpTo replay.old.circuit replay.old replay.new lines.now) }
{
    for (t, line) in lines.iter().enumerate() {
        replay.step(line.as_slice());
        if !keeps(replay, constraints) {
            return Some(t);
        }
    }
    None
}

/// The replay of all lines, where it is a run that keeps the constraints.
pub fn run<'a>(
    alloc: Global,
    circuit: &'a Model,
    initial: &[bool],
    inputs: &[Seq<bool>],
) -> Result<Replay<'a>, JudgeError>
    requires latches { length initial.now ≡ length circuit.now.latches }
    requires inputs_fit { All (λ line. length line ≡ length circuit.now.inputs) inputs.now }
    requires some { inputs.now ≢ [] }
    ensures runs { IfOk result (HasRun circuit.now initial.now inputs.now) }
    ensures refused { IfErr result (HasRunCause circuit.now initial.now inputs.now) }
{
    let parts = circuit.parts();
    let mut replay = Replay::new(alloc, circuit, initial)?;
    match play(&mut replay, parts.constraints.as_slice(), inputs) {
        None => Ok(replay),
        Some(time) => Err(JudgeError::ConstraintBroken { time: time as u64 }),
    }
}
