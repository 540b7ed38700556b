//! Input lines, replayed while they are read.

ghost use Rattle.std.specs.Prelude.{◌≡◌, ◌-◌, ◌^◌, ◌<◌, ◌≤◌, ◌↔◌, Bool, List, ◌++◌, All, length, true, IsTrue, IsSome, Some};
ghost use Rattle.base.specs.Devices.{Reads, FailsOnce};
ghost use Rattle.graph.specs.Circuits.{IsWatched, Valuation, value_of, variable};
ghost use Rattle.graph.specs.declared.circuit.Property.{Property as AProperty};
ghost use Rattle.graph.specs.declared.parts.Parts.{Parts as AParts};
ghost use Rattle.scan.specs.Lists.{items_at};
ghost use Rattle.simulate.specs.Replays.{begun};
ghost use Rattle.simulate.specs.Starts.{Starts};
ghost use Rattle.stimulus.specs.Reading.{line_at};
ghost use Rattle.replay.specs.Found.{AreFound, ArePlayed};
ghost use Rattle.replay.specs.Streams.{FindsWith};
ghost use Rattle.replay.specs.declared.text_error.TextError.TheVariants.{Device};

use crate::lines::{Lengths, refuse_lines, skip_lines};
use crate::numbers::{BAD_NOT_SET, CONSTRAINT_BROKEN, LINE_LENGTH, NO_INPUT_LINE};
use crate::reader::LineReader;
use crate::text_error::TextError;
use base::Source;
use graph::Lit;
use simulate::Replay;
use std::alloc::Global;

/// What is looked at while lines are played.
#[derive(Clone, Copy)]
pub struct Watched<'a> {
    /// the constraints
    pub constraints: &'a [Lit],
    /// how many inputs there are
    pub long: usize,
    /// the literal that has to be set at the last time
    pub bad: Lit,
}

/// Whether every constraint is true at the time stepped last.
fn keeps(replay: &Replay<'_>, constraints: &[Lit]) -> bool
    requires stepped { IsSome replay.now.now }
    requires in_range { All (λ a. variable a ≤ replay.now.circuit.max_var) constraints.now }
    ensures { (w : Valuation) → replay.now.now ≡ Some w → (IsTrue result ↔ All (λ a. value_of w a ≡ true) constraints.now) }
{
    for lit in constraints {
        if !replay.value(*lit) {
            return false;
        }
    }
    true
}

/// What is found where all lines were played, and whether there is one.
fn found_at_end(replay: &Replay<'_>, bad: Lit, some: bool) -> Option<u8>
    requires stepped { IsTrue some → IsSome replay.now.now }
    requires in_range { variable bad ≤ replay.now.circuit.max_var }
    ensures { (m : AParts) (p : AProperty) (initial : List Bool) (lines : List (List Bool)) → IsWatched m p bad → Starts m.latches initial → length initial ≡ length m.latches → ArePlayed m initial some replay.now lines → AreFound m p initial lines result }
{
    if !some {
        return Some(NO_INPUT_LINE);
    }
    if replay.value(bad) {
        None
    } else {
        Some(BAD_NOT_SET)
    }
}

/// Reads the input lines, and plays each as it is read: whether the literal is set at the last time,
/// or else the number of the first cause. After it the rest is only read, and behind a constraint
/// that is broken the lines' lengths are looked at.
pub fn play_lines<S: Source>(
    alloc: Global,
    replay: &mut Replay<'_>,
    watched: Watched,
    line: &mut Vec<bool>,
    reader: &mut LineReader,
    from: &mut S,
) -> Result<Option<u8>, TextError>
    requires source { S.failed from.old < 2 ^ 64 - 1 }
    requires constraints { watched.constraints.now ≡ replay.old.circuit.constraints }
    requires long { watched.long ≡ length replay.old.circuit.inputs }
    requires in_range { All (λ a. variable a ≤ replay.old.circuit.max_var) watched.constraints.now }
    requires bad { variable watched.bad ≤ replay.old.circuit.max_var }
    ensures says { Reads (S.leaves from.old) (S.leaves from.new) (λ ys zs. (p : AProperty) (initial : List Bool) → IsWatched replay.old.circuit p watched.entry.bad → replay.old ≡ begun replay.old.circuit initial → Starts replay.old.circuit.latches initial → length initial ≡ length replay.old.circuit.latches → FindsWith (AreFound replay.old.circuit p initial) (items_at line_at (reader.old ++ ys)) result reader.new zs) }
    ensures device { FailsOnce result Device (S.failed from.old) (S.failed from.new) }
{
    let mut some = false;
    'playing: loop {
        let there = reader.line_into(alloc, line, from)?;
        if !there {
            return Ok(found_at_end(replay, watched.bad, some));
        }
        if line.len() != watched.long {
            return skip_lines(alloc, LINE_LENGTH, line, reader, from);
        }
        replay.step(line.as_slice());
        if !keeps(replay, watched.constraints) {
            return refuse_lines(
                alloc,
                CONSTRAINT_BROKEN,
                watched.long,
                Lengths::Fit,
                line,
                reader,
                from,
            );
        }
        some = true;
    }
}
