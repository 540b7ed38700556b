//! A stimulus, judged while it is read.

ghost use Rattle.std.specs.Prelude.{◌≡◌, ◌-◌, ◌^◌, ◌<◌, ◌≤◌, ◌++◌, IfOk, MatchResult};
ghost use Rattle.base.specs.Devices.{IsAtEnd, Reads, FailsOnce};
ghost use Rattle.graph.specs.Circuits.{IsWatched, variable};
ghost use Rattle.graph.specs.declared.circuit.Property.{Property as AProperty};
ghost use Rattle.graph.specs.declared.circuit.Property.TheVariants.{Justice};
ghost use Rattle.graph.specs.declared.parts.Parts.{Parts as AParts};
ghost use Rattle.scan.specs.Lists.{items_at};
ghost use Rattle.stimulus.specs.Reading.{line_at, stimulus_at};
ghost use Rattle.stimulus.specs.Texts.{SpellsStimulus, property_of};
ghost use Rattle.stimulus.specs.declared.value.Stimulus.{Stimulus as AStimulus};
ghost use Rattle.replay.specs.Found.{AreFound, IsFound, IsOutcome};
ghost use Rattle.replay.specs.Reading.{IsConclusion, body_at, run_at};
ghost use Rattle.replay.specs.Streams.{FindsWith, ForText};
ghost use Rattle.replay.specs.declared.kinds.Status.{Status as AStatus};
ghost use Rattle.replay.specs.declared.text_error.TextError.TheVariants.{Device};

use crate::kinds::Status;
use crate::lines::{Lengths, read_lines, refuse_lines, skip_lines};
use crate::numbers::{INITIAL_RESET, LINE_LENGTH, NO_PROPERTY, NOT_VIOLATED};
use crate::playing::{Watched, play_lines};
use crate::reader::LineReader;
use crate::text_error::TextError;
use base::{Refused, Seq, Source};
use graph::{Lit, Model, Property};
use simulate::{Replay, ReplayError};
use std::alloc::Global;
use stimulus::{JudgeError, Stimulus, judge};

/// Reads the input lines, and judges whether they set this literal at their last time.
fn judge_bad<S: Source>(
    alloc: Global,
    circuit: &Model,
    bad: Lit,
    initial: &[bool],
    line: &mut Vec<bool>,
    reader: &mut LineReader,
    from: &mut S,
) -> Result<Option<u8>, TextError>
    requires source { S.failed from.old < 2 ^ 64 - 1 }
    requires in_range { variable bad ≤ circuit.now.max_var }
    ensures says { Reads (S.leaves from.old) (S.leaves from.new) (λ ys zs. (p : AProperty) → IsWatched circuit.now p bad → FindsWith (AreFound circuit.now p initial.now) (items_at line_at (reader.old ++ ys)) result reader.new zs) }
    ensures device { FailsOnce result Device (S.failed from.old) (S.failed from.new) }
{
    let parts = circuit.parts();
    if initial.len() != parts.latches.len() {
        return skip_lines(alloc, LINE_LENGTH, line, reader, from);
    }
    let long = parts.inputs.len();
    match Replay::new(alloc, circuit, initial) {
        Ok(mut replay) => {
            let constraints = parts.constraints.as_slice();
            let watched = Watched {
                constraints,
                long,
                bad,
            };
            play_lines(alloc, &mut replay, watched, line, reader, from)
        }
        Err(ReplayError::InitialReset { latch: _ }) => {
            refuse_lines(
                alloc,
                INITIAL_RESET,
                long,
                Lengths::Missing,
                line,
                reader,
                from,
            )
        }
        Err(ReplayError::OutOfMemory(refused)) => Err(TextError::from(refused)),
    }
}

/// What `judge` says of a stimulus.
fn told(alloc: Global, circuit: &Model, stimulus: &Stimulus) -> Result<Option<u8>, Refused>
    ensures { IfOk result (IsFound circuit.now stimulus.now) }
{
    match judge(alloc, circuit, stimulus) {
        Ok(()) => Ok(None),
        Err(JudgeError::OutOfMemory(refused)) => Err(refused),
        Err(error) => Ok(Some(error.number())),
    }
}

/// Reads the input lines, and judges whether they close a lasso. It holds them.
fn judge_justice<S: Source>(
    alloc: Global,
    circuit: &Model,
    j: u32,
    initial: Seq<bool>,
    line: &mut Vec<bool>,
    reader: &mut LineReader,
    from: &mut S,
) -> Result<Option<u8>, TextError>
    requires source { S.failed from.old < 2 ^ 64 - 1 }
    ensures says { Reads (S.leaves from.old) (S.leaves from.new) (λ ys zs. FindsWith (AreFound circuit.now (Justice j) initial) (items_at line_at (reader.old ++ ys)) result reader.new zs) }
    ensures device { FailsOnce result Device (S.failed from.old) (S.failed from.new) }
{
    let inputs = read_lines(alloc, line, reader, from)?;
    let violated = Stimulus::Violated {
        property: Property::Justice(j),
        initial,
        inputs,
    };
    Ok(told(alloc, circuit, &violated)?)
}

/// Reads the input lines, and judges whether they show that the property is violated.
fn judge_lines<S: Source>(
    alloc: Global,
    circuit: &Model,
    property: Property,
    initial: Seq<bool>,
    line: &mut Vec<bool>,
    reader: &mut LineReader,
    from: &mut S,
) -> Result<Option<u8>, TextError>
    requires source { S.failed from.old < 2 ^ 64 - 1 }
    ensures says { Reads (S.leaves from.old) (S.leaves from.new) (λ ys zs. FindsWith (AreFound circuit.now property initial) (items_at line_at (reader.old ++ ys)) result reader.new zs) }
    ensures device { FailsOnce result Device (S.failed from.old) (S.failed from.new) }
{
    circuit.well_formed();
    if !circuit.parts().has_property(property) {
        return skip_lines(alloc, NO_PROPERTY, line, reader, from);
    }
    match property {
        Property::Bad(n) => {
            let bad = circuit.bad()[n as usize];
            judge_bad(alloc, circuit, bad, initial.as_slice(), line, reader, from)
        }
        Property::Justice(n) => judge_justice(alloc, circuit, n, initial, line, reader, from),
        Property::Output(n) => {
            let output = circuit.outputs()[n as usize];
            judge_bad(
                alloc,
                circuit,
                output,
                initial.as_slice(),
                line,
                reader,
                from,
            )
        }
    }
}

/// Reads the lines of a run, and judges whether they show that the property is violated.
fn judge_run<S: Source>(
    alloc: Global,
    circuit: &Model,
    property: Property,
    reader: &mut LineReader,
    from: &mut S,
) -> Result<Option<u8>, TextError>
    requires source { S.failed from.old < 2 ^ 64 - 1 }
    ensures says { Reads (S.leaves from.old) (S.leaves from.new) (λ ys zs. FindsWith (IsFound circuit.now) (run_at property (reader.old ++ ys)) result reader.new zs) }
    ensures device { FailsOnce result Device (S.failed from.old) (S.failed from.new) }
{
    let mut initial = Vec::new(alloc);
    reader.values_into(alloc, &mut initial, from)?;
    let mut line = Vec::new(alloc);
    judge_lines(
        alloc,
        circuit,
        property,
        Seq::from_vec(initial),
        &mut line,
        reader,
        from,
    )
}

/// Reads what follows the property's line of a stimulus without a run.
fn refuse_concluded<S: Source>(
    alloc: Global,
    reader: &mut LineReader,
    from: &mut S,
) -> Result<Option<u8>, TextError>
    requires source { S.failed from.old < 2 ^ 64 - 1 }
    ensures says { Reads (S.leaves from.old) (S.leaves from.new) (λ ys zs. (m : AParts) (s : AStatus) (p : AProperty) → IsConclusion s → FindsWith (IsFound m) (body_at s p (reader.old ++ ys)) result reader.new zs) }
    ensures device { FailsOnce result Device (S.failed from.old) (S.failed from.new) }
{
    reader.dot(alloc, from)?;
    Ok(Some(NOT_VIOLATED))
}

/// Reads what follows the property's line, and judges it.
fn judge_body<S: Source>(
    alloc: Global,
    circuit: &Model,
    status: Status,
    property: Property,
    reader: &mut LineReader,
    from: &mut S,
) -> Result<Option<u8>, TextError>
    requires source { S.failed from.old < 2 ^ 64 - 1 }
    ensures says { Reads (S.leaves from.old) (S.leaves from.new) (λ ys zs. FindsWith (IsFound circuit.now) (body_at status property (reader.old ++ ys)) result reader.new zs) }
    ensures device { FailsOnce result Device (S.failed from.old) (S.failed from.new) }
{
    match status {
        Status::Violated => judge_run(alloc, circuit, property, reader, from),
        Status::Holds => refuse_concluded(alloc, reader, from),
        Status::Unknown => refuse_concluded(alloc, reader, from),
    }
}

/// What was read and found.
#[derive(Clone, Copy)]
pub struct Outcome {
    /// the property that the stimulus names
    pub property: Property,
    /// the number of the first cause, where the stimulus does not show the violation
    pub refusal: Option<u8>,
}

/// Reads a stimulus, and judges it while it is read.
fn judge_text<S: Source>(
    alloc: Global,
    circuit: &Model,
    reader: &mut LineReader,
    from: &mut S,
) -> Result<Outcome, TextError>
    requires source { S.failed from.old < 2 ^ 64 - 1 }
    ensures says { Reads (S.leaves from.old) (S.leaves from.new) (λ ys zs. FindsWith (IsOutcome circuit.now) (stimulus_at (reader.old ++ ys)) result reader.new zs) }
    ensures device { FailsOnce result Device (S.failed from.old) (S.failed from.new) }
{
    let status = reader.status(alloc, from)?;
    let property = reader.property(alloc, from)?;
    let refusal = judge_body(alloc, circuit, status, property, reader, from)?;
    Ok(Outcome { property, refusal })
}

/// Reads the stimulus that the source's bytes spell, and judges it while it is read. For a bad literal
/// or an output it holds the line of the latches, a state, a valuation and one input line, however
/// long the text is; for a justice property it holds the lines. A fault of the text, anywhere in it, goes
/// before every fault of the replay. After a fault of the text nothing more is taken.
pub fn judge_source<S: Source>(
    alloc: Global,
    circuit: &Model,
    from: &mut S,
) -> Result<Outcome, TextError>
    requires source { S.failed from.old < 2 ^ 64 - 1 }
    ensures says { Reads (S.leaves from.old) (S.leaves from.new) (λ ys zs. MatchResult result (λ found. (s : AStimulus) × SpellsStimulus ys s × (found.property ≡ property_of s) × IsFound circuit.now s found.refusal) (λ e. ForText e ((s : AStimulus) → SpellsStimulus ys s → ⊥))) }
    ensures ended { IfOk result (λ _. IsAtEnd (S.leaves from.new)) }
    ensures device { FailsOnce result Device (S.failed from.old) (S.failed from.new) }
{
    let mut reader = LineReader::new(alloc)?;
    let outcome = judge_text(alloc, circuit, &mut reader, from)?;
    reader.end(from)?;
    Ok(outcome)
}
