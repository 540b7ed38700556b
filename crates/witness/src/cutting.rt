//! Where a violation is: what follows it is cut off.

ghost use Rattle.std.specs.Prelude.{◌≡◌, ◌≢◌, ◌≤◌, ℕ, All, length, take, IfErr, IfOk, MatchOption};
ghost use Rattle.base.specs.Witness.{witness};
ghost use Rattle.graph.specs.declared.circuit.Property.{Property as AProperty};
ghost use Rattle.graph.specs.Circuits.{HasProperty, IsWatched, variable};
ghost use Rattle.stimulus.specs.Causes.{HasFitLines};
ghost use Rattle.witness.specs.Cutting.{EndsFirst, IsNoStart, NeverEnds, NeverShows, SetsLast, ShowsFirst};

use crate::lasso::first_lasso;
use base::Seq;
use graph::{Lit, Model, Property};
use simulate::Replay;
use std::alloc::Global;
use stimulus::JudgeError;

/// How many times pass up to the first at which the replay sets the literal, that one with it.
fn times_to_set(replay: &mut Replay<'_>, lit: Lit, lines: &[Seq<bool>]) -> Option<usize>
    requires lengths { All (λ line. length line ≡ length replay.old.circuit.inputs) lines.now }
    requires in_range { variable lit ≤ replay.old.circuit.max_var }
    ensures { MatchOption result (NeverEnds (SetsLast lit) replay.old.circuit replay.old.state lines.now) (EndsFirst (SetsLast lit) replay.old.circuit replay.old.state lines.now) }
{
    for (t, line) in lines.iter().enumerate() {
        replay.step(line.as_slice());
        if replay.value(lit) {
            return Some(t + 1);
        }
    }
    None
}

/// How many times pass up to the first at which a run of these lines sets the literal. What is said holds of each property that
/// watches the literal.
fn times_to_bad(
    alloc: Global,
    circuit: &Model,
    lit: Lit,
    initial: &[bool],
    lines: &[Seq<bool>],
) -> Result<Option<usize>, JudgeError>
    requires in_range { variable lit ≤ circuit.now.max_var }
    requires fit { HasFitLines circuit.now initial.now lines.now }
    ensures first { (p : AProperty) → IsWatched circuit.now p lit → IfOk result (λ times. MatchOption times (NeverShows circuit.now p initial.now lines.now) (ShowsFirst circuit.now p initial.now lines.now)) }
    ensures refused { IfErr result (IsNoStart circuit.now initial.now) }
{
    let mut replay = Replay::new(alloc, circuit, initial)?;
    Ok(times_to_set(&mut replay, lit, lines))
}

/// How many times pass up to the first violation of the property in the run of these lines. The property is there, and the lines
/// have their lengths.
fn times_in_run(
    alloc: Global,
    circuit: &Model,
    property: Property,
    initial: &[bool],
    lines: &[Seq<bool>],
) -> Result<Option<usize>, JudgeError>
    requires there { HasProperty circuit.now property }
    requires fit { HasFitLines circuit.now initial.now lines.now }
    ensures first { IfOk result (λ times. MatchOption times (NeverShows circuit.now property initial.now lines.now) (ShowsFirst circuit.now property initial.now lines.now)) }
    ensures refused { IfErr result (IsNoStart circuit.now initial.now) }
{
    circuit.well_formed();
    match property {
        Property::Bad(n) => times_to_bad(alloc, circuit, circuit.bad()[n as usize], initial, lines),
        Property::Justice(j) => first_lasso(alloc, circuit, j, initial, lines),
        Property::Output(n) => times_to_bad(
            alloc,
            circuit,
            circuit.outputs()[n as usize],
            initial,
            lines,
        ),
    }
}

/// The lines before the first of another length.
fn fit_lines(lines: &[Seq<bool>], long: usize) -> &[Seq<bool>]
    ensures fit { All (λ line. length line ≡ long) result.now }
    ensures most { (k : ℕ) → All (λ line. length line ≡ long) (take k lines.now) → take k lines.now ≡ take k result.now }
{
    for (t, line) in lines.iter().enumerate() {
        if line.len() != long {
            return &lines[..t];
        }
    }
    lines
}

/// How many times pass up to the first violation of the property in the run of these lines, where there is one.
pub fn times_to_violation(
    alloc: Global,
    circuit: &Model,
    property: Property,
    initial: &[bool],
    lines: &[Seq<bool>],
) -> Result<Option<usize>, JudgeError>
    ensures first { IfOk result (λ times. MatchOption times (NeverShows circuit.now property initial.now lines.now) (ShowsFirst circuit.now property initial.now lines.now)) }
    ensures refused { IfErr result (λ e. e ≢ JudgeError.OutOfMemory witness → NeverShows circuit.now property initial.now lines.now) }
{
    let parts = circuit.parts();
    if !parts.has_property(property) || initial.len() != parts.latches.len() {
        return Ok(None);
    }
    let fit = fit_lines(lines, parts.inputs.len());
    times_in_run(alloc, circuit, property, initial, fit)
}
