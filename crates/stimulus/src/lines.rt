//! Whether lines fit a circuit.

ghost use Rattle.std.specs.Prelude.{◌≡◌, ◌≢◌, All, length, IfErr, OnOk, MatchOption};
ghost use Rattle.base.specs.Witness.{witness};
ghost use Rattle.stimulus.specs.Causes.{HasCauseIn, HasFitLines, IsFirstWrong, IsFit, IsWrongLine};

use crate::judge_error::JudgeError;
use base::Seq;
use graph::{Parts, Property};

/// The position of the first line of another length.
fn first_wrong(lines: &[Seq<bool>], long: usize) -> Option<usize>
    ensures { MatchOption result (All (λ line. length line ≡ long) lines.now) (IsFirstWrong lines.now long) }
{
    for (t, line) in lines.iter().enumerate() {
        if line.len() != long {
            return Some(t);
        }
    }
    None
}

/// The number of the first line of another length: 0 for the latch line, then from 1 on the input
/// lines.
pub fn wrong_line(parts: &Parts, initial: &[bool], inputs: &[Seq<bool>]) -> Option<u64>
    ensures { MatchOption result (HasFitLines parts.now initial.now inputs.now) (IsWrongLine parts.now initial.now inputs.now) }
{
    if initial.len() != parts.latches.len() {
        return Some(0);
    }
    match first_wrong(inputs, parts.inputs.len()) {
        Some(t) => Some(t as u64 + 1),
        None => None,
    }
}

/// Whether the property is there, the lines have their lengths, and there is an input line.
pub fn check_fit(
    parts: &Parts,
    property: Property,
    initial: &[bool],
    inputs: &[Seq<bool>],
) -> Result<(), JudgeError>
    ensures fit { OnOk result (IsFit parts.now property initial.now inputs.now) }
    ensures refused { IfErr result (HasCauseIn parts.now property initial.now inputs.now) }
    ensures no_memory { IfErr result (λ e. e ≢ JudgeError.OutOfMemory witness) }
{
    if !parts.has_property(property) {
        let (Property::Bad(n) | Property::Justice(n) | Property::Output(n)) = property;
        return Err(JudgeError::NoProperty(n));
    }
    if let Some(line) = wrong_line(parts, initial, inputs) {
        return Err(JudgeError::LineLength { line });
    }
    if inputs.is_empty() {
        return Err(JudgeError::NoInputLine);
    }
    Ok(())
}
