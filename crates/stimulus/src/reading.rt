//! Reading the texts of stimuli.

ghost use Rattle.std.specs.Prelude.{◌≡◌, IfOk};
ghost use Rattle.scan.specs.Reading.{Gives, ended};
ghost use Rattle.stimulus.specs.Reading.{concluded_at, heading_at, property_at, stimulus_at, violated_at};
ghost use Rattle.stimulus.specs.Refusals.{IsRead, error_of, fault_at};
ghost use Rattle.stimulus.specs.Texts.{SpellsStimulus};
ghost use Rattle.stimulus.specs.declared.value.Stimulus.{Stimulus as AStimulus};

use crate::stim_error::StimError;
use crate::value::Stimulus;
use base::Seq;
use graph::Property;
use scan::{Fault, ItemKind, Kinds, byte, field, items, place, tag};
use std::alloc::Global;

/// What is wrong in a text, before its place is known as a byte of the whole.
#[derive(Clone, Copy)]
pub enum StimFault {
    /// The first line is not 0, 1 or 2.
    Status,
    /// The second line is not a property.
    PropertyLine,
    /// Another byte than the line needs.
    Character,
    /// A byte that is needed is missing.
    Truncated,
    /// A byte behind the last line.
    AfterEnd,
}

/// The faults behind the status.
pub const IN_STATUS: Kinds<StimFault> = Kinds {
    truncated: StimFault::Truncated,
    number: StimFault::Status,
    over: StimFault::Status,
    byte: StimFault::Status,
};

/// The faults of a property's number and its line end.
pub const IN_PROPERTY: Kinds<StimFault> = Kinds {
    truncated: StimFault::Truncated,
    number: StimFault::PropertyLine,
    over: StimFault::PropertyLine,
    byte: StimFault::PropertyLine,
};

/// The faults of the lines behind the property.
pub const IN_LINES: Kinds<StimFault> = Kinds {
    truncated: StimFault::Truncated,
    number: StimFault::Character,
    over: StimFault::Character,
    byte: StimFault::Character,
};

/// The fault of a text that begins otherwise than it is to: at its first byte, or that it ends.
pub fn begins_otherwise(text: &[u8], kind: StimFault) -> Fault<StimFault>
    ensures { result ≡ fault_at text.now kind }
{
    if text.is_empty() {
        return Fault::Text {
            kind: StimFault::Truncated,
            left: 0,
        };
    }
    Fault::Text {
        kind,
        left: text.len(),
    }
}

/// The property of a line, and what follows that.
#[tactic(auto, unfolding(crate::specs::Reading::property_at, crate::specs::Reading::bad_at, crate::specs::Reading::justice_at, crate::specs::Reading::output_at))]
pub fn property(text: &[u8]) -> Result<(Property, &[u8]), Fault<StimFault>>
    ensures { Gives (λ x. (x.0, x.1.now)) result (property_at text.now) }
{
    match text {
        [b'b', position @ ..] => {
            let (n, rest) = field(position, u32::MAX, b'\n', IN_PROPERTY)?;
            Ok((Property::Bad(n), rest))
        }
        [b'j', position @ ..] => {
            let (n, rest) = field(position, u32::MAX, b'\n', IN_PROPERTY)?;
            Ok((Property::Justice(n), rest))
        }
        [b'o', position @ ..] => {
            let (n, rest) = field(position, u32::MAX, b'\n', IN_PROPERTY)?;
            Ok((Property::Output(n), rest))
        }
        _ => Err(begins_otherwise(text, StimFault::PropertyLine)),
    }
}

/// What follows the status up to the end of the property's line, and what follows that.
#[tactic(auto, unfolding(crate::specs::Reading::heading_at))]
fn heading(text: &[u8]) -> Result<(Property, &[u8]), Fault<StimFault>>
    ensures { Gives (λ x. (x.0, x.1.now)) result (heading_at text.now) }
{
    let rest = byte(text, b'\n', IN_STATUS)?;
    property(rest)
}

/// What follows the status of a stimulus without a run.
#[tactic(auto, unfolding(crate::specs::Reading::concluded_at))]
fn concluded(text: &[u8]) -> Result<(Property, &[u8]), Fault<StimFault>>
    ensures { Gives (λ x. (x.0, x.1.now)) result (concluded_at text.now) }
{
    let (property, rest) = heading(text)?;
    let rest = tag(rest, b".\n", IN_LINES)?;
    Ok((property, rest))
}

/// The values of a line, up to its line end.
pub struct Values;

impl ItemKind for Values {
    ghost use Rattle.stimulus.specs.Reading.{value_at};

    type Item = bool;

    type Context = ();

    type Fault = StimFault;

    ghost allows = { λ _. Unit {0} };

    ghost at = { λ _ bytes. value_at bytes };

    #[tactic(auto, unfolding(crate::specs::Reading::value_at))]
    fn item(
        _alloc: Global,
        text: &[u8],
        _context: (),
    ) -> Result<(Option<bool>, &[u8]), Fault<StimFault>> {
        match text {
            [b'0', rest @ ..] => Ok((Some(false), rest)),
            [b'1', rest @ ..] => Ok((Some(true), rest)),
            [b'\n', rest @ ..] => Ok((None, rest)),
            _ => Err(begins_otherwise(text, StimFault::Character)),
        }
    }
}

/// The input lines, up to the line of a dot.
struct InputLines;

impl ItemKind for InputLines {
    ghost use Rattle.stimulus.specs.Reading.{line_at};

    type Item = Seq<bool>;

    type Context = ();

    type Fault = StimFault;

    ghost allows = { λ _. Unit {0} };

    ghost at = { λ _ bytes. line_at bytes };

    #[tactic(auto, unfolding(crate::specs::Reading::line_at))]
    fn item(
        alloc: Global,
        text: &[u8],
        _context: (),
    ) -> Result<(Option<Seq<bool>>, &[u8]), Fault<StimFault>> {
        match text {
            [b'.', rest @ ..] => {
                let rest = byte(rest, b'\n', IN_LINES)?;
                Ok((None, rest))
            }
            _ => {
                let (values, rest) = items::<Values>(alloc, text, ())?;
                Ok((Some(Seq::from_vec(values)), rest))
            }
        }
    }
}

/// What follows the status of a stimulus with a run.
#[tactic(auto, unfolding(crate::specs::Reading::violated_at))]
fn violated(alloc: Global, text: &[u8]) -> Result<(Stimulus, &[u8]), Fault<StimFault>>
    ensures { Gives (λ x. (x.0, x.1.now)) result (violated_at text.now) }
{
    let (property, rest) = heading(text)?;
    let (initial, rest) = items::<Values>(alloc, rest, ())?;
    let (inputs, rest) = items::<InputLines>(alloc, rest, ())?;
    let violated = Stimulus::Violated {
        property,
        initial: Seq::from_vec(initial),
        inputs: Seq::from_vec(inputs),
    };
    Ok((violated, rest))
}

/// The stimulus that a text begins with, and what follows it.
#[tactic(auto, unfolding(crate::specs::Reading::stimulus_at, crate::specs::Reading::holds_at, crate::specs::Reading::unknown_at))]
fn stimulus(alloc: Global, text: &[u8]) -> Result<(Stimulus, &[u8]), Fault<StimFault>>
    ensures { Gives (λ x. (x.0, x.1.now)) result (stimulus_at text.now) }
{
    match text {
        [b'0', rest @ ..] => {
            let (property, rest) = concluded(rest)?;
            Ok((Stimulus::Holds(property), rest))
        }
        [b'1', rest @ ..] => violated(alloc, rest),
        [b'2', rest @ ..] => {
            let (property, rest) = concluded(rest)?;
            Ok((Stimulus::Unknown(property), rest))
        }
        _ => Err(begins_otherwise(text, StimFault::Status)),
    }
}

/// The stimulus that the whole text is.
fn only_stimulus(alloc: Global, text: &[u8]) -> Result<Stimulus, Fault<StimFault>>
    ensures { Gives (λ x. x) result (ended (stimulus_at text.now)) }
{
    let (stimulus, rest) = stimulus(alloc, text)?;
    if !rest.is_empty() {
        return Err(Fault::Text {
            kind: StimFault::AfterEnd,
            left: rest.len(),
        });
    }
    Ok(stimulus)
}

/// The error for a fault in a text of `length` bytes.
pub fn text_error(length: usize, fault: Fault<StimFault>) -> StimError
    ensures { result ≡ error_of length fault }
{
    match fault {
        Fault::Memory(refused) => StimError::OutOfMemory(refused),
        Fault::Text { kind, left } => {
            let place = place(length, left);
            match kind {
                StimFault::Status => StimError::Status { place },
                StimFault::PropertyLine => StimError::PropertyLine { place },
                StimFault::Character => StimError::Character { place },
                StimFault::Truncated => StimError::Truncated { place },
                StimFault::AfterEnd => StimError::AfterEnd { place },
            }
        }
    }
}

/// Reads the stimulus that the whole text is (the layout of the hardware model checking
/// competition, with one property a file, the values `0` and `1` alone, and no comments): a line
/// `0`, `1` or `2`, a line for the property, for `1` a line of the latches' values and a line of
/// the inputs' values for each time, and a line `.`. How long the lines are is left to `judge`. One
/// pass over the text.
pub fn read(alloc: Global, text: &[u8]) -> Result<Stimulus, StimError>
    // What is read is spelled so.
    ensures found { IfOk result (λ s. SpellsStimulus text.now s) }
    // What is spelled so is read, unless memory runs out.
    ensures only { (s : AStimulus) → SpellsStimulus text.now s → IsRead result s }
{
    match only_stimulus(alloc, text) {
        Ok(stimulus) => Ok(stimulus),
        Err(fault) => Err(text_error(text.len(), fault)),
    }
}
