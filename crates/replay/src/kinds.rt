//! The kinds of lines in the text of a stimulus.

ghost use Rattle.std.specs.Prelude.{Bool, List, Option};
ghost use Rattle.scan.specs.Lists.{items_at};
ghost use Rattle.scan.specs.Reading.{Gives};
ghost use Rattle.stimulus.specs.Reading.{line_at, property_at, value_at};
ghost use Rattle.replay.specs.Reading.{digit_at, dot_at, line_where, status_at};

use graph::Property;
use pieces::BufferKind;
use scan::{Fault, LineKind, byte, items_into, tag};
use std::alloc::Global;
use stimulus::{IN_LINES, IN_STATUS, StimFault, Values, begins_otherwise, property};

/// What the first line of a stimulus says.
#[derive(Clone, Copy)]
pub enum Status {
    /// The property holds.
    Holds,
    /// A run violates the property.
    Violated,
    /// Nothing is known of the property.
    Unknown,
}

/// The status that a text begins with, and what follows it.
#[tactic(auto, unfolding(crate::specs::Reading::digit_at))]
fn digit(text: &[u8]) -> Result<(Status, &[u8]), Fault<StimFault>>
    ensures { Gives (λ x. (x.0, x.1.now)) result (digit_at text.now) }
{
    match text {
        [b'0', rest @ ..] => Ok((Status::Holds, rest)),
        [b'1', rest @ ..] => Ok((Status::Violated, rest)),
        [b'2', rest @ ..] => Ok((Status::Unknown, rest)),
        _ => Err(begins_otherwise(text, StimFault::Status)),
    }
}

/// The first line.
pub struct StatusLine;

impl LineKind for StatusLine {
    type Item = Status;

    type Context = ();

    type Fault = StimFault;

    ghost allows = { λ _. Unit {0} };

    ghost at = { λ _ bytes. status_at bytes };

    #[tactic(auto, unfolding(crate::specs::Reading::status_at))]
    fn line(
        _alloc: Global,
        text: &[u8],
        _context: (),
    ) -> Result<(Status, &[u8]), Fault<StimFault>> {
        let (status, rest) = digit(text)?;
        let rest = byte(rest, b'\n', IN_STATUS)?;
        Ok((status, rest))
    }
}

/// The line of the property.
pub struct PropertyLine;

impl LineKind for PropertyLine {
    type Item = Property;

    type Context = ();

    type Fault = StimFault;

    ghost allows = { λ _. Unit {0} };

    ghost at = { λ _ bytes. property_at bytes };

    fn line(
        _alloc: Global,
        bytes: &[u8],
        _context: (),
    ) -> Result<(Property, &[u8]), Fault<StimFault>> {
        property(bytes)
    }
}

/// The line of a dot.
pub struct DotLine;

impl LineKind for DotLine {
    type Item = ();

    type Context = ();

    type Fault = StimFault;

    ghost allows = { λ _. Unit {0} };

    ghost at = { λ _ bytes. dot_at bytes };

    #[tactic(auto, unfolding(crate::specs::Reading::dot_at))]
    fn line(_alloc: Global, text: &[u8], _context: ()) -> Result<((), &[u8]), Fault<StimFault>> {
        let rest = tag(text, b".\n", IN_LINES)?;
        Ok(((), rest))
    }
}

/// A line of values, which is read into a buffer.
pub struct ValuesLine;

impl BufferKind for ValuesLine {
    type Buffer = Vec<bool>;

    type Item = ();

    type Context = ();

    type Fault = StimFault;

    ghost Value = { List Bool };

    ghost allows = { λ _. Unit {0} };

    ghost at = { λ _ bytes. items_at value_at bytes };

    ghost seen = { λ _ line. line.items };

    fn line_into<'t>(
        alloc: Global,
        line: &mut Vec<bool>,
        text: &'t [u8],
        _context: (),
    ) -> Result<((), &'t [u8]), Fault<StimFault>> {
        let rest = items_into::<Values>(alloc, line, text, ())?;
        Ok(((), rest))
    }
}

/// An input line, which is read into a buffer; the answer is whether it is one, else it is the dot's
/// line behind the last.
pub struct InputLine;

impl BufferKind for InputLine {
    type Buffer = Vec<bool>;

    type Item = bool;

    type Context = ();

    type Fault = StimFault;

    ghost Value = { Option (List Bool) };

    ghost allows = { λ _. Unit {0} };

    ghost at = { λ _ bytes. line_at bytes };

    ghost seen = { λ there line. line_where there line.items };

    #[tactic(auto, unfolding(stimulus::specs::Reading::line_at))]
    fn line_into<'t>(
        alloc: Global,
        line: &mut Vec<bool>,
        text: &'t [u8],
        _context: (),
    ) -> Result<(bool, &'t [u8]), Fault<StimFault>> {
        match text {
            [b'.', behind @ ..] => {
                let rest = byte(behind, b'\n', IN_LINES)?;
                Ok((false, rest))
            }
            _ => {
                let rest = items_into::<Values>(alloc, line, text, ())?;
                Ok((true, rest))
            }
        }
    }
}
