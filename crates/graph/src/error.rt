//! Why there is no circuit.

ghost use Rattle.std.specs.Prelude.{◌≡◌};
ghost use Rattle.graph.specs.Refusals.{number_of, place_of};

use crate::bounds::LONGEST_TEXT;
use base::Refused;
use std::fmt;
use thiserror::Error;

/// The place of a text that is too long.
const TOO_LONG_AT: u64 = LONGEST_TEXT as u64;

/// Why parts, or a text, make no circuit. Each refusal has a number and a place. In a text the
/// place is a byte; where parts are built it is what the variant says.
#[derive(Clone, Copy, Error)]
pub enum ReadError {
    TooLong,
    Header(u64),
    Number(u64),
    /// In parts: the count's position in the header, 9 for the justice literals in all.
    Limit(u64),
    Byte(u64),
    Truncated(u64),
    /// In parts: how many literals come before it.
    LiteralRange(u64),
    /// In parts: how many literals come before it.
    Defining(u64),
    /// The smallest such variable.
    DefinedTwice(u32),
    /// The smallest such variable.
    Undefined(u32),
    /// The smallest variable from which right sides lead into a cycle.
    Cyclic(u32),
    /// In parts: how many literals come before it.
    Reset(u64),
    Delta(u64),
    Symbol(u64),
    Counts(u64),
    NoProperty(u32),
    OutOfMemory(Refused),
}

impl From<Refused> for ReadError {
    ghost use Rattle.std.specs.Prelude.{◌≡◌};
    ghost use Rattle.base.specs.Witness.{witness};
    ghost use Rattle.graph.specs.declared.error.ReadError.TheVariants.{OutOfMemory};

    ghost from_gives = { λ _ e. e ≡ OutOfMemory witness };

    fn from(refused: Refused) -> ReadError {
        ReadError::OutOfMemory(refused)
    }
}

impl fmt::Display for ReadError {
    fn fmt<W: fmt::Write>(&self, f: &mut fmt::Formatter<W>) -> fmt::Result {
        match self {
            ReadError::OutOfMemory(refused) => write!(f, "{refused}"),
            _ => write!(f, "{}{}{}", self.before(), self.place(), self.after()),
        }
    }
}

/// As it is displayed: the proof of a derived one takes a tenth of the crate's.
impl fmt::Debug for ReadError {
    fn fmt<W: fmt::Write>(&self, f: &mut fmt::Formatter<W>) -> fmt::Result {
        fmt::Display::fmt(self, f)
    }
}

impl ReadError {
    /// The refusal's number.
    pub fn number(&self) -> u8
        ensures { result ≡ number_of self.now }
    {
        match self {
            ReadError::TooLong => 1,
            ReadError::Header(_) => 2,
            ReadError::Number(_) => 3,
            ReadError::Limit(_) => 4,
            ReadError::Byte(_) => 5,
            ReadError::Truncated(_) => 6,
            ReadError::LiteralRange(_) => 7,
            ReadError::Defining(_) => 8,
            ReadError::DefinedTwice(_) => 9,
            ReadError::Undefined(_) => 10,
            ReadError::Cyclic(_) => 11,
            ReadError::Reset(_) => 12,
            ReadError::Delta(_) => 13,
            ReadError::Symbol(_) => 14,
            ReadError::Counts(_) => 16,
            ReadError::OutOfMemory(_) => 20,
            ReadError::NoProperty(_) => 30,
        }
    }

    /// The refusal's place: 67108864 for a text that is too long, and 0 for out of memory.
    pub fn place(&self) -> u64
        ensures { result ≡ place_of self.now }
    {
        match self {
            ReadError::TooLong => TOO_LONG_AT,
            ReadError::Header(place)
            | ReadError::Number(place)
            | ReadError::Limit(place)
            | ReadError::Byte(place)
            | ReadError::Truncated(place)
            | ReadError::LiteralRange(place)
            | ReadError::Defining(place)
            | ReadError::Reset(place)
            | ReadError::Delta(place)
            | ReadError::Symbol(place)
            | ReadError::Counts(place) => *place,
            ReadError::DefinedTwice(variable)
            | ReadError::Undefined(variable)
            | ReadError::Cyclic(variable) => u64::from(*variable),
            ReadError::NoProperty(number) => u64::from(*number),
            ReadError::OutOfMemory(_) => 0,
        }
    }

    /// The words before the place.
    fn before(&self) -> &'static str {
        match self {
            ReadError::TooLong => "the text is longer than ",
            ReadError::Header(_) => "no header at byte ",
            ReadError::Number(_) => "no number at byte ",
            ReadError::Limit(_) => "over a limit at ",
            ReadError::Byte(_) => "another byte is needed at ",
            ReadError::Truncated(_) => "the text ends at byte ",
            ReadError::LiteralRange(_) => "a literal of no variable at ",
            ReadError::Defining(_) => "a literal that defines nothing at ",
            ReadError::DefinedTwice(_) | ReadError::Undefined(_) | ReadError::Cyclic(_) =>
                "variable ",
            ReadError::Reset(_) => "a reset that is neither 0, 1 nor the latch's literal at ",
            ReadError::Delta(_) => "no difference of literals at byte ",
            ReadError::Symbol(_) => "no symbol at ",
            ReadError::Counts(_) => "the counts don't fit each other at byte ",
            ReadError::NoProperty(_) => "there is no property ",
            ReadError::OutOfMemory(_) => "",
        }
    }

    /// The words after the place.
    fn after(&self) -> &'static str {
        match self {
            ReadError::TooLong => " bytes",
            ReadError::DefinedTwice(_) => " is defined twice",
            ReadError::Undefined(_) => " is used and not defined",
            ReadError::Cyclic(_) => " leads into a cycle",
            _ => "",
        }
    }
}
