//! The input lines of a stimulus that is refused, and those that are kept.

ghost use Rattle.std.specs.Prelude.{◌≡◌, ◌-◌, ◌^◌, ◌<◌, ◌↔◌, ℕ, Bool, List, [], ◌∷◌, ◌++◌, length, Some, IsTrue};
ghost use Rattle.base.specs.Devices.{Reads, FailsOnce};
ghost use Rattle.scan.specs.Lists.{items_at};
ghost use Rattle.stimulus.specs.Reading.{line_at};
ghost use Rattle.replay.specs.Found.{AreOfLengths, AreRefused, cause_by};
ghost use Rattle.replay.specs.Streams.{Finds, FindsWith};
ghost use Rattle.replay.specs.declared.text_error.TextError.TheVariants.{Device};

use crate::numbers::{LINE_LENGTH, NO_INPUT_LINE};
use crate::reader::LineReader;
use crate::text_error::TextError;
use base::{Seq, Source, copied, push};
use std::alloc::Global;

/// What the lengths of lines are.
#[derive(Clone, Copy)]
pub enum Lengths {
    /// There is a line, and each has the wanted length.
    Fit,
    /// There is no line.
    Missing,
    /// A line has another length.
    Wrong,
}

impl Lengths {
    /// What they are with one line more.
    fn with(self, fits: bool) -> Lengths
        ensures { (long : ℕ) (lines : List (List Bool)) (line : List Bool) → (IsTrue fits ↔ (length line ≡ long)) → AreOfLengths long lines self → AreOfLengths long (lines ++ line ∷ []) result }
    {
        match self {
            Lengths::Wrong => Lengths::Wrong,
            _ if fits => Lengths::Fit,
            _ => Lengths::Wrong,
        }
    }

    /// The number of the first cause, where it is this one unless the lengths are one.
    fn cause(self, number: u8) -> u8
        ensures { result ≡ cause_by self number }
    {
        match self {
            Lengths::Fit => number,
            Lengths::Missing => NO_INPUT_LINE,
            Lengths::Wrong => LINE_LENGTH,
        }
    }
}

/// Reads the input lines of a stimulus that is refused with this number, whatever they are.
pub fn skip_lines<S: Source>(
    alloc: Global,
    number: u8,
    line: &mut Vec<bool>,
    reader: &mut LineReader,
    from: &mut S,
) -> Result<Option<u8>, TextError>
    requires source { S.failed from.old < 2 ^ 64 - 1 }
    ensures says { Reads (S.leaves from.old) (S.leaves from.new) (λ ys zs. FindsWith (λ lines found. found ≡ Some number) (items_at line_at (reader.old ++ ys)) result reader.new zs) }
    ensures device { FailsOnce result Device (S.failed from.old) (S.failed from.new) }
{
    'skipping: loop {
        let there = reader.line_into(alloc, line, from)?;
        if !there {
            return Ok(Some(number));
        }
    }
}

/// Reads the input lines behind others of these lengths, of a stimulus that is refused with this
/// number where there is a line and each has this length.
pub fn refuse_lines<S: Source>(
    alloc: Global,
    number: u8,
    long: usize,
    before: Lengths,
    line: &mut Vec<bool>,
    reader: &mut LineReader,
    from: &mut S,
) -> Result<Option<u8>, TextError>
    requires source { S.failed from.old < 2 ^ 64 - 1 }
    ensures says { Reads (S.leaves from.old) (S.leaves from.new) (λ ys zs. (front : List (List Bool)) → AreOfLengths long front before → FindsWith (λ more found. AreRefused number long (front ++ more) found) (items_at line_at (reader.old ++ ys)) result reader.new zs) }
    ensures device { FailsOnce result Device (S.failed from.old) (S.failed from.new) }
{
    let mut lengths = before;
    'measuring: loop {
        let there = reader.line_into(alloc, line, from)?;
        if !there {
            return Ok(Some(lengths.cause(number)));
        }
        lengths = lengths.with(line.len() == long);
    }
}

/// The input lines.
pub fn read_lines<S: Source>(
    alloc: Global,
    line: &mut Vec<bool>,
    reader: &mut LineReader,
    from: &mut S,
) -> Result<Seq<Seq<bool>>, TextError>
    requires source { S.failed from.old < 2 ^ 64 - 1 }
    ensures says { Reads (S.leaves from.old) (S.leaves from.new) (λ ys zs. Finds (items_at line_at (reader.old ++ ys)) result reader.new zs) }
    ensures device { FailsOnce result Device (S.failed from.old) (S.failed from.new) }
{
    let mut lines = Vec::new(alloc);
    'reading: loop {
        let there = reader.line_into(alloc, line, from)?;
        if !there {
            return Ok(Seq::from_vec(lines));
        }
        push(&mut lines, Seq::from_vec(copied(alloc, line.as_slice())?))?;
    }
}
