//! The text of a stimulus, read line by line.

ghost use Rattle.std.specs.Prelude.{◌≡◌, ◌+◌, ◌-◌, ◌^◌, ◌<◌, ℕ, List, [], ◌++◌, IfOk, length};
ghost use Rattle.base.specs.Devices.{Reads, FailsOnce};
ghost use Rattle.scan.specs.Lists.{items_at};
ghost use Rattle.pieces.specs.Lines.{IsOfPiece, end_at, with_buffer};
ghost use Rattle.stimulus.specs.Reading.{line_at, property_at, value_at};
ghost use Rattle.replay.specs.Reading.{dot_at, line_where, status_at};
ghost use Rattle.replay.specs.Refusals.{answer_of};
ghost use Rattle.replay.specs.Streams.{Finds};
ghost use Rattle.replay.specs.declared.text_error.TextError.TheVariants.{Device};

use crate::kinds::{DotLine, InputLine, PropertyLine, Status, StatusLine, ValuesLine};
use crate::text_error::TextError;
use base::{Refused, Source};
use graph::Property;
use pieces::{LineError, Lines};
use scan::LineKind;
use std::alloc::Global;
use std::marker::Model;
use stimulus::StimFault;

/// What an answer is for a reader of stimuli.
fn answered<T>(answer: Result<T, LineError<StimFault>>) -> Result<T, TextError>
    ensures { result ≡ answer_of answer }
{
    match answer {
        Ok(item) => Ok(item),
        Err(e) => Err(TextError::from(e)),
    }
}

/// The text of a stimulus, line by line, as a source gives its bytes. It holds the bytes of one
/// line, and beside them what the source gives at once. However the source cuts its bytes, a call
/// reads what `stimulus::read` reads there, and refuses it as that does. A contract sees the bytes
/// that were taken and not read.
///
/// After a refusal the text is given up: nothing is said of the bytes that are left.
#[derive(Drop)]
pub struct LineReader {
    /// the lines of the bytes that were taken
    lines: Lines,
}

impl Model for LineReader {
    ghost use Rattle.std.specs.Prelude.{List, ℕ};

    ghost Value = { List ℕ };

    ghost view = { λ r. r.lines };
}

impl LineReader {
    /// At the beginning of a text.
    pub fn new(alloc: Global) -> Result<LineReader, Refused>
        ensures { IfOk result (λ r. r ≡ []) }
    {
        Ok(LineReader {
            lines: Lines::new(alloc)?,
        })
    }

    /// The next line, of one kind.
    fn line<L: LineKind<Fault = StimFault>, S: Source>(
        &mut self,
        alloc: Global,
        context: L::Context,
        from: &mut S,
    ) -> Result<L::Item, TextError>
        requires allows { L.allows context }
        requires line { IsOfPiece (L.at context) }
        requires source { S.failed from.old < 2 ^ 64 - 1 }
        ensures says { Reads (S.leaves from.old) (S.leaves from.new) (λ ys zs. Finds (L.at context (self.old ++ ys)) result self.new zs) }
        ensures device { FailsOnce result Device (S.failed from.old) (S.failed from.new) }
    {
        answered(self.lines.line::<L, S>(alloc, context, from))
    }

    /// What the first line says.
    #[tactic(auto, using(crate::proofs::LineLaws::status_of_piece))]
    pub fn status<S: Source>(&mut self, alloc: Global, from: &mut S) -> Result<Status, TextError>
        requires source { S.failed from.old < 2 ^ 64 - 1 }
        ensures says { Reads (S.leaves from.old) (S.leaves from.new) (λ ys zs. Finds (status_at (self.old ++ ys)) result self.new zs) }
        ensures device { FailsOnce result Device (S.failed from.old) (S.failed from.new) }
    {
        self.line::<StatusLine, S>(alloc, (), from)
    }

    /// The property that the second line names.
    #[tactic(auto, using(crate::proofs::LineLaws::property_of_piece))]
    pub fn property<S: Source>(
        &mut self,
        alloc: Global,
        from: &mut S,
    ) -> Result<Property, TextError>
        requires source { S.failed from.old < 2 ^ 64 - 1 }
        ensures says { Reads (S.leaves from.old) (S.leaves from.new) (λ ys zs. Finds (property_at (self.old ++ ys)) result self.new zs) }
        ensures device { FailsOnce result Device (S.failed from.old) (S.failed from.new) }
    {
        self.line::<PropertyLine, S>(alloc, (), from)
    }

    /// Reads a line of a dot.
    #[tactic(auto, using(crate::proofs::LineLaws::dot_of_piece))]
    pub fn dot<S: Source>(&mut self, alloc: Global, from: &mut S) -> Result<(), TextError>
        requires source { S.failed from.old < 2 ^ 64 - 1 }
        ensures says { Reads (S.leaves from.old) (S.leaves from.new) (λ ys zs. Finds (dot_at (self.old ++ ys)) result self.new zs) }
        ensures device { FailsOnce result Device (S.failed from.old) (S.failed from.new) }
    {
        self.line::<DotLine, S>(alloc, (), from)
    }

    /// Reads a line of values into the buffer. Memory is asked for only where the line is longer
    /// than those before.
    #[tactic(auto, using(crate::proofs::LineLaws::values_of_piece))]
    pub fn values_into<S: Source>(
        &mut self,
        alloc: Global,
        line: &mut Vec<bool>,
        from: &mut S,
    ) -> Result<(), TextError>
        requires source { S.failed from.old < 2 ^ 64 - 1 }
        ensures says { Reads (S.leaves from.old) (S.leaves from.new) (λ ys zs. Finds (items_at value_at (self.old ++ ys)) (with_buffer (λ _ l. l.items) result line.new) self.new zs) }
        ensures device { FailsOnce result Device (S.failed from.old) (S.failed from.new) }
    {
        answered(self.lines.line_into::<ValuesLine, S>(alloc, line, (), from))
    }

    /// Reads the next input line into the buffer, and answers whether there is one; else the dot's
    /// line behind the last was read. Memory is asked for only where the line is longer than those
    /// before.
    #[tactic(auto, using(crate::proofs::LineLaws::input_of_piece))]
    pub fn line_into<S: Source>(
        &mut self,
        alloc: Global,
        line: &mut Vec<bool>,
        from: &mut S,
    ) -> Result<bool, TextError>
        requires source { S.failed from.old < 2 ^ 64 - 1 }
        ensures says { Reads (S.leaves from.old) (S.leaves from.new) (λ ys zs. Finds (line_at (self.old ++ ys)) (with_buffer (λ there l. line_where there l.items) result line.new) self.new zs) }
        ensures moves { IfOk result (λ _. length self.new + S.most from.new < length self.old + S.most from.old) }
        ensures device { FailsOnce result Device (S.failed from.old) (S.failed from.new) }
    {
        answered(self.lines.line_into::<InputLine, S>(alloc, line, (), from))
    }

    /// Says that nothing is left: the source must be at its end.
    pub fn end<S: Source>(&mut self, from: &mut S) -> Result<(), TextError>
        requires source { S.failed from.old < 2 ^ 64 - 1 }
        ensures says { Reads (S.leaves from.old) (S.leaves from.new) (λ ys zs. Finds (end_at (self.old ++ ys)) result self.new zs) }
        ensures device { FailsOnce result Device (S.failed from.old) (S.failed from.new) }
    {
        answered(self.lines.end::<StimFault, S>(StimFault::AfterEnd, from))
    }
}
