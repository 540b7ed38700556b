//! The text of a certificate, read line by line.

ghost use Rattle.std.specs.Prelude.{◌≡◌, ◌+◌, ◌-◌, ◌^◌, ◌<◌, ◌≤◌, ℕ, List, [], ◌++◌, None, Some, Err, IfOk, IfSome, length};
ghost use Rattle.base.specs.Devices.{Reads, FailsOnce};
ghost use Rattle.scan.specs.Reading.{ended};
ghost use Rattle.scan.specs.Words.{any, field_at};
ghost use Rattle.lrat.specs.Limits.{IsLine};
ghost use Rattle.pieces.specs.Lines.{IsOfPiece, end_at, with_buffer};
ghost use Rattle.certificate.specs.Reading.{clause_at, first_line_at, greatest, item_at, line_where, property_at};
ghost use Rattle.certificate.specs.Held.{Held, refusal_of};
ghost use Rattle.certificate.specs.Refusals.{answer_of};
ghost use Rattle.certificate.specs.Streams.{Finds, letter_at};
ghost use Rattle.certificate.specs.declared.reader_error.ReaderError.TheVariants.{Device, Refused as IsRefused};

use crate::cert_error::CertError;
use crate::cert_fault::CertFault;
use crate::head::{ClauseLine, Version};
use crate::kinds::{CountLine, FirstLine, LetterLine, PropertyLine, SectionKind};
use crate::reader_error::ReaderError;
use crate::sections::ItemLine;
use base::{Refused, Source};
use graph::{Lit, Property};
use lrat::LineBuffer;
use pieces::{BufferKind, LineError, Lines};
use scan::LineKind;
use std::alloc::Global;
use std::marker::Model;

/// What an answer is for a reader of certificates.
fn answered<T>(answer: Result<T, LineError<CertFault>>) -> Result<T, ReaderError>
    ensures { result ≡ answer_of answer }
{
    match answer {
        Ok(item) => Ok(item),
        Err(e) => Err(ReaderError::from(e)),
    }
}

/// The refusal that an answer tells, if any.
fn told<T>(answer: &Result<T, ReaderError>) -> Option<CertError>
    ensures { result ≡ refusal_of answer.now }
{
    match answer {
        Err(ReaderError::Refused(refusal)) => Some(*refusal),
        Err(ReaderError::Device) | Ok(_) => None,
    }
}

/// The text of a certificate, line by line, as a source gives its bytes. It holds the bytes of one
/// line and at most two chunks of 4,096 beside. However the source cuts its bytes, a call reads what
/// `read` reads there, and refuses it as `read` does; it takes bytes up to the end of the line, or to
/// the first byte that no certificate has, and a chunk at most beyond it. A contract sees the bytes
/// that were taken and not read.
///
/// It remembers a refusal: each later call answers the same and asks the source for nothing. Where the
/// source failed, the next call asks it again.
#[derive(Drop)]
pub struct Reader {
    /// the lines of the bytes that were taken
    lines: Lines,
    /// why the text is refused, once it is
    refusal: Option<CertError>,
}

impl Model for Reader {
    ghost use Rattle.certificate.specs.Held.{Held, held_of};

    ghost Value = { Held };

    ghost view = { λ r. held_of r.lines r.refusal };
}

impl Reader {
    /// At the beginning of a text.
    pub fn new(alloc: Global) -> Result<Reader, Refused>
        ensures begins { IfOk result (λ r. r.held ≡ []) }
        ensures refusal { IfOk result (λ r. r.refusal ≡ None) }
    {
        Ok(Reader {
            lines: Lines::new(alloc)?,
            refusal: None,
        })
    }

    /// Why the text is refused, once it is; with its place.
    pub fn refusal(&self) -> Option<CertError>
        ensures { result ≡ self.now.refusal }
    {
        self.refusal
    }

    /// The version that the first line names.
    #[tactic(auto, using(crate::proofs::LineLaws::version_of_piece))]
    pub fn version<S: Source>(
        &mut self,
        alloc: Global,
        from: &mut S,
    ) -> Result<Version, ReaderError>
        requires source { S.failed from.old < 2 ^ 64 - 1 }
        ensures says { Reads (S.leaves from.old) (S.leaves from.new) (λ ys zs. Finds (first_line_at (self.old.held ++ ys)) result self.new.held zs) }
        ensures device { FailsOnce result Device (S.failed from.old) (S.failed from.new) }
        ensures again { IfSome self.old.refusal (λ e. (result ≡ Err (IsRefused e)) × (from.new ≡ from.old)) }
        ensures remembers { self.new.refusal ≡ refusal_of result }
    {
        self.line::<FirstLine, S>(alloc, (), from)
    }

    /// The property that the second line names.
    #[tactic(auto, using(crate::proofs::LineLaws::property_of_piece))]
    pub fn property<S: Source>(
        &mut self,
        alloc: Global,
        from: &mut S,
    ) -> Result<Property, ReaderError>
        requires source { S.failed from.old < 2 ^ 64 - 1 }
        ensures says { Reads (S.leaves from.old) (S.leaves from.new) (λ ys zs. Finds (property_at (self.old.held ++ ys)) result self.new.held zs) }
        ensures device { FailsOnce result Device (S.failed from.old) (S.failed from.new) }
        ensures again { IfSome self.old.refusal (λ e. (result ≡ Err (IsRefused e)) × (from.new ≡ from.old)) }
        ensures remembers { self.new.refusal ≡ refusal_of result }
    {
        self.line::<PropertyLine, S>(alloc, (), from)
    }

    /// How many clauses there are.
    #[tactic(auto, using(crate::proofs::LineLaws::count_of_piece, crate::proofs::LineLaws::count_few))]
    pub fn count<S: Source>(&mut self, alloc: Global, from: &mut S) -> Result<u32, ReaderError>
        requires source { S.failed from.old < 2 ^ 64 - 1 }
        ensures says { Reads (S.leaves from.old) (S.leaves from.new) (λ ys zs. Finds (field_at greatest any 10 (self.old.held ++ ys)) result self.new.held zs) }
        ensures few { IfOk result (λ n. n ≤ 4194303) }
        ensures device { FailsOnce result Device (S.failed from.old) (S.failed from.new) }
        ensures again { IfSome self.old.refusal (λ e. (result ≡ Err (IsRefused e)) × (from.new ≡ from.old)) }
        ensures remembers { self.new.refusal ≡ refusal_of result }
    {
        self.line::<CountLine, S>(alloc, (), from)
    }

    /// Reads the next clause into the list, which is emptied first and keeps its memory.
    #[tactic(auto, using(crate::proofs::LineLaws::clause_of_piece))]
    pub fn clause_into<S: Source>(
        &mut self,
        alloc: Global,
        clause: &mut Vec<Lit>,
        from: &mut S,
    ) -> Result<(), ReaderError>
        requires source { S.failed from.old < 2 ^ 64 - 1 }
        ensures says { Reads (S.leaves from.old) (S.leaves from.new) (λ ys zs. Finds (clause_at (self.old.held ++ ys)) (with_buffer (λ _ c. c.items) result clause.new) self.new.held zs) }
        ensures device { FailsOnce result Device (S.failed from.old) (S.failed from.new) }
        ensures again { IfSome self.old.refusal (λ e. (result ≡ Err (IsRefused e)) × (from.new ≡ from.old)) }
        ensures remembers { self.new.refusal ≡ refusal_of result }
    {
        if let Some(refusal) = self.refusal {
            return Err(ReaderError::Refused(refusal));
        }
        let answer = answered(
            self.lines
                .line_into::<ClauseLine, S>(alloc, clause, (), from),
        );
        self.refusal = told(&answer);
        answer
    }

    /// The next line, of a kind that is read from one piece.
    pub fn line<L: LineKind<Fault = CertFault>, S: Source>(
        &mut self,
        alloc: Global,
        context: L::Context,
        from: &mut S,
    ) -> Result<L::Item, ReaderError>
        requires allows { L.allows context }
        requires line { IsOfPiece (L.at context) }
        requires source { S.failed from.old < 2 ^ 64 - 1 }
        ensures says { Reads (S.leaves from.old) (S.leaves from.new) (λ ys zs. Finds (L.at context (self.old.held ++ ys)) result self.new.held zs) }
        ensures given { IfOk result (λ x. (text : List ℕ) × (ended (L.at context text) ≡ Some x)) }
        ensures device { FailsOnce result Device (S.failed from.old) (S.failed from.new) }
        ensures again { IfSome self.old.refusal (λ e. (result ≡ Err (IsRefused e)) × (from.new ≡ from.old)) }
        ensures remembers { self.new.refusal ≡ refusal_of result }
    {
        if let Some(refusal) = self.refusal {
            return Err(ReaderError::Refused(refusal));
        }
        let answer = answered(self.lines.line::<L, S>(alloc, context, from));
        self.refusal = told(&answer);
        answer
    }

    /// Reads the next line, of a kind that is read from one piece, into a buffer, which keeps its memory.
    pub fn line_in<L: BufferKind<Fault = CertFault>, S: Source>(
        &mut self,
        alloc: Global,
        buffer: &mut L::Buffer,
        context: L::Context,
        from: &mut S,
    ) -> Result<L::Item, ReaderError>
        requires allows { L.allows context }
        requires line { IsOfPiece (L.at context) }
        requires source { S.failed from.old < 2 ^ 64 - 1 }
        ensures says { Reads (S.leaves from.old) (S.leaves from.new) (λ ys zs. Finds (L.at context (self.old.held ++ ys)) (with_buffer L.seen result buffer.new) self.new.held zs) }
        ensures device { FailsOnce result Device (S.failed from.old) (S.failed from.new) }
        ensures again { IfSome self.old.refusal (λ e. (result ≡ Err (IsRefused e)) × (from.new ≡ from.old)) }
        ensures remembers { self.new.refusal ≡ refusal_of result }
    {
        if let Some(refusal) = self.refusal {
            return Err(ReaderError::Refused(refusal));
        }
        let answer = answered(self.lines.line_into::<L, S>(alloc, buffer, context, from));
        self.refusal = told(&answer);
        answer
    }

    /// Reads the line with which a section of this kind begins.
    #[tactic(auto, using(crate::proofs::LineLaws::letter_of_piece))]
    pub fn section<S: Source>(
        &mut self,
        alloc: Global,
        kind: SectionKind,
        from: &mut S,
    ) -> Result<(), ReaderError>
        requires source { S.failed from.old < 2 ^ 64 - 1 }
        ensures says { Reads (S.leaves from.old) (S.leaves from.new) (λ ys zs. Finds (letter_at kind (self.old.held ++ ys)) result self.new.held zs) }
        ensures device { FailsOnce result Device (S.failed from.old) (S.failed from.new) }
        ensures again { IfSome self.old.refusal (λ e. (result ≡ Err (IsRefused e)) × (from.new ≡ from.old)) }
        ensures remembers { self.new.refusal ≡ refusal_of result }
    {
        self.line::<LetterLine, S>(alloc, kind, from)
    }

    /// Reads the next line of a section's proof into the buffer, and answers whether there is one;
    /// else the proof is at its end. Memory is asked for only where a list of the line is longer
    /// than those before.
    #[tactic(auto, using(crate::proofs::LineLaws::line_of_piece))]
    pub fn line_into<S: Source>(
        &mut self,
        alloc: Global,
        line: &mut LineBuffer,
        from: &mut S,
    ) -> Result<bool, ReaderError>
        requires source { S.failed from.old < 2 ^ 64 - 1 }
        ensures says { Reads (S.leaves from.old) (S.leaves from.new) (λ ys zs. Finds (item_at (self.old.held ++ ys)) (with_buffer line_where result line.new) self.new.held zs) }
        ensures line { IfOk (with_buffer line_where result line.new) (λ l. IfSome l IsLine) }
        ensures moves { IfOk result (λ _. length self.new.held + S.most from.new < length self.old.held + S.most from.old) }
        ensures device { FailsOnce result Device (S.failed from.old) (S.failed from.new) }
        ensures again { IfSome self.old.refusal (λ e. (result ≡ Err (IsRefused e)) × (from.new ≡ from.old)) }
        ensures remembers { self.new.refusal ≡ refusal_of result }
    {
        if let Some(refusal) = self.refusal {
            return Err(ReaderError::Refused(refusal));
        }
        let answer = answered(self.lines.line_into::<ItemLine, S>(alloc, line, (), from));
        self.refusal = told(&answer);
        answer
    }

    /// Says that nothing is left: the source must be at its end.
    pub fn end<S: Source>(&mut self, from: &mut S) -> Result<(), ReaderError>
        requires source { S.failed from.old < 2 ^ 64 - 1 }
        ensures says { Reads (S.leaves from.old) (S.leaves from.new) (λ ys zs. Finds (end_at (self.old.held ++ ys)) result self.new.held zs) }
        ensures device { FailsOnce result Device (S.failed from.old) (S.failed from.new) }
        ensures again { IfSome self.old.refusal (λ e. (result ≡ Err (IsRefused e)) × (from.new ≡ from.old)) }
        ensures remembers { self.new.refusal ≡ refusal_of result }
    {
        if let Some(refusal) = self.refusal {
            return Err(ReaderError::Refused(refusal));
        }
        let answer = answered(self.lines.end::<CertFault, S>(CertFault::Section, from));
        self.refusal = told(&answer);
        answer
    }
}
