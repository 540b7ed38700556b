//! The lines of a text that comes from a source.

ghost use Rattle.std.specs.Prelude.{◌≡◌, ◌+◌, ◌-◌, ◌^◌, ◌<◌, ◌≤◌, ℕ, List, [], ◌++◌, Some, IfOk, length, drop};
ghost use Rattle.base.specs.Devices.{Reads, FailsOnce};
ghost use Rattle.scan.specs.Reading.{ended};
ghost use Rattle.pieces.specs.Lines.{Finds, IsOfPiece, end_at, with_buffer};
ghost use Rattle.pieces.specs.declared.line_error.LineError.TheVariants.{Device};

use crate::buffer_kind::BufferKind;
use crate::line_error::LineError;
use crate::pieces::Pieces;
use base::{Refused, Source};
use scan::{Fault, LineKind};
use std::alloc::Global;
use std::marker::Model;

/// The lines of a text, as a source gives its bytes. It holds the bytes of one line and at most two
/// chunks of 4,096 beside. However the source cuts its bytes, a call reads what is read of the whole
/// text there, and takes bytes up to the end of the line, or to the first byte that no line has, and
/// a chunk at most beyond it. A contract sees the bytes that were taken and not read.
///
/// After a refusal nothing is said of the bytes that are left.
#[derive(Drop)]
pub struct Lines {
    /// the bytes that were taken, in pieces
    pieces: Pieces,
    /// how many bytes were read
    before: usize,
}

impl Model for Lines {
    ghost use Rattle.std.specs.Prelude.{List, ℕ};

    ghost Value = { List ℕ };

    ghost view = { λ l. l.pieces };
}

impl Lines {
    /// At the beginning of a text.
    pub fn new(alloc: Global) -> Result<Lines, Refused>
        ensures { IfOk result (λ l. l ≡ []) }
    {
        Ok(Lines {
            pieces: Pieces::new(alloc)?,
            before: 0,
        })
    }

    /// The next line, of one kind.
    #[inline]
    #[tactic(auto, using(crate::proofs::LineLaws::rest_within))]
    pub fn line<L: LineKind, S: Source>(
        &mut self,
        alloc: Global,
        context: L::Context,
        from: &mut S,
    ) -> Result<L::Item, LineError<L::Fault>>
        requires allows { L.allows context }
        requires line { IsOfPiece (L.at context) }
        requires source { S.failed from.old < 2 ^ 64 - 1 }
        ensures says { Reads (S.leaves from.old) (S.leaves from.new) (λ ys zs. Finds (L.at context (self.old ++ ys)) result self.new zs) }
        ensures given { IfOk result (λ x. (text : List ℕ) × (ended (L.at context text) ≡ Some x)) }
        ensures moves { IfOk result (λ _. length self.new + S.most from.new < length self.old + S.most from.old) }
        ensures device { FailsOnce result Device (S.failed from.old) (S.failed from.new) }
    {
        let n = self.pieces.next(from)?;
        let (item, left) = match L::line(alloc, self.pieces.first(n), context) {
            Ok((item, rest)) => (item, rest.len()),
            Err(fault) => return Err(LineError::Refused {
                length: self.before.saturating_add(n),
                fault,
            }),
        };
        self.skip(n - left);
        Ok(item)
    }

    /// Reads the next line into the buffer.
    #[inline]
    #[tactic(auto, using(crate::proofs::LineLaws::rest_within))]
    pub fn line_into<L: BufferKind, S: Source>(
        &mut self,
        alloc: Global,
        buffer: &mut L::Buffer,
        context: L::Context,
        from: &mut S,
    ) -> Result<L::Item, LineError<L::Fault>>
        requires allows { L.allows context }
        requires line { IsOfPiece (L.at context) }
        requires source { S.failed from.old < 2 ^ 64 - 1 }
        ensures says { Reads (S.leaves from.old) (S.leaves from.new) (λ ys zs. Finds (L.at context (self.old ++ ys)) (with_buffer L.seen result buffer.new) self.new zs) }
        ensures given { IfOk (with_buffer L.seen result buffer.new) (λ x. (text : List ℕ) × (ended (L.at context text) ≡ Some x)) }
        ensures moves { IfOk result (λ _. length self.new + S.most from.new < length self.old + S.most from.old) }
        ensures device { FailsOnce result Device (S.failed from.old) (S.failed from.new) }
    {
        let n = self.pieces.next(from)?;
        let (item, left) = match L::line_into(alloc, buffer, self.pieces.first(n), context) {
            Ok((item, rest)) => (item, rest.len()),
            Err(fault) => return Err(LineError::Refused {
                length: self.before.saturating_add(n),
                fault,
            }),
        };
        self.skip(n - left);
        Ok(item)
    }

    /// The first bytes were read.
    #[inline]
    fn skip(&mut self, n: usize)
        requires { n ≤ length self.old }
        ensures { self.new ≡ drop n self.old }
    {
        self.pieces.skip(n);
        self.before = self.before.saturating_add(n);
    }

    /// Says that nothing is left: the source must be at its end, and else this is the fault, at the
    /// first byte that is left.
    pub fn end<K: Copy, S: Source>(&mut self, kind: K, from: &mut S) -> Result<(), LineError<K>>
        requires source { S.failed from.old < 2 ^ 64 - 1 }
        ensures says { Reads (S.leaves from.old) (S.leaves from.new) (λ ys zs. Finds (end_at (self.old ++ ys)) result self.new zs) }
        ensures device { FailsOnce result Device (S.failed from.old) (S.failed from.new) }
    {
        let n = self.pieces.next(from)?;
        if n > 0 {
            return Err(LineError::Refused {
                length: self.before.saturating_add(n),
                fault: Fault::Text { kind, left: n },
            });
        }
        Ok(())
    }
}
