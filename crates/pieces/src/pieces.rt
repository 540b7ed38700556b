//! The pieces of a text that comes from a source.

ghost use Rattle.std.specs.Prelude.{◌≡◌, ◌+◌, ◌-◌, ◌^◌, ◌<◌, ◌≤◌, [], IfOk, IfSome, MatchOption, length, take, drop};
ghost use Rattle.base.specs.Devices.{Reads, FailsOnce};
ghost use Rattle.pieces.specs.Pieces.{GoesOn, IsReady, Lies};
ghost use Rattle.pieces.specs.declared.pieces.PieceError.TheVariants.{Device};

use crate::ends::last_end;
use base::{Failed, Refused, Source, extend, filled};
use std::alloc::Global;
use std::marker::Model;

/// How many bytes are asked of the source at once.
const CHUNK: usize = 4096;

/// Why no piece comes.
#[derive(Clone, Copy, Debug)]
pub enum PieceError {
    /// A growth was refused.
    OutOfMemory(Refused),
    /// The source failed.
    Device,
}

/// Takes bytes of the source behind those that are held, which are all of one piece, until that ends.
/// It answers how many of the bytes are ready then, or none where the source ends before the piece.
fn gather<S: Source>(
    held: &mut Vec<u8>,
    chunk: &mut [u8],
    from: &mut S,
) -> Result<Option<usize>, PieceError>
    requires room { 0 < length chunk.old }
    requires source { S.failed from.old < 2 ^ 64 - 1 }
    requires begun { GoesOn held.old.items }
    ensures ready { IfOk result (λ end. IfSome end (λ n. IsReady held.new.items n)) }
    ensures reads { Reads (S.leaves from.old) (S.leaves from.new) (λ ys zs. IfOk result (λ end. MatchOption end (Lies held.old.items ys held.new.items zs (length held.new.items)) (λ n. Lies held.old.items ys held.new.items zs n))) }
    ensures moves { IfOk result (λ _. length held.new.items + S.most from.new ≡ length held.old.items + S.most from.old) }
    ensures device { FailsOnce result Device (S.failed from.old) (S.failed from.new) }
{
    'gathering: loop {
        let n = match from.take(chunk) {
            Ok(n) => n,
            Err(Failed) => return Err(PieceError::Device),
        };
        if n == 0 {
            return Ok(None);
        }
        let before = held.len();
        if let Err(refused) = extend(held, &chunk[..n]) {
            return Err(PieceError::OutOfMemory(refused));
        }
        if let Some(end) = last_end(&chunk[..n]) {
            return Ok(Some(before + end));
        }
    }
}

/// Takes the first bytes out.
fn forget(held: &mut Vec<u8>, start: usize)
    requires { start ≤ length held.old.items }
    ensures { held.new.items ≡ drop start held.old.items }
{
    let rest = held.len() - start;
    held.copy_within(start.., 0);
    held.truncate(rest);
}

/// The bytes of a source, piece by piece: a piece goes up to the first byte that no line has before
/// its end, and so ends with a line end, with a byte that no text has, or with the source. A contract
/// sees the bytes that were taken and not given on.
///
/// It holds no more than a piece and two chunks of the source.
#[derive(Drop)]
pub struct Pieces {
    /// what a source gives at once
    chunk: Vec<u8>,
    /// what was taken, of which the first `start` bytes were given on
    held: Vec<u8>,
    start: usize,
    /// how many of the bytes that are held are whole lines
    ready: usize,
}

impl Model for Pieces {
    ghost use Rattle.std.specs.Prelude.{List, ℕ, drop, length, ◌≤◌, ◌<◌};
    ghost use Rattle.pieces.specs.Pieces.{IsReady};

    ghost Value = { List ℕ };

    ghost view = { λ p. drop p.start p.held.items };

    ghost invariant = { λ p. 0 < length p.chunk.items × p.start ≤ length p.held.items × IsReady p.held.items p.ready };
}

impl Pieces {
    /// No bytes yet.
    pub fn new(alloc: Global) -> Result<Pieces, Refused>
        ensures { IfOk result (λ p. p ≡ []) }
    {
        Ok(Pieces {
            chunk: filled(alloc, 0, CHUNK)?,
            held: Vec::new(alloc),
            start: 0,
            ready: 0,
        })
    }

    /// How many of the bytes that are held then surely have the next piece, and maybe others behind
    /// it. Where there are none, the source is at its end.
    #[inline]
    pub fn next<S: Source>(&mut self, from: &mut S) -> Result<usize, PieceError>
        requires source { S.failed from.old < 2 ^ 64 - 1 }
        ensures reads { Reads (S.leaves from.old) (S.leaves from.new) (λ ys zs. IfOk result (λ n. Lies self.old ys self.new zs n)) }
        ensures within { IfOk result (λ n. n ≤ length self.new) }
        ensures moves { IfOk result (λ n. length self.new + S.most from.new ≡ length self.old + S.most from.old) }
        ensures device { FailsOnce result Device (S.failed from.old) (S.failed from.new) }
    {
        if self.start < self.ready {
            return Ok(self.ready - self.start);
        }
        self.more(from)
    }

    /// The same where no byte that is left is known to be ready.
    #[inline(never)]
    fn more<S: Source>(&mut self, from: &mut S) -> Result<usize, PieceError>
        requires source { S.failed from.old < 2 ^ 64 - 1 }
        ensures reads { Reads (S.leaves from.old) (S.leaves from.new) (λ ys zs. IfOk result (λ n. Lies self.old ys self.new zs n)) }
        ensures within { IfOk result (λ n. n ≤ length self.new) }
        ensures moves { IfOk result (λ n. length self.new + S.most from.new ≡ length self.old + S.most from.old) }
        ensures device { FailsOnce result Device (S.failed from.old) (S.failed from.new) }
    {
        if let Some(end) = last_end(&self.held[self.start..]) {
            self.ready = self.start + end;
            return Ok(end);
        }
        forget(&mut self.held, self.start);
        self.start = 0;
        self.ready = 0;
        match gather(&mut self.held, self.chunk.as_mut_slice(), from)? {
            Some(end) => {
                self.ready = end;
                Ok(end)
            }
            None => Ok(self.held.len()),
        }
    }

    /// The first bytes of those that are held.
    #[inline]
    pub fn first(&self, n: usize) -> &[u8]
        requires { n ≤ length self.now }
        ensures { result.now ≡ take n self.now }
    {
        &self.held[self.start..self.start + n]
    }

    /// Gives the first bytes on.
    #[inline]
    pub fn skip(&mut self, n: usize)
        requires { n ≤ length self.old }
        ensures { self.new ≡ drop n self.old }
    {
        self.start += n;
    }
}
