//! Where bytes come from.

ghost use Rattle.std.specs.Prelude.{◌≡◌, ℕ, ◌-◌, ◌^◌, ◌<◌, List, [], false, Ok, length};
ghost use Rattle.base.specs.Devices.{FitsSlice, CountsFailure, LowersMost, TakeMoves, IsLeft};
ghost use Rattle.std.proofs.Common.{refl, sym, ◌∙◌};
ghost use Rattle.std.proofs.lemmas.List.{append_cancel_left};
ghost use Rattle.base.specs.Left.{some_left};

use crate::given::Given;
use std::io::Read;

/// A device failed: nothing was moved, and its count of failures rose by one.
#[derive(Clone, Copy, Debug)]
pub struct Failed;

/// Where bytes come from.
pub trait Source {
    /// How often the source has failed.
    ghost failed: { Self → ℕ };

    /// How many bytes it can still give at most.
    ghost most: { Self → ℕ };

    /// A text that this source may be giving, and the part of it that is still to come.
    ghost leaves: { Self → List ℕ → List ℕ → Type 0 };

    /// Moves the next bytes to the front of the slice and answers how many. A slice that is not
    /// empty gets 0 only at the end.
    fn take(&mut self, into: &mut [u8]) -> Result<usize, Failed>
        requires { failed self.old < 2 ^ 64 - 1 }
        ensures fits { FitsSlice result into.old }
        ensures empty { length into.old ≡ 0 → result ≡ Ok 0 }
        ensures counts { CountsFailure (failed self.old) (failed self.new) result }
        ensures lowers { LowersMost (most self.old) (most self.new) result }
        ensures bytes { TakeMoves (leaves self.old) (leaves self.new) result into.new };

    /// How often the source has failed.
    fn failures(&self) -> u64
        ensures { result ≡ failed self.now };

    /// There is always a text that it may be giving.
    ghost some: { (s : Self) → (text : List ℕ) × (later : List ℕ) × leaves s text later };

    /// The text determines what is still to come.
    ghost one: { (s : Self) (text a b : List ℕ) → leaves s text a → leaves s text b → a ≡ b };
}

/// The bytes of a slice. A contract sees those that are still to come.
#[derive(Drop)]
pub struct FromBytes<'a> {
    rest: &'a [u8],
}

impl<'a> std::marker::Model for FromBytes<'a> {
    ghost use Rattle.std.specs.Prelude.{ℕ, List};

    ghost Value = { List ℕ };

    ghost view = { λ s. s.rest.now };
}

impl<'a> FromBytes<'a> {
    /// A source that gives these bytes.
    pub fn new(bytes: &'a [u8]) -> FromBytes<'a>
        ensures { result ≡ bytes.now }
    {
        FromBytes { rest: bytes }
    }
}

impl Source for FromBytes<'_> {
    ghost failed = { λ _. 0 };

    ghost most = { λ bytes. length bytes };

    ghost leaves = { λ bytes _ later. later ≡ bytes };

    fn take(&mut self, into: &mut [u8]) -> Result<usize, Failed> {
        let n = self.rest.len().min(into.len());
        into[..n].copy_from_slice(&self.rest[..n]);
        self.rest = &self.rest[n..];
        Ok(n)
    }

    fn failures(&self) -> u64 {
        0
    }

    ghost some = { λ s. ([], s, refl) };

    ghost one = { λ s text a b x y. x ∙ sym y };
}

/// A reader of std. It gives 2^64 - 1 bytes in all at most and fails from then on, so that every
/// reading ends. An interrupted read counts as a failure.
#[derive(Drop)]
pub struct FromRead<R> {
    reader: R,
    given: Given,
    count: u64,
    ended: bool,
    failures: u64,
}

impl<R> std::marker::Model for FromRead<R> {
    ghost use Rattle.base.specs.Devices.{Reader};

    ghost Value = { Reader R };

    ghost view = { λ s. record { reader = s.reader; given = s.given.bytes; count = s.count; ended = s.ended; failures = s.failures } };
}

impl<R: Read> FromRead<R> {
    /// A source over the reader, which has not failed.
    pub fn new(reader: R) -> FromRead<R>
        ensures { result ≡ record { reader = reader; given = []; count = 0; ended = false; failures = 0 } }
    {
        FromRead {
            reader,
            given: Given::new(),
            count: 0,
            ended: false,
            failures: 0,
        }
    }
}

impl<R: Read> Source for FromRead<R> {
    ghost failed = { λ s. s.failures };

    ghost most = { λ s. 2 ^ 64 - 1 - s.count };

    // What was given is the text's beginning, after the end nothing is given, and a reader that tells its bytes gives these.
    ghost leaves = { λ s. IsLeft s.given s.ended (R.remaining s.reader) };

    fn take(&mut self, into: &mut [u8]) -> Result<usize, Failed> {
        if into.is_empty() || self.ended {
            return Ok(0);
        }
        let left = u64::MAX - self.count;
        if left == 0 {
            self.failures += 1;
            return Err(Failed);
        }
        let room = into.len().min(left as usize);
        match self.reader.read(&mut into[..room]) {
            Ok(n) => {
                self.given = self.given.and(&into[..n]);
                self.count += n as u64;
                self.ended = n == 0;
                Ok(n)
            }
            Err(_) => {
                self.failures += 1;
                Err(Failed)
            }
        }
    }

    fn failures(&self) -> u64 {
        self.failures
    }

    ghost some = { λ s. some_left s.given s.ended (R.remaining s.reader) };

    ghost one = { λ s text a b x y. append_cancel_left s.given a b (sym x.0 ∙ y.0) };
}
