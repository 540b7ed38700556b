//! Where bytes go.

ghost use Rattle.std.specs.Prelude.{◌≡◌, ℕ, ◌-◌, ◌^◌, ◌<◌, List, Option, Some, Ok, length, []};
ghost use Rattle.std.specs.Io.KnownBytes.{WriteAppends};
ghost use Rattle.base.specs.Devices.{FitsSlice, MovesSome, CountsFailure};

use crate::source::Failed;
use std::alloc::Global;
use std::io::Write;

/// Where bytes go.
pub trait Sink {
    /// How often the sink has failed.
    ghost failed: { Self → ℕ };

    /// The bytes put so far, where the sink tells them.
    ghost contents: { Self → Option (List ℕ) };

    /// Puts the first bytes of the slice and answers how many: at least one, where there is one.
    fn put(&mut self, from: &[u8]) -> Result<usize, Failed>
        requires { failed self.old < 2 ^ 64 - 1 }
        ensures fits { FitsSlice result from.now }
        ensures moves { MovesSome result from.now }
        ensures empty { length from.now ≡ 0 → result ≡ Ok 0 }
        ensures counts { CountsFailure (failed self.old) (failed self.new) result }
        ensures bytes { WriteAppends (contents self.old) (contents self.new) result from.now };

    /// How often the sink has failed.
    fn failures(&self) -> u64
        ensures { result ≡ failed self.now };
}

/// A `Vec` that grows. Want of memory counts as a failure.
#[derive(Drop)]
pub struct ToVec {
    bytes: Vec<u8>,
    failures: u64,
}

impl std::marker::Model for ToVec {
    ghost use Rattle.base.specs.Devices.{Written};

    ghost Value = { Written };

    ghost view = { λ s. record { bytes = s.bytes.items; failures = s.failures } };
}

impl ToVec {
    /// A sink to which nothing is put yet.
    pub fn new(alloc: Global) -> ToVec
        ensures { result ≡ record { bytes = []; failures = 0 } }
    {
        ToVec {
            bytes: Vec::new(alloc),
            failures: 0,
        }
    }

    /// The bytes put so far.
    pub fn as_slice(&self) -> &[u8]
        ensures { result.now ≡ self.now.bytes }
    {
        self.bytes.as_slice()
    }

    /// The `Vec` of the bytes put.
    pub fn into_vec(self) -> Vec<u8>
        ensures { result.items ≡ self.bytes }
    {
        let ToVec { bytes, failures: _ } = self;
        bytes
    }
}

impl Sink for ToVec {
    ghost failed = { λ s. s.failures };

    ghost contents = { λ s. Some s.bytes };

    fn put(&mut self, from: &[u8]) -> Result<usize, Failed> {
        if from.is_empty() {
            return Ok(0);
        }
        match self.bytes.extend_from_slice(from) {
            Ok(()) => Ok(from.len()),
            Err(_) => {
                self.failures += 1;
                Err(Failed)
            }
        }
    }

    fn failures(&self) -> u64 {
        self.failures
    }
}

/// A writer of std. An interrupted write and a write of 0 bytes count as failures.
#[derive(Drop)]
pub struct ToWrite<W> {
    writer: W,
    failures: u64,
}

impl<W> std::marker::Model for ToWrite<W> {
    ghost use Rattle.base.specs.Devices.{Writer};

    ghost Value = { Writer W };

    ghost view = { λ s. record { writer = s.writer; failures = s.failures } };
}

impl<W: Write> ToWrite<W> {
    /// A sink over the writer, which has not failed.
    pub fn new(writer: W) -> ToWrite<W>
        ensures { result ≡ record { writer = writer; failures = 0 } }
    {
        ToWrite {
            writer,
            failures: 0,
        }
    }

    /// The writer.
    pub fn into_inner(self) -> W
        ensures { result ≡ self.writer }
    {
        let ToWrite {
            writer,
            failures: _,
        } = self;
        writer
    }
}

impl<W: Write> Sink for ToWrite<W> {
    ghost failed = { λ s. s.failures };

    ghost contents = { λ s. W.contents s.writer };

    fn put(&mut self, from: &[u8]) -> Result<usize, Failed> {
        if from.is_empty() {
            return Ok(0);
        }
        match self.writer.write(from) {
            Ok(n) if n > 0 => Ok(n),
            _ => {
                self.failures += 1;
                Err(Failed)
            }
        }
    }

    fn failures(&self) -> u64 {
        self.failures
    }
}
