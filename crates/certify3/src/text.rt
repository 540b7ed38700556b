//! A text in memory.

ghost use Rattle.std.specs.Prelude.{◌≡◌, [], Some};

use base::{Failed, Refused, Seq, Sink, extend};
use std::alloc::Global;
use std::marker::Model;

/// A sink that keeps its bytes, and why it failed.
#[derive(Drop)]
pub struct Text {
    bytes: Vec<u8>,
    failures: u64,
    /// why it failed last
    refused: Option<Refused>,
}

impl Model for Text {
    ghost use Rattle.base.specs.Devices.{Written};

    ghost Value = { Written };

    ghost view = { λ s. record { bytes = s.bytes.items; failures = s.failures } };
}

impl Text {
    /// A sink to which nothing is put yet.
    pub fn new(alloc: Global) -> Text
        ensures { result ≡ record { bytes = []; failures = 0 } }
    {
        Text {
            bytes: Vec::new(alloc),
            failures: 0,
            refused: None,
        }
    }

    /// Why it failed last.
    pub fn refused(&self) -> Option<Refused> {
        self.refused
    }

    /// The bytes put.
    pub fn into_bytes(self) -> Seq<u8>
        ensures { result ≡ self.bytes }
    {
        Seq::from_vec(self.bytes)
    }
}

impl Sink for Text {
    ghost failed = { λ s. s.failures };

    ghost contents = { λ s. Some s.bytes };

    fn put(&mut self, from: &[u8]) -> Result<usize, Failed> {
        if from.is_empty() {
            return Ok(0);
        }
        match extend(&mut self.bytes, from) {
            Ok(()) => Ok(from.len()),
            Err(refused) => {
                self.failures += 1;
                self.refused = Some(refused);
                Err(Failed)
            }
        }
    }

    fn failures(&self) -> u64 {
        self.failures
    }
}
