//! Whole texts, moved from a source and to a sink.

ghost use Rattle.std.specs.Prelude.{◌≡◌, ◌-◌, ◌^◌, ◌<◌, ◌≤◌, [], length, MatchResult, IfOk, OnOk, OnErr};
ghost use Rattle.std.specs.Io.KnownBytes.{Appends};
ghost use Rattle.base.specs.Devices.{CountsFailure, PutsBeginning, Reads, FailsOnce};

use crate::grow;
use crate::refused::Refused;
use crate::sink::Sink;
use crate::source::{Failed, Source};
use std::alloc::Global;

/// Why a source was not read to its end.
#[derive(Clone, Copy, Debug)]
pub enum ReadAllError {
    /// A growth was refused.
    OutOfMemory(Refused),
    /// The source failed.
    Device,
    /// The source has more bytes than the limit.
    TooLong,
}

/// How many bytes are asked for at once.
const CHUNK: usize = 16_384;

/// All the bytes that a source still gives, where they are `limit` at most. Past the limit it
/// stops.
pub fn read_all<S: Source>(
    alloc: Global,
    source: &mut S,
    limit: usize,
) -> Result<Vec<u8>, ReadAllError>
    requires { S.failed source.old < 2 ^ 64 - 1 }
    ensures reads { Reads (S.leaves source.old) (S.leaves source.new) (λ xs later. MatchResult result (λ v. (v.items ≡ xs) × (later ≡ [])) (λ e. e ≡ ReadAllError.TooLong → limit < length xs)) }
    ensures within { IfOk result (λ v. length v.items ≤ limit) }
    ensures device { FailsOnce result ReadAllError.Device (S.failed source.old) (S.failed source.new) }
{
    let mut bytes = Vec::new(alloc);
    let mut chunk = [0u8; CHUNK];
    'reading: loop {
        let n = match source.take(&mut chunk) {
            Ok(n) => n,
            Err(Failed) => return Err(ReadAllError::Device),
        };
        if n == 0 {
            return Ok(bytes);
        }
        if n > limit - bytes.len() {
            return Err(ReadAllError::TooLong);
        }
        if let Err(refused) = grow::extend(&mut bytes, &chunk[..n]) {
            return Err(ReadAllError::OutOfMemory(refused));
        }
    }
}

/// Why a source was not read to its end, where there is no limit.
#[derive(Clone, Copy, Debug)]
pub enum ReadToEndError {
    /// A growth was refused.
    OutOfMemory(Refused),
    /// The source failed.
    Device,
}

/// All the bytes that a source still gives, however many there are.
pub fn read_to_end<S: Source>(alloc: Global, source: &mut S) -> Result<Vec<u8>, ReadToEndError>
    requires { S.failed source.old < 2 ^ 64 - 1 }
    ensures reads { Reads (S.leaves source.old) (S.leaves source.new) (λ xs later. IfOk result (λ v. (v.items ≡ xs) × (later ≡ []))) }
    ensures device { FailsOnce result ReadToEndError.Device (S.failed source.old) (S.failed source.new) }
{
    let mut bytes = Vec::new(alloc);
    let mut chunk = [0u8; CHUNK];
    'reading: loop {
        let n = match source.take(&mut chunk) {
            Ok(n) => n,
            Err(Failed) => return Err(ReadToEndError::Device),
        };
        if n == 0 {
            return Ok(bytes);
        }
        if let Err(refused) = grow::extend(&mut bytes, &chunk[..n]) {
            return Err(ReadToEndError::OutOfMemory(refused));
        }
    }
}

/// Puts all of the bytes. After a failure a beginning of them was put.
pub fn put_all<W: Sink>(out: &mut W, bytes: &[u8]) -> Result<(), Failed>
    requires { W.failed out.old < 2 ^ 64 - 1 }
    ensures whole { OnOk result (Appends (W.contents out.old) (W.contents out.new) bytes.now) }
    ensures beginning { OnErr result (PutsBeginning (W.contents out.old) (W.contents out.new) bytes.now) }
    ensures counts { CountsFailure (W.failed out.old) (W.failed out.new) result }
{
    let mut rest = bytes;
    'putting: while !rest.is_empty() {
        let n = out.put(rest)?;
        rest = &rest[n..];
    }
    Ok(())
}
