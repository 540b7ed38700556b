//! Reading all the bytes of a source.

ghost use Rattle.std.specs.Prelude.{◌≡◌, ◌+◌, ◌-◌, ◌<◌, ◌^◌, MatchResult, IsErrOf, IfOk};
ghost use Rattle.base.specs.Devices.{IsAtEnd, Reads};
ghost use Rattle.aiger.specs.Loading.{IsFileOf, IsRefusal};
ghost use Rattle.aiger.specs.declared.load_error.LoadError.TheVariants.{Device};

use crate::load_error::LoadError;
use crate::reading::read;
use base::{ReadAllError, Source, read_all};
use graph::{AigerFile, LONGEST_TEXT, ReadError};
use std::alloc::Global;

/// The file that the bytes of a source spell (AIGER 1.9), binary where the second byte is `i`, and
/// else ASCII. Of a text that is longer than a circuit's may be, no more is read than shows it.
pub fn load<S: Source>(alloc: Global, source: &mut S) -> Result<AigerFile, LoadError>
    requires { S.failed source.old < 2 ^ 64 - 1 }
    // The one file that the bytes spell; and where it is refused, they spell none, or memory was refused. But for
    // that, it is refused as too long exactly where there are more than 67108864 bytes.
    ensures says { Reads (S.leaves source.old) (S.leaves source.new) (λ xs _. MatchResult result (IsFileOf xs) (IsRefusal xs)) }
    // A file is of all the bytes: the source told its end.
    ensures ended { IfOk result (λ _. IsAtEnd (S.leaves source.new)) }
    // The source failed once where it is reported so, and else not.
    ensures failed { IsErrOf result Device → S.failed source.new ≡ S.failed source.old + 1 }
    ensures kept { (IsErrOf result Device → ⊥) → S.failed source.new ≡ S.failed source.old }
{
    let text = match read_all(alloc, source, LONGEST_TEXT) {
        Ok(text) => text,
        Err(ReadAllError::OutOfMemory(refused)) => {
            return Err(LoadError::Refused(ReadError::OutOfMemory(refused)));
        }
        Err(ReadAllError::TooLong) => return Err(LoadError::Refused(ReadError::TooLong)),
        Err(ReadAllError::Device) => return Err(LoadError::Device),
    };
    let file = read(alloc, text.as_slice())?;
    Ok(file)
}
