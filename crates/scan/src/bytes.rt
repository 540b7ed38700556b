//! Bytes that a text has to have.

ghost use Rattle.std.specs.Prelude.{◌≡◌, ◌<◌, length, IfErr, IfOk};
ghost use Rattle.scan.specs.Reading.{Gives};
ghost use Rattle.scan.specs.Bytes.{byte_at, tag_at};
ghost use Rattle.scan.specs.Refusals.{IsPlaced, IsTagFault, byte_fault};

use crate::fault::{Fault, Kinds};

/// What follows this byte.
#[inline(always)]
pub fn byte<K: Copy>(text: &[u8], wanted: u8, kinds: Kinds<K>) -> Result<&[u8], Fault<K>>
    ensures value { Gives (λ x. x.now) result (byte_at wanted text.now) }
    ensures shorter { IfOk result (λ x. length x.now < length text.now) }
    ensures refusal { IfErr result (λ e. e ≡ byte_fault kinds text.now) }
    ensures place { IsPlaced text.now result }
{
    match text {
        [] => Err(Fault::Text {
            kind: kinds.truncated,
            left: 0,
        }),
        [first, rest @ ..] if *first == wanted => Ok(rest),
        _ => Err(Fault::Text {
            kind: kinds.byte,
            left: text.len(),
        }),
    }
}

/// What follows these bytes. A fault is reported at the first byte that differs.
pub fn tag<'a, K: Copy>(
    text: &'a [u8],
    wanted: &[u8],
    kinds: Kinds<K>,
) -> Result<&'a [u8], Fault<K>>
    ensures value { Gives (λ x. x.now) result (tag_at wanted.now text.now) }
    ensures refusal { IfErr result (λ e. IsTagFault kinds wanted.now text.now e) }
    ensures place { IsPlaced text.now result }
{
    let mut rest = text;
    for c in wanted {
        rest = byte(rest, *c, kinds)?;
    }
    Ok(rest)
}
