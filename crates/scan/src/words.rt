//! Numbers and the bytes that end them.

ghost use Rattle.std.specs.Prelude.{◌≡◌, ◌≤◌, IfErr, IfOk};
ghost use Rattle.scan.specs.Reading.{Gives};
ghost use Rattle.scan.specs.Bytes.{either};
ghost use Rattle.scan.specs.Refusals.{IsPlaced, word_fault};
ghost use Rattle.scan.specs.Words.{any, field_at, word_at};

use crate::bytes::byte;
use crate::fault::{Fault, Kinds};
use crate::numbers::number;

/// A number of at most `limit`, and what follows the byte `end` behind it.
#[tactic(auto, unfolding(crate::specs::Words::field_at))]
#[inline(always)]
pub fn field<K: Copy>(
    text: &[u8],
    limit: u32,
    end: u8,
    kinds: Kinds<K>,
) -> Result<(u32, &[u8]), Fault<K>>
    ensures value { Gives (λ x. (x.0, x.1.now)) result (field_at limit any end text.now) }
    ensures within { IfOk result (λ x. x.0 ≤ limit) }
    ensures refusal { IfErr result (λ e. e ≡ word_fault kinds limit text.now) }
    ensures place { IsPlaced text.now result }
{
    let (number, rest) = number(text, limit, kinds)?;
    let rest = byte(rest, end, kinds)?;
    Ok((number, rest))
}

/// A number of at most `limit`, which of the two bytes ends it, and what follows that.
#[tactic(auto, unfolding(crate::specs::Words::word_at))]
#[inline]
pub fn word<K: Copy>(
    text: &[u8],
    limit: u32,
    ends: (u8, u8),
    kinds: Kinds<K>,
) -> Result<(u32, u8, &[u8]), Fault<K>>
    ensures value { Gives (λ x. ((x.0, x.1), x.2.now)) result (word_at limit any (either ends.0 ends.1) text.now) }
    ensures within { IfOk result (λ x. x.0 ≤ limit) }
    ensures refusal { IfErr result (λ e. e ≡ word_fault kinds limit text.now) }
    ensures place { IsPlaced text.now result }
{
    let (number, rest) = number(text, limit, kinds)?;
    match rest {
        [] => Err(Fault::Text {
            kind: kinds.truncated,
            left: 0,
        }),
        [end, after @ ..] if *end == ends.0 || *end == ends.1 => Ok((number, *end, after)),
        _ => Err(Fault::Text {
            kind: kinds.byte,
            left: rest.len(),
        }),
    }
}
