//! Numbers with a sign, in a list that a 0 ends.

ghost use Rattle.std.specs.Prelude.{◌≡◌, ◌<◌, length, IfErr, IfOk};
ghost use Rattle.scan.specs.Reading.{Gives};
ghost use Rattle.scan.specs.Refusals.{IsPlaced, IsWithin, fault_behind_minus, signed_fault, word_fault};
ghost use Rattle.scan.specs.Numbers.{number_at};
ghost use Rattle.scan.specs.Signed.{negative_at, positive_at, signed_at};

use crate::bytes::byte;
use crate::fault::{Fault, Kinds};
use crate::numbers::{number, number_from};

/// What follows a minus. A fault of the number is reported at the minus, where the number begins.
#[inline(always)]
fn negative<K: Copy>(
    text: &[u8],
    left: usize,
    limit: u32,
    kinds: Kinds<K>,
) -> Result<(Option<i64>, &[u8]), Fault<K>>
    ensures value { Gives (λ x. (x.0, x.1.now)) result (negative_at limit text.now) }
    ensures shorter { IfOk result (λ x. length x.1.now < length text.now) }
    ensures refusal { IfErr result (λ e. e ≡ fault_behind_minus kinds left text.now (number_at limit text.now)) }
    ensures place { length text.now < left → IsWithin left result }
{
    let (size, rest) = number_from(text, left, limit, kinds)?;
    if size == 0 {
        return Err(Fault::Text {
            kind: kinds.number,
            left,
        });
    }
    let rest = byte(rest, b' ', kinds)?;
    Ok((Some(-i64::from(size)), rest))
}

/// A number without a minus.
#[inline(always)]
fn positive<K: Copy>(
    text: &[u8],
    limit: u32,
    end: u8,
    kinds: Kinds<K>,
) -> Result<(Option<i64>, &[u8]), Fault<K>>
    ensures value { Gives (λ x. (x.0, x.1.now)) result (positive_at limit end text.now) }
    ensures shorter { IfOk result (λ x. length x.1.now < length text.now) }
    ensures refusal { IfErr result (λ e. e ≡ word_fault kinds limit text.now) }
    ensures place { IsPlaced text.now result }
{
    let (value, rest) = number(text, limit, kinds)?;
    if value == 0 {
        let rest = byte(rest, end, kinds)?;
        return Ok((None, rest));
    }
    let rest = byte(rest, b' ', kinds)?;
    Ok((Some(i64::from(value)), rest))
}

/// A number other than 0 of at most `limit` on either side, which a space follows, or none for the
/// 0 that ends a list, which `end` follows; and what follows that (LRAT, 2017). A digit from 1 to 9
/// has to follow a minus, and every fault of such a number is reported at its minus.
#[inline(always)]
pub fn signed<K: Copy>(
    text: &[u8],
    limit: u32,
    end: u8,
    kinds: Kinds<K>,
) -> Result<(Option<i64>, &[u8]), Fault<K>>
    ensures value { Gives (λ x. (x.0, x.1.now)) result (signed_at limit end text.now) }
    ensures shorter { IfOk result (λ x. length x.1.now < length text.now) }
    ensures refusal { IfErr result (λ e. e ≡ signed_fault kinds limit text.now) }
    ensures place { IsPlaced text.now result }
{
    match text {
        [b'-', after @ ..] => negative(after, text.len(), limit, kinds),
        _ => positive(text, limit, end, kinds),
    }
}
