//! Numbers in canonical decimal.

ghost use Rattle.std.specs.Prelude.{◌≡◌, ◌<◌, ◌≤◌, length, IfErr, IfOk};
ghost use Rattle.scan.specs.Reading.{Gives};
ghost use Rattle.scan.specs.Numbers.{at_most, begins_digit, digits_after, number_at};
ghost use Rattle.scan.specs.Refusals.{IsPlaced, number_fault};

use crate::fault::{Fault, Kinds};

/// How many digits are read behind the first without a look at the limit: no number of these passes 64 bits.
const UNLOOKED: usize = 9;

/// The digits that come next, behind a number. A number past the limit is some number past it. Many numbers
/// are one digit, and end here at once.
#[inline(always)]
fn digits(text: &[u8], limit: u32, first: u8) -> (u64, &[u8])
    requires { first < 10 }
    ensures value { at_most limit (result.0, result.1.now) ≡ at_most limit (digits_after limit first text.now) }
    ensures shorter { length result.1.now ≤ length text.now }
{
    if !has_digit(text) {
        return (u64::from(first), text);
    }
    let mut value = u64::from(first);
    let near = text.len().min(UNLOOKED);
    for (i, c) in text[..near].iter().enumerate() {
        if !c.is_ascii_digit() {
            return (value, &text[i..]);
        }
        value = value * 10 + u64::from(*c - b'0');
    }
    more_digits(&text[near..], limit, value)
}

/// The digits that come next, behind a number of ten digits. A number past the limit stays what it is.
#[cold]
#[inline(never)]
fn more_digits(text: &[u8], limit: u32, first: u64) -> (u64, &[u8])
    requires { first < 10000000000 }
    ensures value { (result.0, result.1.now) ≡ digits_after limit first text.now }
    ensures shorter { length result.1.now ≤ length text.now }
{
    let mut value = first;
    for (i, c) in text.iter().enumerate() {
        if !c.is_ascii_digit() {
            return (value, &text[i..]);
        }
        if value <= u64::from(limit) {
            value = value * 10 + u64::from(*c - b'0');
        }
    }
    (value, &text[text.len()..])
}

/// Whether a digit comes next.
#[inline(always)]
fn has_digit(text: &[u8]) -> bool
    ensures { result ≡ begins_digit text.now }
{
    match text {
        [] => false,
        [c, ..] => c.is_ascii_digit(),
    }
}

/// As `number`, with the place that a fault of the number is to have.
#[tactic(auto, unfolding(crate::specs::Numbers::number_at))]
#[inline(always)]
pub(crate) fn number_from<K: Copy>(
    text: &[u8],
    left: usize,
    limit: u32,
    kinds: Kinds<K>,
) -> Result<(u32, &[u8]), Fault<K>>
    ensures value { Gives (λ x. (x.0, x.1.now)) result (number_at limit text.now) }
    ensures within { IfOk result (λ x. x.0 ≤ limit) }
    ensures shorter { IfOk result (λ x. length x.1.now < length text.now) }
    ensures refusal { IfErr result (λ e. e ≡ number_fault kinds left text.now) }
{
    let [first, after @ ..] = text else {
        return Err(Fault::Text {
            kind: kinds.truncated,
            left: 0,
        });
    };
    if !first.is_ascii_digit() || (*first == b'0' && has_digit(after)) {
        return Err(Fault::Text {
            kind: kinds.number,
            left,
        });
    }
    let (value, rest) = digits(after, limit, *first - b'0');
    if value > u64::from(limit) {
        return Err(Fault::Text {
            kind: kinds.over,
            left,
        });
    }
    Ok((value as u32, rest))
}

/// The number that the text begins with, of at most `limit`, and what follows it: the longest run
/// of digits, of which no 0 stands before another. Every fault of it is reported at its first byte, in
/// one pass however long the run is.
#[inline(always)]
pub fn number<K: Copy>(text: &[u8], limit: u32, kinds: Kinds<K>) -> Result<(u32, &[u8]), Fault<K>>
    ensures value { Gives (λ x. (x.0, x.1.now)) result (number_at limit text.now) }
    ensures within { IfOk result (λ x. x.0 ≤ limit) }
    ensures shorter { IfOk result (λ x. length x.1.now < length text.now) }
    ensures refusal { IfErr result (λ e. e ≡ number_fault kinds (length text.now) text.now) }
    ensures place { IsPlaced text.now result }
{
    number_from(text, text.len(), limit, kinds)
}
