//! The counts of a header.

ghost use Rattle.std.specs.Prelude.{◌≡◌, ◌-◌, ◌<◌, ◌≤◌, All, IfErr, IfOk, length};
ghost use Rattle.scan.specs.Reading.{Gives};
ghost use Rattle.scan.specs.Refusals.{IsPlaced, word_fault};
ghost use Rattle.scan.specs.Words.{any, word_at};
ghost use Rattle.scan.specs.Counts.{IsCountsFault, counts_at, ends_count};

use crate::fault::{Fault, Kinds};
use crate::numbers::number;

/// How many counts may follow the first number of a header.
const MOST: usize = 8;

/// How many of them have to.
const LEAST: usize = 4;

/// The count at position `i`, and the byte that ends it.
#[tactic(auto, unfolding(crate::specs::Words::word_at))]
fn count<K: Copy>(
    text: &[u8],
    i: usize,
    limit: u32,
    kinds: Kinds<K>,
) -> Result<(u32, u8, &[u8]), Fault<K>>
    requires { i < 8 }
    ensures value { Gives (λ x. ((x.0, x.1), x.2.now)) result (word_at limit any (ends_count (7 - i)) text.now) }
    ensures within { IfOk result (λ x. x.0 ≤ limit) }
    ensures shorter { IfOk result (λ x. length x.2.now ≤ length text.now) }
    ensures refusal { IfErr result (λ e. e ≡ word_fault kinds limit text.now) }
    ensures place { IsPlaced text.now result }
{
    let (count, rest) = number(text, limit, kinds)?;
    match rest {
        [] => Err(Fault::Text {
            kind: kinds.truncated,
            left: 0,
        }),
        [end, after @ ..] if (*end == b' ' && i + 1 < MOST) || (*end == b'\n' && LEAST <= i + 1) =>
            { Ok((count, *end, after)) }
        _ => Err(Fault::Text {
            kind: kinds.byte,
            left: rest.len(),
        }),
    }
}

/// The counts that follow the first number of an AIGER header and its space: four to eight of at
/// most `limit`, a space between them and a line end behind the last, and 0 for each that is left
/// out (AIGER 1.9). A byte that may not end a count is reported as `kinds.byte`.
pub fn counts<K: Copy>(
    text: &[u8],
    limit: u32,
    kinds: Kinds<K>,
) -> Result<([u32; 8], &[u8]), Fault<K>>
    ensures value { Gives (λ x. (x.0, x.1.now)) result (counts_at limit 8 text.now) }
    ensures within { IfOk result (λ x. All (λ n. n ≤ limit) x.0) }
    ensures refusal { IfErr result (λ e. IsCountsFault kinds limit text.now e) }
    ensures place { IsPlaced text.now result }
{
    let mut counts = [0; MOST];
    let mut rest = text;
    for i in 0..MOST {
        let (count, end, after) = count(rest, i, limit, kinds)?;
        counts[i] = count;
        rest = after;
        if end == b'\n' {
            return Ok((counts, rest));
        }
    }
    Ok((counts, rest))
}
