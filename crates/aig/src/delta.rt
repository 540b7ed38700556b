//! Differences between the literals of a gate.

ghost use Rattle.std.specs.Prelude.{◌≡◌, ◌%◌, ◌≤◌, IfOk};
ghost use Rattle.scan.specs.Reading.{Gives};
ghost use Rattle.graph.specs.declared.error.ReadError.TheVariants.{Delta};
ghost use Rattle.aig.specs.Lines.{groups_at, delta_at};

use aag::{LayoutFault, ReadFault};
use graph::ReadError;
use scan::Fault;

/// No difference between a gate's literals.
#[derive(Clone, Copy)]
pub struct NoDelta;

impl LayoutFault for NoDelta {
    ghost at_byte = { λ _. Delta };

    fn at(self, place: u64) -> ReadError {
        ReadError::Delta(place)
    }
}

/// The group of seven bits in a byte.
fn group(byte: u8) -> u32
    ensures { result ≡ byte % 128 }
{
    u32::from(byte % 128)
}

/// The number that comes next, in at most four groups of seven bits, and what follows it.
#[tactic(auto, unfolding(crate::specs::Lines::groups_at))]
#[inline(always)]
fn groups(text: &[u8]) -> Result<(u32, &[u8]), Fault<ReadFault<NoDelta>>>
    ensures { Gives (λ x. (x.0, x.1.now)) result (groups_at 4 text.now) }
{
    match text {
        [a, rest @ ..] if *a < 128 => Ok((u32::from(*a), rest)),
        [_, 0, ..] => Err(Fault::Text {
            kind: ReadFault::Layout(NoDelta),
            left: text.len(),
        }),
        [a, b, rest @ ..] if *b < 128 => Ok((group(*a) + 128 * u32::from(*b), rest)),
        [_, _, 0, ..] => Err(Fault::Text {
            kind: ReadFault::Layout(NoDelta),
            left: text.len(),
        }),
        [a, b, c, rest @ ..] if *c < 128 => Ok((
            group(*a) + 128 * group(*b) + 16_384 * u32::from(*c),
            rest,
        )),
        [a, b, c, d, rest @ ..] if 0 < *d && *d < 128 => Ok((
            group(*a) + 128 * group(*b) + 16_384 * group(*c) + 2_097_152 * u32::from(*d),
            rest,
        )),
        [_, _, _, _, ..] => Err(Fault::Text {
            kind: ReadFault::Layout(NoDelta),
            left: text.len(),
        }),
        _ => Err(Fault::Text {
            kind: ReadFault::Truncated,
            left: 0,
        }),
    }
}

/// The difference that comes next, from `least` to `most`, and what follows it.
#[tactic(auto, unfolding(crate::specs::Lines::delta_at))]
#[inline(always)]
pub fn delta(text: &[u8], least: u32, most: u32) -> Result<(u32, &[u8]), Fault<ReadFault<NoDelta>>>
    ensures value { Gives (λ x. (x.0, x.1.now)) result (delta_at least most text.now) }
    ensures within { IfOk result (λ x. x.0 ≤ most) }
{
    let (number, rest) = groups(text)?;
    if number < least || most < number {
        return Err(Fault::Text {
            kind: ReadFault::Layout(NoDelta),
            left: text.len(),
        });
    }
    Ok((number, rest))
}
