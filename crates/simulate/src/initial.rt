//! States in which a circuit can begin.

ghost use Rattle.std.specs.Prelude.{◌≡◌, ℕ, ◌<◌, length, IsTrue, ◌↔◌, MatchOption};
ghost use Rattle.simulate.specs.Lanes.{value_in};
ghost use Rattle.simulate.specs.Starts.{IsFine, Starts, IsFirstAgainst};
ghost use Rattle.simulate.specs.Wides.{AllStart, IsFirstAgainstAny};

use crate::lanes::{negated_if, none};
use graph::Latch;
use std::simd::u64x4;

/// Whether a latch that has this value is not against its reset.
fn is_fine(latch: Latch, value: bool) -> bool
    ensures { IsTrue result ↔ IsFine latch value }
{
    match latch.reset.0 {
        0 => !value,
        1 => value,
        _ => true,
    }
}

/// The position of the first latch whose value is against its reset.
pub fn first_against(latches: &[Latch], values: &[bool]) -> Option<usize>
    requires { length values.now ≡ length latches.now }
    ensures { MatchOption result (Starts latches.now values.now) (IsFirstAgainst latches.now values.now) }
{
    for (i, latch) in latches.iter().enumerate() {
        if !is_fine(*latch, values[i]) {
            return Some(i);
        }
    }
    None
}

/// Whether a latch that has these values is not against its reset in any run.
fn are_fine(latch: Latch, values: u64x4) -> bool
    ensures { IsTrue result ↔ ((r : ℕ) → r < 256 → IsFine latch (value_in values r)) }
{
    match latch.reset.0 {
        0 => none(values),
        1 => none(negated_if(values, true)),
        _ => true,
    }
}

/// The position of the first latch that is against its reset in any run.
pub fn first_against_any(latches: &[Latch], values: &[u64x4]) -> Option<usize>
    requires { length values.now ≡ length latches.now }
    ensures { MatchOption result (AllStart latches.now values.now) (IsFirstAgainstAny latches.now values.now) }
{
    for (i, latch) in latches.iter().enumerate() {
        if !are_fine(*latch, values[i]) {
            return Some(i);
        }
    }
    None
}
