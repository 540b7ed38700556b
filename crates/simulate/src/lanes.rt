//! Truth values of 256 runs, as four words: that of run `r` is bit `r mod 64` of lane `r / 64`.

ghost use Rattle.std.specs.Prelude.{◌≡◌, ◌↔◌, ℕ, ◌<◌, not, ◌&&◌, if◌then◌else◌, false, length, IsTrue, MatchOption};
ghost use Rattle.simulate.specs.Lanes.{value_in, IsLowest};

use std::simd::u64x4;

/// How many runs there are.
pub const RUNS: u32 = 256;

/// The word whose 64 bits all have this value.
fn word(value: bool) -> u64
    ensures { result ≡ (if value then 18446744073709551615 else 0) }
{
    if value { u64::MAX } else { 0 }
}

/// One value for all runs.
pub fn all(value: bool) -> u64x4
    ensures { (r : ℕ) → r < 256 → value_in result r ≡ value }
{
    u64x4::splat(word(value))
}

/// The value of a run.
pub fn value(lanes: u64x4, run: u32) -> bool
    requires { run < 256 }
    ensures { result ≡ value_in lanes run }
{
    let words = lanes.to_array();
    (words[(run / 64) as usize] >> (run % 64)) & 1 == 1
}

/// Each run's value, or its negation.
pub fn negated_if(lanes: u64x4, is_negated: bool) -> u64x4
    ensures { (r : ℕ) → r < 256 → value_in result r ≡ (if is_negated then not (value_in lanes r) else value_in lanes r) }
{
    lanes ^ u64x4::splat(word(is_negated))
}

/// Each run's conjunction of two values.
pub fn both(first: u64x4, second: u64x4) -> u64x4
    ensures { (r : ℕ) → r < 256 → value_in result r ≡ (value_in first r && value_in second r) }
{
    first & second
}

/// Whether no run's value is true.
pub fn none(lanes: u64x4) -> bool
    ensures { IsTrue result ↔ ((r : ℕ) → r < 256 → value_in lanes r ≡ false) }
{
    are_zero(&lanes.to_array())
}

/// Whether no bit of four words is set.
fn are_zero(words: &[u64]) -> bool
    requires { length words.now ≡ 4 }
    ensures { IsTrue result ↔ ((r : ℕ) → r < 256 → value_in words.now r ≡ false) }
{
    for word in words {
        if *word != 0 {
            return false;
        }
    }
    true
}

/// The lowest run whose value is true.
pub fn lowest(lanes: u64x4) -> Option<u32>
    ensures { MatchOption result ((r : ℕ) → r < 256 → value_in lanes r ≡ false) (IsLowest lanes) }
{
    if none(lanes) {
        return None;
    }
    for run in 0..RUNS {
        if value(lanes, run) {
            return Some(run);
        }
    }
    None
}
