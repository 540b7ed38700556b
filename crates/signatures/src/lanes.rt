//! Truth values of 256 runs, as four words.

use rand_core::utils::NextWord;
use rand_pcg::Lcg128Xsl64;
use std::simd::u64x4;

/// One value for all runs.
pub(crate) fn all(value: bool) -> u64x4 {
    u64x4::splat(if value { u64::MAX } else { 0 })
}

/// Each run's value, or its negation.
pub(crate) fn negated_if(values: u64x4, is_negated: bool) -> u64x4 {
    values ^ all(is_negated)
}

/// In each run the one value where this one is true, else the other one.
pub(crate) fn chosen(by: u64x4, high: u64x4, low: u64x4) -> u64x4 {
    low ^ (by & (low ^ high))
}

/// A value for each run, each as likely as the other.
pub(crate) fn uniform(generator: &mut Lcg128Xsl64) -> u64x4 {
    let first = generator.next_word();
    let second = generator.next_word();
    let third = generator.next_word();
    let fourth = generator.next_word();
    u64x4::from_array([first, second, third, fourth])
}

/// A value for each run, true in one of sixteen.
pub(crate) fn rare(generator: &mut Lcg128Xsl64) -> u64x4 {
    let first = uniform(generator) & uniform(generator);
    let second = uniform(generator) & uniform(generator);
    first & second
}

/// These bits in the lane of this number, and none in others.
pub(crate) fn in_lane(bits: u64, lane: u32) -> u64x4 {
    match lane {
        0 => u64x4::from_array([bits, 0, 0, 0]),
        1 => u64x4::from_array([0, bits, 0, 0]),
        2 => u64x4::from_array([0, 0, bits, 0]),
        _ => u64x4::from_array([0, 0, 0, bits]),
    }
}
