//! Drawing words.

use base::{Refused, push};
use rand_core::utils::NextWord;
use rand_pcg::Lcg128Xsl64;
use simulate::lanes::{all, both, negated_if};
use std::alloc::Global;
use std::simd::u64x4;

/// A value for each run, each as likely as the other.
pub fn uniform(generator: &mut Lcg128Xsl64) -> u64x4 {
    let first = generator.next_word();
    let second = generator.next_word();
    let third = generator.next_word();
    let fourth = generator.next_word();
    u64x4::from_array([first, second, third, fourth])
}

/// A value for each run, true in one of sixteen.
pub fn rare(generator: &mut Lcg128Xsl64) -> u64x4 {
    let first = both(uniform(generator), uniform(generator));
    let second = both(uniform(generator), uniform(generator));
    both(first, second)
}

/// How the values of an input are drawn.
#[derive(Clone, Copy)]
pub enum Bias {
    /// Each as likely as the other.
    Uniform,
    /// False, but for a quarter of the runs.
    Low,
    /// True, but for a quarter of the runs.
    High,
    /// Mostly false.
    Rare,
    /// Mostly true.
    Often,
}

impl Bias {
    /// One of them, the uniform one in half of all cases.
    fn draw(generator: &mut Lcg128Xsl64) -> Bias {
        match generator.next_word() / 2_305_843_009_213_693_952 {
            4 => Bias::Low,
            5 => Bias::High,
            6 => Bias::Rare,
            7 => Bias::Often,
            _ => Bias::Uniform,
        }
    }

    /// The values of such an input.
    fn values(self, generator: &mut Lcg128Xsl64) -> u64x4 {
        let values = match self {
            Bias::Uniform => uniform(generator),
            Bias::Low => all(false),
            Bias::High => all(true),
            Bias::Rare => rare(generator),
            Bias::Often => negated_if(rare(generator), true),
        };
        let words = values.to_array();
        u64x4::from_array([generator.next_word(), words[1], words[2], words[3]])
    }
}

/// A bias for each of a number of inputs.
pub fn draw_biases(
    alloc: Global,
    count: usize,
    generator: &mut Lcg128Xsl64,
) -> Result<Vec<Bias>, Refused> {
    let mut biases = Vec::new(alloc);
    for _ in 0..count {
        push(&mut biases, Bias::draw(generator))?;
    }
    Ok(biases)
}

/// Values of as many inputs as there are biases.
pub fn draw_row(
    alloc: Global,
    biases: &[Bias],
    generator: &mut Lcg128Xsl64,
) -> Result<Vec<u64x4>, Refused> {
    let mut row = Vec::new(alloc);
    for bias in biases {
        push(&mut row, bias.values(generator))?;
    }
    Ok(row)
}
