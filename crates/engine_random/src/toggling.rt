//! Inputs that keep their values for a while.

use crate::batch::first_values;
use crate::drawing::draw_lanes;
use base::{Refused, filled_like, push};
use graph::Model;
use rand_core::SeedableRng;
use rand_core::utils::NextWord;
use rand_pcg::Lcg128Xsl64;
use simulate::lanes::all;
use std::alloc::Global;
use std::simd::u64x4;

/// How many times the runs of a batch have at least.
const TIMES: u64 = 250;

/// They are so many times doubled at most.
const DOUBLINGS: u32 = 20;

/// A run takes so many bytes at most, where the value of an input takes one.
const RUN_BYTES: u64 = 33_554_432;

/// A time takes so many more.
const TIME_BYTES: u64 = 32;

/// What a batch of 256 runs is drawn from, and how long it is.
#[derive(Clone, Copy)]
pub struct BatchPlan {
    seed: u64,
    times: u64,
    is_steady: bool,
}

impl BatchPlan {
    /// That of the batch with this number, from 1 on, of a circuit with so many inputs. Of two batches one is twice as long as the
    /// other, of four one is four times as long, and so on (Luby, Sinclair, Zuckerman 1993), as far as a run's memory lets it.
    pub fn of(seed: u64, number: u64, inputs: usize) -> BatchPlan {
        let doublings = number.trailing_zeros().min(DOUBLINGS);
        let most = RUN_BYTES / (inputs as u64).saturating_add(TIME_BYTES);
        BatchPlan {
            seed: seed.wrapping_add(number),
            times: (TIMES << doublings).min(most),
            is_steady: doublings % 2 == 0,
        }
    }

    /// How many times the runs have at most.
    pub fn times(self) -> u64 {
        self.times
    }
}

/// Four words, in whose runs an input changes. In a steady batch these are one of 4, 16, 64 and 256 runs, by the word, and else
/// one of 2, 8, 32 and 128.
fn draw_toggles(is_steady: bool, generator: &mut Lcg128Xsl64) -> [u64; 4] {
    let drawn = generator.next_word();
    let first = if is_steady {
        drawn & generator.next_word()
    } else {
        drawn
    };
    let second = first & generator.next_word() & generator.next_word();
    let third = second & generator.next_word() & generator.next_word();
    let fourth = third & generator.next_word() & generator.next_word();
    [first, second, third, fourth]
}

/// The first values of the latches in 256 runs, and the inputs' values at one time after another.
#[derive(Drop)]
pub struct Toggled {
    generator: Lcg128Xsl64,
    is_steady: bool,
    first: Vec<u64x4>,
    inputs: Vec<u64x4>,
}

impl Toggled {
    /// What the batch begins with. The same plan draws the same values again.
    pub fn begin(alloc: Global, circuit: &Model, plan: BatchPlan) -> Result<Toggled, Refused> {
        let mut generator = Lcg128Xsl64::seed_from_u64(plan.seed);
        let mut first = filled_like(alloc, all(false), circuit.latches())?;
        first_values(circuit.latches(), &mut generator, &mut first);
        let mut inputs = Vec::new(alloc);
        for _ in circuit.inputs() {
            push(&mut inputs, draw_lanes(&mut generator))?;
        }
        Ok(Toggled {
            generator,
            is_steady: plan.is_steady,
            first,
            inputs,
        })
    }

    /// The latches' first values, in their order.
    pub fn first(&self) -> &[u64x4] {
        &self.first
    }

    /// The inputs' values, in their order.
    pub fn inputs(&self) -> &[u64x4] {
        &self.inputs
    }

    /// Has some inputs change.
    pub fn advance(&mut self) {
        for input in self.inputs.iter_mut() {
            let toggles = u64x4::from_array(draw_toggles(self.is_steady, &mut self.generator));
            *input = *input ^ toggles;
        }
    }
}
