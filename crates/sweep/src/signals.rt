//! The signals of a circuit in random states.

ghost use Rattle.std.specs.Prelude.{◌<◌, IsSome};

use base::{Refused, filled, filled_like, push};
use graph::{Lit, Model};
use rand_core::SeedableRng;
use rand_pcg::Lcg128Xsl64;
use random_runs::{Runs, opened, uniform};
use simulate::lanes::{all, both, lowest, negated_if, value};
use std::alloc::Global;
use std::simd::u64x4;

/// How many times 256 states are drawn.
const ROUNDS: u32 = 8;

/// The constant, the inputs, the latches and the gates of a circuit, each behind what it is made of, with a number for the values
/// of each in the states so far.
#[derive(Drop)]
pub(crate) struct Signals {
    /// a literal of each, which is false in the first of the states
    pub lits: Vec<Lit>,
    pub numbers: Vec<u64>,
    is_begun: bool,
}

/// A number for the values behind those of which there is this number.
fn mixed(number: u64, values: u64x4) -> u64 {
    let mut mixed = number;
    for word in &values.to_array() {
        mixed = (mixed ^ *word).wrapping_mul(0x9E37_79B9_7F4A_7C15);
        mixed ^= mixed >> 29;
    }
    mixed
}

/// The circuit's signals, each behind what it is made of.
fn lits_of(alloc: Global, circuit: &Model) -> Result<Vec<Lit>, Refused> {
    let mut lits = Vec::new(alloc);
    push(&mut lits, Lit(0))?;
    for input in circuit.inputs() {
        push(&mut lits, *input)?;
    }
    for latch in circuit.latches() {
        push(&mut lits, latch.lit)?;
    }
    for place in circuit.order() {
        if let Some(gate) = circuit.gates().get(*place as usize) {
            push(&mut lits, gate.lhs)?;
        }
    }
    Ok(lits)
}

/// What a latch is said to be equal to.
pub(crate) fn equal_to(equal: &[Option<Lit>], position: usize) -> Option<Lit> {
    match equal.get(position) {
        Some(same) => *same,
        None => None,
    }
}

/// The values of the literal, of which those of its variable are known.
fn values_of(values: &[u64x4], lit: Lit) -> u64x4 {
    match values.get(lit.variable() as usize) {
        Some(values) => negated_if(*values, lit.is_negated()),
        None => all(false),
    }
}

/// Notes the values of a variable.
fn note(values: &mut [u64x4], variable: u32, drawn: u64x4) {
    if (variable as usize) < values.len() {
        values[variable as usize] = drawn;
    }
}

/// Random states in which the latches are equal that are said to be.
fn states(
    alloc: Global,
    circuit: &Model,
    equal: &[Option<Lit>],
    generator: &mut Lcg128Xsl64,
) -> Result<Vec<u64x4>, Refused> {
    circuit.well_formed();
    let mut values = filled(alloc, all(false), circuit.max_var() as usize + 1)?;
    let mut states = Vec::new(alloc);
    for (position, latch) in circuit.latches().iter().enumerate() {
        let drawn = match equal_to(equal, position) {
            Some(lit) => values_of(values.as_slice(), lit),
            None => uniform(generator),
        };
        note(values.as_mut_slice(), latch.lit.variable(), drawn);
        push(&mut states, drawn)?;
    }
    Ok(states)
}

/// Inputs that are drawn.
fn inputs(
    alloc: Global,
    circuit: &Model,
    generator: &mut Lcg128Xsl64,
) -> Result<Vec<u64x4>, Refused> {
    let mut inputs = Vec::new(alloc);
    for _ in circuit.inputs() {
        push(&mut inputs, uniform(generator))?;
    }
    Ok(inputs)
}

impl Signals {
    /// No state yet.
    fn new(alloc: Global, circuit: &Model) -> Result<Signals, Refused> {
        let lits = lits_of(alloc, circuit)?;
        let numbers = filled_like(alloc, 0, lits.as_slice())?;
        Ok(Signals {
            lits,
            numbers,
            is_begun: false,
        })
    }

    /// Turns each literal so that it is false in this run.
    fn turn(&mut self, runs: &Runs<'_>, run: u32)
        requires run { run < 256 }
        requires stepped { IsSome runs.now.wide.now }
    {
        for lit in self.lits.as_mut_slice() {
            if value(runs.value(*lit), run) {
                *lit = Lit(lit.0 ^ 1);
            }
        }
    }

    /// Notes the values in the runs that are in.
    fn add(&mut self, runs: &Runs<'_>)
        requires stepped { IsSome runs.now.wide.now }
    {
        let Some(first) = lowest(runs.running()) else {
            return;
        };
        if !self.is_begun {
            self.turn(runs, first);
            self.is_begun = true;
        }
        for (place, number) in self.numbers.as_mut_slice().iter_mut().enumerate() {
            if let Some(lit) = self.lits.get(place) {
                *number = mixed(*number, both(runs.value(*lit), runs.running()));
            }
        }
    }
}

/// Steps random states of the circuit once, and notes the values of its signals there. False where that is not possible.
fn draw(
    alloc: Global,
    circuit: &Model,
    opened: &Model,
    equal: &[Option<Lit>],
    generator: &mut Lcg128Xsl64,
    signals: &mut Signals,
) -> Result<bool, Refused> {
    let states = states(alloc, circuit, equal, generator)?;
    let inputs = inputs(alloc, circuit, generator)?;
    let Some(mut runs) = Runs::begin(alloc, opened, states.as_slice())? else {
        return Ok(false);
    };
    if !runs.step(inputs.as_slice()) {
        return Ok(false);
    }
    signals.add(&runs);
    Ok(true)
}

/// The signals of the circuit in random states that keep the constraints, in which the latches are equal that are said to be.
pub(crate) fn signals_of(
    alloc: Global,
    circuit: &Model,
    equal: &[Option<Lit>],
) -> Result<Signals, Refused> {
    let mut signals = Signals::new(alloc, circuit)?;
    let Some(opened) = opened(alloc, circuit)? else {
        return Ok(signals);
    };
    let mut generator = Lcg128Xsl64::seed_from_u64(0);
    for _ in 0..ROUNDS {
        if !draw(alloc, circuit, &opened, equal, &mut generator, &mut signals)? {
            return Ok(signals);
        }
    }
    Ok(signals)
}
