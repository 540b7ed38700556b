//! Values of signals in simulated runs.

ghost use Rattle.std.specs.Prelude.{IsSome};

use base::{Refused, push};
use random_runs::Runs;
use signal_classes::Signal;
use simulate::lanes::{both, negated_if, none};
use std::alloc::Global;
use std::simd::u64x4;

/// Signals, and the values of each in the same runs.
#[derive(Drop)]
pub struct Samples {
    signals: Vec<Signal>,
    /// for each of them its values, and false in runs that were not in
    values: Vec<Vec<u64x4>>,
    /// how many runs were in, at all times together
    count: u64,
}

/// How many runs there are among these.
fn number(runs: u64x4) -> u64 {
    let words = runs.to_array();
    let (first, second) = (words[0].count_ones(), words[1].count_ones());
    let (third, fourth) = (words[2].count_ones(), words[3].count_ones());
    u64::from(first) + u64::from(second) + u64::from(third) + u64::from(fourth)
}

/// How often the values are true.
fn numbers(values: &[u64x4]) -> u64 {
    let mut count = 0_u64;
    for runs in values {
        count = count.saturating_add(number(*runs));
    }
    count
}

/// No values of as many signals.
fn no_values(alloc: Global, count: usize) -> Result<Vec<Vec<u64x4>>, Refused> {
    let mut values = Vec::new(alloc);
    for _ in 0..count {
        push(&mut values, Vec::new(alloc))?;
    }
    Ok(values)
}

impl Samples {
    /// No values yet of these signals.
    pub fn new(alloc: Global, signals: Vec<Signal>) -> Result<Samples, Refused> {
        let values = no_values(alloc, signals.len())?;
        Ok(Samples {
            signals,
            values,
            count: 0,
        })
    }

    /// How many signals there are.
    pub fn len(&self) -> usize {
        self.signals.len()
    }

    /// The signal at a place.
    pub(crate) fn signal(&self, place: usize) -> Option<Signal> {
        self.signals.get(place).copied()
    }

    /// Adds the values of the signal at a place.
    fn add_values(&mut self, runs: &Runs<'_>, running: u64x4, place: usize) -> Result<(), Refused>
        requires stepped { IsSome runs.now.wide.now }
    {
        let Some(signal) = self.signal(place) else {
            return Ok(());
        };
        match self.values.get_mut(place) {
            Some(values) => push(values, both(runs.value(signal.now), running)),
            None => Ok(()),
        }
    }

    /// Adds the values at the time that these runs have come to.
    pub fn add(&mut self, runs: &Runs<'_>) -> Result<(), Refused>
        requires stepped { IsSome runs.now.wide.now }
    {
        let running = runs.running();
        self.count = self.count.saturating_add(number(running));
        for place in 0..self.len() {
            self.add_values(runs, running, place)?;
        }
        Ok(())
    }

    /// The values of the signal at a place.
    fn values(&self, place: usize) -> &[u64x4] {
        match self.values.get(place) {
            Some(values) => values.as_slice(),
            None => &[],
        }
    }

    /// How often the signal at a place was true.
    pub(crate) fn true_count(&self, place: usize) -> u64 {
        numbers(self.values(place))
    }

    /// How many runs were in, at all times together.
    pub(crate) fn count(&self) -> u64 {
        self.count
    }

    /// Whether the signals at both places were never true at once.
    pub(crate) fn are_apart(&self, one: usize, other: usize) -> bool {
        let mut pairs = self.values(one).iter().zip(self.values(other));
        pairs.all(|(one, other)| none(both(*one, *other)))
    }

    /// Whether the signal at the second place was true wherever that at the first was.
    pub(crate) fn is_within(&self, one: usize, other: usize) -> bool {
        let mut pairs = self.values(one).iter().zip(self.values(other));
        pairs.all(|(one, other)| none(both(*one, negated_if(*other, true))))
    }
}
