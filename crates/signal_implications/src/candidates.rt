//! Implications that no sample violates.

ghost use Rattle.std.specs.Prelude.{◌≡◌, ◌≤◌, IfOk, length};
ghost use Rattle.base.specs.Budget.{Spends};

use crate::implication::Implication;
use crate::samples::Samples;
use base::{Budget, Refused, push};
use signal_classes::Signal;
use std::alloc::Global;

/// The most implications.
const MOST: usize = 20_000;

/// How many there may be before those are dropped that say least.
const ROOM: usize = 60_000;

/// So many pairs of signals are compared for one step of the budget.
const PAIRS: u64 = 4;

/// An implication, and how often it were violated, if its signals had nothing to do with each other.
#[derive(Clone, Copy)]
pub(crate) struct Candidate {
    pub implication: Implication,
    weight: u64,
}

/// Samples, and how often each signal of them was true.
#[derive(Drop)]
struct Counted<'a> {
    samples: &'a Samples,
    true_counts: Vec<u64>,
}

/// Implications that no sample violates.
#[derive(Drop)]
pub(crate) struct Candidates {
    list: Vec<Candidate>,
}

impl<'a> Counted<'a> {
    /// Counts how often each signal was true.
    fn new(alloc: Global, samples: &'a Samples) -> Result<Counted<'a>, Refused> {
        let mut true_counts = Vec::new(alloc);
        for place in 0..samples.len() {
            push(&mut true_counts, samples.true_count(place))?;
        }
        Ok(Counted {
            samples,
            true_counts,
        })
    }

    /// How often the signal at a place was true.
    fn true_count(&self, place: usize) -> u64 {
        match self.true_counts.get(place) {
            Some(count) => *count,
            None => 0,
        }
    }

    /// How often the signal at a place was false.
    fn false_count(&self, place: usize) -> u64 {
        self.samples.count().saturating_sub(self.true_count(place))
    }

    /// How often two signals had these values at once, if they had nothing to do with each other.
    fn expected(&self, one: u64, other: u64) -> u64 {
        one.saturating_mul(other) / self.samples.count().max(1)
    }
}

impl Candidates {
    /// Adds an implication.
    fn push(&mut self, high: Signal, low: Signal, weight: u64) -> Result<(), Refused> {
        let implication = Implication { high, low };
        push(
            &mut self.list,
            Candidate {
                implication,
                weight,
            },
        )
    }

    /// Adds that the signals at two places are not true at once, where they never were.
    fn add_apart(
        &mut self,
        counted: &Counted<'_>,
        one: usize,
        other: usize,
    ) -> Result<(), Refused> {
        let samples = counted.samples;
        let (Some(high), Some(low)) = (samples.signal(one), samples.signal(other)) else {
            return Ok(());
        };
        if !samples.are_apart(one, other) {
            return Ok(());
        }
        let weight = counted.expected(counted.true_count(one), counted.true_count(other));
        self.push(high, low.negated(), weight)
    }

    /// Adds that the signal at the second place is true wherever that at the first is, where it always was.
    fn add_within(
        &mut self,
        counted: &Counted<'_>,
        one: usize,
        other: usize,
    ) -> Result<(), Refused> {
        let samples = counted.samples;
        let (Some(high), Some(low)) = (samples.signal(one), samples.signal(other)) else {
            return Ok(());
        };
        if counted.true_count(one) > counted.true_count(other) || !samples.is_within(one, other) {
            return Ok(());
        }
        let weight = counted.expected(counted.true_count(one), counted.false_count(other));
        self.push(high, low, weight)
    }

    /// Adds those of the signal at a place and each one before it.
    fn add_all(&mut self, counted: &Counted<'_>, place: usize) -> Result<(), Refused> {
        for other in 0..place {
            self.add_apart(counted, place, other)?;
            self.add_within(counted, place, other)?;
            self.add_within(counted, other, place)?;
        }
        Ok(())
    }

    /// Keeps those that say most, where there are more than so many.
    fn trim(&mut self, room: usize)
        requires { 20000 ≤ room }
        ensures { length self.new.list.items ≤ room }
    {
        if self.list.len() > room {
            self.list.sort_unstable_by_key(|candidate| {
                let Implication { high, low } = candidate.implication;
                (u64::MAX - candidate.weight, high.now.0, low.now.0)
            });
            self.list.truncate(MOST);
        }
    }

    /// Those that no sample violates, and of these that say most where they are more than the limit; of some of the signals alone,
    /// where the budget is exhausted.
    pub(crate) fn of(
        alloc: Global,
        samples: &Samples,
        budget: &mut Budget,
    ) -> Result<Candidates, Refused>
        ensures spends { Spends budget.old budget.new }
        ensures limit { IfOk result (λ c. length c.list.items ≤ 20000) }
    {
        let counted = Counted::new(alloc, samples)?;
        let mut candidates = Candidates {
            list: Vec::new(alloc),
        };
        for place in 0..samples.len() {
            budget.spend(place as u64 / PAIRS + 1);
            if budget.left() == 0 {
                break;
            }
            candidates.add_all(&counted, place)?;
            candidates.trim(ROOM);
        }
        candidates.trim(MOST);
        Ok(candidates)
    }

    /// The list of them.
    pub(crate) fn as_slice(&self) -> &[Candidate]
        ensures { result.now ≡ self.now.list.items }
    {
        self.list.as_slice()
    }
}
