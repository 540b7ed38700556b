//! Fewer clauses, by the order of the latches that count.
//!
//! A latch that counts is set only where the one before is. A clause of an invariant is left out where this order says it, alone or
//! with another clause, and the clauses that say the order are added. Nothing is claimed of what is left: it is to be proved.

ghost use Rattle.std.specs.Prelude.{◌<◌, length};
ghost use Rattle.base.specs.Budget.{Spends};

use base::{Budget, Refused, Seq};
use extension::count_rounds;
use graph::{Latch, Lit, Model};
use live_safe::LiveError;
use std::alloc::Global;

/// Of more clauses than this none is left out.
const MOST_CLAUSES: usize = 4_000;

/// So many pairs of clauses are compared in one step.
const PAIRS: u64 = 16;

/// The variables of the latches that count, from the first one to the last.
#[derive(Clone, Copy)]
struct Counts {
    first: u32,
    last: u32,
}

impl Counts {
    /// The variables of these latches, each of which has the variable behind that of the one before.
    fn of(latches: &[Latch]) -> Counts {
        match (latches.first(), latches.last()) {
            (Some(first), Some(last)) => Counts {
                first: first.lit.variable(),
                last: last.lit.variable(),
            },
            _ => Counts { first: 1, last: 0 },
        }
    }

    /// Whether the literal is one of a latch that counts.
    fn has(self, lit: Lit) -> bool {
        self.first <= lit.variable() && lit.variable() <= self.last
    }

    /// The least variable of a latch that counts in the clause, or this one.
    fn least(self, clause: &[Lit], most: u32) -> u32 {
        let mut least = most;
        for lit in clause {
            if self.has(*lit) {
                least = least.min(lit.variable());
            }
        }
        least
    }

    /// Whether a literal implies another by the order.
    fn implies(self, one: Lit, other: Lit) -> bool {
        if one == other {
            return true;
        }
        if !self.has(one) || !self.has(other) || one.is_negated() != other.is_negated() {
            return false;
        }
        if one.is_negated() {
            one.0 < other.0
        } else {
            other.0 < one.0
        }
    }

    /// Whether a clause implies another by the order, one literal for the other.
    fn subsumes(self, clause: &[Lit], other: &[Lit]) -> bool {
        clause
            .iter()
            .all(|lit| other.iter().any(|later| self.implies(*lit, *later)))
    }

    /// Whether the order alone says the clause.
    fn says(self, clause: &[Lit]) -> bool {
        clause.iter().any(|lit| clause
            .iter()
            .any(|other| self.implies(Lit(lit.0 ^ 1), *other)))
    }

    /// Whether the order says the clause at a place, alone or with another clause that stays.
    fn is_said(self, clauses: &[Seq<Lit>], place: usize) -> bool
        requires { place < length clauses.now }
    {
        let clause = clauses[place].as_slice();
        self.says(clause)
            || clauses[..place]
                .iter()
                .any(|other| self.subsumes(other.as_slice(), clause))
            || clauses[place + 1..].iter().any(|other| self.subsumes(other.as_slice(), clause)
                && !self.subsumes(clause, other.as_slice()))
    }
}

/// The latches of the circuit that count this number of rounds and one more.
fn counts_of(counter: &Model, rounds: u32) -> &[Latch] {
    let latches = counter.latches();
    let others = latches.len().saturating_sub(rounds as usize + 1);
    &latches[others..]
}

/// The clauses that say that each of the latches is set only where the one before is.
fn order_of(alloc: Global, latches: &[Latch]) -> Result<Seq<Seq<Lit>>, Refused> {
    let mut order = Seq::new(alloc);
    for place in 1..latches.len() {
        let (before, latch) = (latches[place - 1].lit, latches[place].lit);
        order.push(Seq::from_slice(alloc, &[before, Lit(latch.0 ^ 1)])?)?;
    }
    Ok(order)
}

/// The clauses that say the order of the latches that count up to this number of rounds, in each circuit that counts rounds of
/// the property. There are none where the property isn't there, or that circuit is too large. Nothing is claimed of them: they are to
/// be proved.
pub fn order_of_counts(
    alloc: Global,
    circuit: &Model,
    position: u32,
    rounds: u32,
) -> Result<Seq<Seq<Lit>>, Refused> {
    match count_rounds(alloc, circuit, position, rounds) {
        Ok(counter) => order_of(alloc, counts_of(&counter, rounds)),
        Err(LiveError::OutOfMemory(refused)) => Err(refused),
        Err(_) => Ok(Seq::new(alloc)),
    }
}

/// The clauses that the order does not say.
fn unsaid(alloc: Global, counts: Counts, clauses: &[Seq<Lit>]) -> Result<Seq<Seq<Lit>>, Refused> {
    let are_few = clauses.len() <= MOST_CLAUSES;
    let mut kept = Seq::new(alloc);
    for place in 0..clauses.len() {
        if !are_few || !counts.is_said(clauses, place) {
            kept.push(clauses[place].copy(alloc)?)?;
        }
    }
    Ok(kept)
}

/// How many steps it takes to compare so many clauses.
fn steps_of(clauses: usize) -> u64 {
    if clauses > MOST_CLAUSES {
        return 0;
    }
    let compared = clauses as u64;
    compared * compared / PAIRS
}

/// The latches that count from the first one that a clause has.
fn named<'a>(latches: &'a [Latch], clauses: &[Seq<Lit>]) -> &'a [Latch] {
    let counts = Counts::of(latches);
    let mut least = counts.last;
    for clause in clauses {
        least = counts.least(clause.as_slice(), least);
    }
    let others = least.saturating_sub(counts.first) as usize;
    &latches[others.min(latches.len())..]
}

/// The clauses of an invariant of the circuit that counts so many rounds that the order of its latches does not say, and those that
/// say the order of the latches that they have. Nothing is claimed of them: they are to be proved.
pub fn spared(
    alloc: Global,
    counter: &Model,
    rounds: u32,
    clauses: &[Seq<Lit>],
    budget: &mut Budget,
) -> Result<Seq<Seq<Lit>>, Refused>
    ensures spends { Spends budget.old budget.new }
{
    budget.spend(steps_of(clauses.len()));
    let latches = counts_of(counter, rounds);
    let mut kept = unsaid(alloc, Counts::of(latches), clauses)?;
    let order = order_of(alloc, named(latches, kept.as_slice()))?;
    for clause in order.as_slice() {
        kept.push(clause.copy(alloc)?)?;
    }
    Ok(kept)
}
