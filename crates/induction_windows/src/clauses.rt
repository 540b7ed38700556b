//! Clauses over what was.

use crate::history::History;
use base::{Refused, Seq, push};
use graph::Lit;
use std::alloc::Global;
use window_search::{Fact, Frames, Resting, When, negated};

/// The most clauses of a certificate.
const MOST_CLAUSES: usize = 4_194_303;

/// Clauses over the latches of a history.
#[derive(Drop)]
pub(crate) struct Clauses {
    pub list: Seq<Seq<Lit>>,
    /// whether there are too many
    pub is_full: bool,
}

/// Adds what literals were so long ago, but for what is false.
fn push_literals(
    to: &mut Vec<Lit>,
    history: &History,
    lits: &[Lit],
    index: u32,
) -> Result<(), Refused> {
    for lit in lits {
        if lit.0 > 0 {
            push(to, history.literal(*lit, index))?;
        }
    }
    Ok(())
}

/// Adds where a fact needs not be so so long ago: where there was no such time, and for one of first times where there was one
/// before it.
fn push_guards(
    to: &mut Vec<Lit>,
    history: &History,
    when: When,
    index: u32,
) -> Result<(), Refused> {
    if index > 0 {
        push(to, history.invalid(index))?;
    }
    if when == When::First {
        push(to, history.valid(index.saturating_add(1)))?;
    }
    Ok(())
}

impl Clauses {
    /// Adds a clause.
    fn add(&mut self, clause: Vec<Lit>) -> Result<(), Refused> {
        if self.list.len() >= MOST_CLAUSES {
            self.is_full = true;
            return Ok(());
        }
        self.list.push(Seq::from_vec(clause))
    }

    /// Adds for each time of a window of so many that there was one only where there was the one behind it.
    fn add_times(&mut self, alloc: Global, history: &History, length: u32) -> Result<(), Refused> {
        for index in 2..length {
            let mut clause = Vec::new(alloc);
            push(&mut clause, history.invalid(index))?;
            push(&mut clause, history.valid(index.saturating_sub(1)))?;
            self.add(clause)?;
        }
        Ok(())
    }

    /// Adds that the fact was so so long ago.
    fn add_fact(
        &mut self,
        alloc: Global,
        history: &History,
        fact: Fact,
        index: u32,
    ) -> Result<(), Refused> {
        let mut clause = Vec::new(alloc);
        push_guards(&mut clause, history, fact.when, index)?;
        push_literals(&mut clause, history, &fact.lits, index)?;
        push_literals(&mut clause, history, &[fact.after], index.saturating_sub(1))?;
        self.add(clause)
    }

    /// Adds the fact for each time at which it is needed, where it is needed with this delay.
    fn add_row(
        &mut self,
        alloc: Global,
        history: &History,
        fact: Fact,
        delay: u32,
    ) -> Result<(), Refused> {
        let first = if fact.when == When::First { 0 } else { 1 };
        for index in first..delay {
            self.add_fact(alloc, history, fact, index)?;
        }
        Ok(())
    }

    /// Adds all that is needed.
    fn add_needed(
        &mut self,
        alloc: Global,
        history: &History,
        frames: &Frames,
        resting: &Resting,
    ) -> Result<(), Refused> {
        'adding: for (fact, delay) in frames.facts.iter().zip(resting.delays.iter()) {
            self.add_row(alloc, history, *fact, *delay)?;
        }
        Ok(())
    }
}

/// The clauses of a window of so many times: last that the bad literal is not set.
pub(crate) fn clauses_of(
    alloc: Global,
    frames: &Frames,
    resting: &Resting,
    history: &History,
    length: u32,
) -> Result<Clauses, Refused> {
    let mut clauses = Clauses {
        list: Seq::new(alloc),
        is_full: false,
    };
    clauses.add_times(alloc, history, length)?;
    clauses.add_needed(alloc, history, frames, resting)?;
    if frames.bad.0 > 0 {
        let mut clause = Vec::new(alloc);
        push_literals(&mut clause, history, &[negated(frames.bad)], 0)?;
        clauses.add(clause)?;
    }
    Ok(clauses)
}
