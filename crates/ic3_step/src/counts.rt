//! What IC3 counts.

use base::Refused;
use engine::Counters;
use solver::count;

/// What is counted.
#[derive(Clone, Copy)]
pub enum Counted {
    /// queries about the bad literal in the last frame
    BadQuery,
    /// queries about states that are to be blocked
    BlockQuery,
    /// queries about a clause without one of its literals
    DropQuery,
    /// queries about a clause in a later frame, and about candidates
    PushQuery,
    /// clauses that joined the frames
    LearnedClause,
    /// clauses that were propagated
    PushedClause,
}

/// How often each of them came, over all searches.
#[derive(Clone, Copy)]
pub(crate) struct Counts {
    bad_queries: u64,
    block_queries: u64,
    drop_queries: u64,
    push_queries: u64,
    learned_clauses: u64,
    pushed_clauses: u64,
    obligation_literals: u64,
    dropped_literals: u64,
    subsumed_clauses: u64,
}

impl Counts {
    /// Before the first search.
    pub(crate) fn new() -> Counts {
        Counts {
            bad_queries: 0,
            block_queries: 0,
            drop_queries: 0,
            push_queries: 0,
            learned_clauses: 0,
            pushed_clauses: 0,
            obligation_literals: 0,
            dropped_literals: 0,
            subsumed_clauses: 0,
        }
    }

    /// Counts one more.
    pub(crate) fn count(&mut self, counted: Counted) {
        match counted {
            Counted::BadQuery => count(&mut self.bad_queries),
            Counted::BlockQuery => count(&mut self.block_queries),
            Counted::DropQuery => count(&mut self.drop_queries),
            Counted::PushQuery => count(&mut self.push_queries),
            Counted::LearnedClause => count(&mut self.learned_clauses),
            Counted::PushedClause => count(&mut self.pushed_clauses),
        }
    }

    /// Counts the literals of a clause that blocks states.
    pub(crate) fn count_obligation(&mut self, literals: usize) {
        self.obligation_literals = self.obligation_literals.saturating_add(literals as u64);
    }

    /// Counts how many literals a clause lost.
    pub(crate) fn count_dropped(&mut self, before: usize, after: usize) {
        let dropped = before.saturating_sub(after) as u64;
        self.dropped_literals = self.dropped_literals.saturating_add(dropped);
    }

    /// Counts how many clauses the frames lost.
    pub(crate) fn count_subsumed(&mut self, before: usize, after: usize) {
        let subsumed = before.saturating_sub(after) as u64;
        self.subsumed_clauses = self.subsumed_clauses.saturating_add(subsumed);
    }

    /// Adds them to other counters.
    pub(crate) fn add_to(&self, counters: &mut Counters) -> Result<(), Refused> {
        counters.add("ic3", "queries about the bad literal", self.bad_queries)?;
        counters.add("ic3", "queries to block states", self.block_queries)?;
        counters.add("ic3", "queries to drop a literal", self.drop_queries)?;
        counters.add("ic3", "queries to push a clause", self.push_queries)?;
        counters.add("ic3", "clauses of frames", self.learned_clauses)?;
        counters.add("ic3", "pushed clauses", self.pushed_clauses)?;
        counters.add("ic3", "subsumed clauses", self.subsumed_clauses)?;
        counters.add("ic3", "literals of obligations", self.obligation_literals)?;
        counters.add("ic3", "dropped literals", self.dropped_literals)
    }
}
