//! What steers the search. Nothing here can make an answer wrong.

use crate::analysis::Analysis;
use crate::assignment::Assignment;
use crate::decisions::Decisions;
use crate::learned::Learned;
use crate::restarts::Restarts;
use crate::watches::Watches;
use base::Refused;
use solver::Statistics;
use std::alloc::Global;

/// All that the search keeps beside the clauses. It grows with the clauses that
/// are watched, and is right again after any of it is lost, for the price of watching them anew.
#[derive(Drop)]
pub struct Guide {
    pub(crate) alloc: Global,
    pub(crate) assignment: Assignment,
    pub(crate) watches: Watches,
    pub(crate) analysis: Analysis,
    pub(crate) decisions: Decisions,
    pub(crate) learned: Learned,
    pub(crate) restarts: Restarts,
    /// the id of a clause that is false, and was not learned from
    pub(crate) pending_conflict: Option<u32>,
    /// the ids of unit clauses that were added above level 0
    pub(crate) pending_units: Vec<u32>,
    /// the assumptions of the last call
    pub(crate) assumptions: Vec<i32>,
    pub(crate) statistics: Statistics,
}

impl Guide {
    /// No variables and no clauses, which take no memory.
    pub fn new(alloc: Global) -> Guide {
        Guide {
            alloc,
            assignment: Assignment::new(alloc),
            watches: Watches::new(alloc),
            analysis: Analysis::new(alloc),
            decisions: Decisions::new(alloc),
            learned: Learned::new(alloc),
            restarts: Restarts::new(),
            pending_conflict: None,
            pending_units: Vec::new(alloc),
            assumptions: Vec::new(alloc),
            statistics: Statistics::new(),
        }
    }

    /// No variables and no clauses again. The statistics stay.
    pub fn renew(&mut self, alloc: Global) {
        let statistics = self.statistics;
        *self = Guide::new(alloc);
        self.statistics = statistics;
    }

    /// How often the search did what, since `new`.
    pub fn statistics(&self) -> Statistics {
        self.statistics
    }

    /// Makes room for the variables of the literals.
    pub(crate) fn grow_to(&mut self, literals: &[i32]) -> Result<(), Refused> {
        for literal in literals {
            let variable = literal.unsigned_abs();
            for _ in self.analysis.variables()..variable as usize + 1 {
                self.grow()?;
            }
        }
        Ok(())
    }

    /// Makes room for the next variable.
    fn grow(&mut self) -> Result<(), Refused> {
        self.watches.grow()?;
        self.assignment.grow()?;
        self.decisions.grow()?;
        self.analysis.grow()
    }

    /// Makes room for the variables of a clause that was added, which are to be decided from now on. A
    /// variable of no clause is not decided but where it is assumed, or where questions about a part went before.
    pub(crate) fn add_variables(&mut self, clause: &[i32]) -> Result<(), Refused> {
        self.grow_to(clause)?;
        for literal in clause {
            self.decisions.insert(*literal)?;
        }
        Ok(())
    }
}
