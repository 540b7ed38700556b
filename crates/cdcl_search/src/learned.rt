//! The learned clauses, and when some are to be forgotten.

use crate::reduction::Reductions;
use base::{Refused, push};
use std::alloc::Global;

/// A learned clause of more than two literals.
#[derive(Clone, Copy)]
pub struct LearnedClause {
    pub id: u32,
    /// how many levels its literals were of when it was learned (literal block distance)
    pub glue: u32,
}

/// The learned clauses of more than two literals.
#[derive(Drop)]
pub struct Learned {
    pub clauses: Vec<LearnedClause>,
    pub reductions: Reductions,
}

impl Learned {
    /// No clauses, which take no memory.
    pub fn new(alloc: Global) -> Learned {
        Learned {
            clauses: Vec::new(alloc),
            reductions: Reductions::new(),
        }
    }

    /// Adds a clause.
    pub fn add(&mut self, id: u32, glue: u32) -> Result<(), Refused> {
        push(&mut self.clauses, LearnedClause { id, glue })
    }
}
