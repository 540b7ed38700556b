//! The assignment: the literals that are true, in which order they came, at which levels, and why.

use crate::levels::Levels;
use crate::table::Table;
use crate::trail::Trail;
use crate::values::Values;
use base::Refused;
use std::alloc::Global;

/// The trail, and what is kept of the literals on it.
#[derive(Drop)]
pub struct Assignment {
    pub trail: Trail,
    pub values: Values,
    pub levels: Levels,
    /// of each variable the id of the clause that is its literal alone, or 0
    pub unit_ids: Table<u32>,
    /// how many literals of the trail were propagated
    pub propagated: usize,
    /// how many of them were learned as unit clauses, since they hold without decisions
    pub root_units: usize,
}

impl Assignment {
    /// No variables, which take no memory.
    pub fn new(alloc: Global) -> Assignment {
        Assignment {
            trail: Trail::new(alloc),
            values: Values::new(alloc),
            levels: Levels::new(alloc),
            unit_ids: Table::new(alloc),
            propagated: 0,
            root_units: 0,
        }
    }

    /// Makes room for the next variable, from 0 on.
    pub fn grow(&mut self) -> Result<(), Refused> {
        self.levels.grow()?;
        self.values.grow()?;
        self.unit_ids.push(0)
    }

    /// Puts a literal on the trail that is decided or propagated.
    #[inline]
    pub fn enqueue(&mut self, literal: i32, reason: Option<u32>) -> Result<(), Refused> {
        self.levels.assign(literal, self.trail.len());
        self.values.set(literal);
        self.trail.push(literal, reason)
    }

    /// The first literal of the trail that was not propagated.
    #[inline]
    pub fn next_to_propagate(&self) -> Option<i32> {
        self.trail.literal(self.propagated)
    }

    /// One more literal of the trail was propagated.
    #[inline]
    pub fn mark_propagated(&mut self) {
        self.propagated = self.propagated.saturating_add(1);
    }

    /// The reason of a literal that is on the trail, or whose negation is.
    #[inline]
    pub fn reason_of(&self, literal: i32) -> Option<u32> {
        self.trail.reason(self.levels.trail_index_of(literal))
    }

    /// The level of such a literal.
    #[inline]
    pub fn level_of(&self, literal: i32) -> usize {
        self.levels.level_of(literal)
    }

    /// The id of the clause that is the literal of this variable alone, or 0.
    #[inline]
    pub fn unit_id(&self, literal: i32) -> u32 {
        self.unit_ids.at(literal.unsigned_abs() as usize, 0)
    }
}
