//! In how many of the clauses that come at once each literal is.

use crate::table::Table;
use base::{Refused, push};
use std::alloc::Global;

/// A number by each literal that was counted.
#[derive(Drop)]
pub struct Counts {
    /// by the literals' codes
    counts: Table<u32>,
    /// the codes of the literals that were counted, in the order in which they came first
    counted: Vec<u32>,
}

impl Counts {
    /// No literals, which take no memory.
    pub fn new(alloc: Global) -> Counts {
        Counts {
            counts: Table::new(alloc),
            counted: Vec::new(alloc),
        }
    }

    /// Makes room for the next literal.
    pub fn grow(&mut self) -> Result<(), Refused> {
        self.counts.push(0)
    }

    /// Counts the literal with this code.
    pub fn add(&mut self, code: u32) -> Result<(), Refused> {
        let count = self.counts.at(code as usize, 0);
        if count == 0 {
            push(&mut self.counted, code)?;
        }
        self.counts.put(code as usize, count.saturating_add(1));
        Ok(())
    }

    /// The codes of the literals that were counted.
    pub fn counted(&self) -> &[u32] {
        self.counted.as_slice()
    }

    /// How often the literal with this code was counted.
    pub fn of(&self, code: u32) -> u32 {
        self.counts.at(code as usize, 0)
    }

    /// No literal is counted any more.
    pub fn clear(&mut self) {
        for code in self.counted.iter() {
            self.counts.put(*code as usize, 0);
        }
        self.counted.clear();
    }
}
