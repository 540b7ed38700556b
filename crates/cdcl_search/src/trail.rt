//! The literals that are true, in the order in which they came.
//!
//! Nothing is proved of the trail: what is learned, a core and a model are checked by the kernel.

use base::{Refused, push};
use std::alloc::Global;

/// Literals by trail indices, and why each came.
#[derive(Drop)]
pub struct Trail {
    literals: Vec<i32>,
    /// by trail indices the clause that left only the literal, or none for a decision
    reasons: Vec<Option<u32>>,
}

impl Trail {
    /// No literals, which take no memory.
    pub fn new(alloc: Global) -> Trail {
        Trail {
            literals: Vec::new(alloc),
            reasons: Vec::new(alloc),
        }
    }

    /// How many literals there are.
    #[inline]
    pub fn len(&self) -> usize {
        self.literals.len()
    }

    /// The literals in order.
    pub fn literals(&self) -> &[i32] {
        self.literals.as_slice()
    }

    /// The literal at a trail index.
    #[inline]
    pub fn literal(&self, trail_index: usize) -> Option<i32> {
        self.literals.get(trail_index).copied()
    }

    /// The reason at a trail index, where it has one.
    #[inline]
    pub fn reason(&self, trail_index: usize) -> Option<u32> {
        match self.reasons.get(trail_index) {
            Some(reason) => *reason,
            None => None,
        }
    }

    /// Adds a literal.
    #[inline]
    pub fn push(&mut self, literal: i32, reason: Option<u32>) -> Result<(), Refused> {
        push(&mut self.literals, literal)?;
        push(&mut self.reasons, reason)
    }

    /// Keeps the first `len` literals.
    pub fn truncate(&mut self, len: usize) {
        self.literals.truncate(len);
        self.reasons.truncate(len);
    }
}
