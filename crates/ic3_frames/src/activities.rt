//! How active latches are. Nothing here can make an answer wrong.

use base::{Refused, filled_like};
use graph::Latch;
use states::StateLit;
use std::alloc::Global;

/// What the first clause adds.
const FIRST: u64 = 1000;

/// What a clause adds at most.
const MOST: u64 = 1_000_000_000_000_000_000;

/// By what all are divided where a clause would add more.
const SCALE: u64 = 1_000_000_000_000_000;

/// How active latches are: those of the clauses that joined the frames last. Each clause adds a hundredth more
/// than the one before (Een and Sorensson 2003).
#[derive(Drop)]
pub(crate) struct Activities {
    /// by the latches' positions
    values: Vec<u64>,
    /// what the next clause adds
    increment: u64,
}

impl Activities {
    /// No latch is active.
    pub(crate) fn new(alloc: Global, latches: &[Latch]) -> Result<Activities, Refused> {
        let values = filled_like(alloc, 0u64, latches)?;
        Ok(Activities {
            values,
            increment: FIRST,
        })
    }

    /// Of each latch, by its position.
    pub(crate) fn values(&self) -> &[u64] {
        self.values.as_slice()
    }

    /// A clause joins the frames.
    pub(crate) fn bump(&mut self, clause: &[StateLit]) {
        for lit in clause {
            if let Some(value) = self.values.get_mut(lit.latch as usize) {
                *value = value.saturating_add(self.increment);
            }
        }
        self.increment = self.increment.saturating_add(self.increment / 100);
        if self.increment > MOST {
            self.rescale();
        }
    }

    /// Makes all small again.
    fn rescale(&mut self) {
        for place in 0..self.values.len() {
            self.values[place] /= SCALE;
        }
        self.increment /= SCALE;
    }
}
