//! In how many clauses latches are. Nothing here can make an answer wrong.

use crate::frames::Entry;
use base::{Refused, filled_like};
use graph::Latch;
use states::StateLit;
use std::alloc::Global;

/// In how many clauses of the frames each latch is, as they join and leave the frames.
#[derive(Drop)]
pub(crate) struct Uses {
    /// by the latches' positions
    values: Vec<u32>,
}

impl Uses {
    /// Of the first clauses of the frames.
    pub(crate) fn new(
        alloc: Global,
        latches: &[Latch],
        entries: &[Entry],
    ) -> Result<Uses, Refused> {
        let values = filled_like(alloc, 0u32, latches)?;
        let mut uses = Uses { values };
        for entry in entries {
            uses.add(entry.clause.as_slice());
        }
        Ok(uses)
    }

    /// Of each latch, by its position.
    pub(crate) fn values(&self) -> &[u32] {
        self.values.as_slice()
    }

    /// A clause joins the frames.
    pub(crate) fn add(&mut self, clause: &[StateLit]) {
        for lit in clause {
            if let Some(value) = self.values.get_mut(lit.latch as usize) {
                *value = value.saturating_add(1);
            }
        }
    }

    /// A clause leaves the frames.
    pub(crate) fn remove(&mut self, clause: &[StateLit]) {
        for lit in clause {
            if let Some(value) = self.values.get_mut(lit.latch as usize) {
                *value = value.saturating_sub(1);
            }
        }
    }
}
