//! The circuit whose latches begin in any state.

use base::{Refused, Seq};
use graph::{Latch, Model, ReadError};
use std::alloc::Global;

/// The latches with their own literals as resets.
fn opened_latches(alloc: Global, latches: &[Latch]) -> Result<Seq<Latch>, Refused> {
    let mut opened = Seq::new(alloc);
    for latch in latches {
        opened.push(Latch {
            lit: latch.lit,
            next: latch.next,
            reset: latch.lit,
        })?;
    }
    Ok(opened)
}

/// The same circuit, but that it begins in any state. None where that were no circuit.
pub fn opened(alloc: Global, circuit: &Model) -> Result<Option<Model>, Refused> {
    let mut parts = circuit.parts().copy(alloc)?;
    parts.latches = opened_latches(alloc, circuit.latches())?;
    match Model::from_parts(alloc, parts) {
        Ok(model) => Ok(Some(model)),
        Err(ReadError::OutOfMemory(refused)) => Err(refused),
        Err(_) => Ok(None),
    }
}
