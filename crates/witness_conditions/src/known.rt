//! What is known of the inputs and latches of a circuit at one time.

use base::{Refused, push};
use graph::{Latch, Lit};
use std::alloc::Global;
use witness_pairs::literal_of;

/// What is known of inputs or latches that share these literals.
pub fn shared_by(
    alloc: Global,
    names: &[Lit],
    shared: &[Option<Lit>],
) -> Result<Vec<Option<Lit>>, Refused> {
    let mut known = Vec::new(alloc);
    for given in shared {
        let lit = match given {
            Some(lit) => Some(literal_of(names, *lit)),
            None => None,
        };
        push(&mut known, lit)?;
    }
    Ok(known)
}

/// What is known of latches after a step of those that go on.
pub fn nexts(
    alloc: Global,
    names: &[Lit],
    latches: &[Latch],
    go_on: &[bool],
) -> Result<Vec<Option<Lit>>, Refused> {
    let mut known = Vec::new(alloc);
    for (position, latch) in latches.iter().enumerate() {
        let next = match go_on.get(position) {
            Some(true) => Some(literal_of(names, latch.next)),
            _ => None,
        };
        push(&mut known, next)?;
    }
    Ok(known)
}

/// What is known of latches of which these begin with their resets. One that is its own reset has any value.
pub fn resets(
    alloc: Global,
    latches: &[Latch],
    begin: &[bool],
) -> Result<Vec<Option<Lit>>, Refused> {
    let mut known = Vec::new(alloc);
    for (position, latch) in latches.iter().enumerate() {
        let reset = match begin.get(position) {
            Some(true) if latch.reset != latch.lit => Some(latch.reset),
            _ => None,
        };
        push(&mut known, reset)?;
    }
    Ok(known)
}
