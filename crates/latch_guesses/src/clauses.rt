//! The clauses that say that the latches of a class are equal.

use crate::reduced::{low, negated};
use base::{Refused, Seq};
use graph::{Latch, Lit, Model};
use latch_classes::Classes;
use std::alloc::Global;

/// Adds the two clauses that say of two latches that each has its first value exactly where the other has.
fn push_pair(
    alloc: Global,
    clauses: &mut Seq<Seq<Lit>>,
    one: Latch,
    other: Latch,
) -> Result<(), Refused> {
    let (one, other) = (low(one, one.lit), low(other, other.lit));
    clauses.push(Seq::from_slice(alloc, &[negated(one), other])?)?;
    clauses.push(Seq::from_slice(alloc, &[negated(other), one])?)
}

/// Adds what its class says of the latch at a place.
fn push_clauses(
    alloc: Global,
    latches: &[Latch],
    classes: &Classes,
    place: usize,
    latch: Latch,
    clauses: &mut Seq<Seq<Lit>>,
) -> Result<(), Refused> {
    let Some(class) = classes.class_of(place) else {
        return Ok(());
    };
    let Some(lead) = classes.lead_of(class) else {
        let constant = negated(low(latch, latch.lit));
        return clauses.push(Seq::from_slice(alloc, &[constant])?);
    };
    match latches.get(lead) {
        Some(other) if lead != place => push_pair(alloc, clauses, latch, *other),
        _ => Ok(()),
    }
}

/// The clauses that say that the latches of each class are equal, and those of the first class constant: of one or two literals, and
/// two for a pair, one behind the other.
pub(crate) fn clauses_of(
    alloc: Global,
    circuit: &Model,
    classes: &Classes,
) -> Result<Seq<Seq<Lit>>, Refused> {
    let latches = circuit.latches();
    let mut clauses = Seq::new(alloc);
    for (place, latch) in latches.iter().enumerate() {
        push_clauses(alloc, latches, classes, place, *latch, &mut clauses)?;
    }
    Ok(clauses)
}
