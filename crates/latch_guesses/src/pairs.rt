//! What latches and the leads of their classes come to.

use crate::reduced::{Reduced, low};
use base::{Refused, copied, push};
use graph::{Lit, Model};
use latch_classes::Classes;
use std::alloc::Global;

/// What a latch and the lead of its class come to.
#[derive(Clone, Copy)]
pub(crate) struct Pair {
    /// the place of the latch
    pub place: usize,
    /// its class
    pub class: usize,
    /// the next literal of the latch, negated where it is reset to 1
    pub one: Lit,
    /// that of the lead, or false
    pub other: Lit,
}

/// As what the next literal of the latch at a place is read, negated where it is reset to 1.
fn next(circuit: &Model, reduced: &Reduced, place: usize) -> Lit {
    match circuit.latches().get(place) {
        Some(latch) => reduced.first(low(*latch, latch.next)),
        None => Lit(0),
    }
}

/// What the latch at a place and the lead of its class come to. None where that is the same literal.
fn pair_at(circuit: &Model, classes: &Classes, reduced: &Reduced, place: usize) -> Option<Pair> {
    let Some(class) = classes.class_of(place) else {
        return None;
    };
    let one = next(circuit, reduced, place);
    let other = match classes.lead_of(class) {
        Some(lead) => next(circuit, reduced, lead),
        None => Lit(0),
    };
    if one.0 == other.0 {
        return None;
    }
    Some(Pair {
        place,
        class,
        one,
        other,
    })
}

/// What the latches at these places and the leads of their classes come to, where that is not the same literal.
pub(crate) fn pairs_of(
    alloc: Global,
    circuit: &Model,
    classes: &Classes,
    reduced: &Reduced,
    places: &[usize],
) -> Result<Vec<Pair>, Refused> {
    let mut pairs = Vec::new(alloc);
    for place in places {
        if let Some(pair) = pair_at(circuit, classes, reduced, *place) {
            push(&mut pairs, pair)?;
        }
    }
    Ok(pairs)
}

/// These literals, and those of the pairs behind them.
pub(crate) fn lits_of(alloc: Global, first: &[Lit], pairs: &[Pair]) -> Result<Vec<Lit>, Refused> {
    let mut lits = copied(alloc, first)?;
    for pair in pairs {
        push(&mut lits, pair.one)?;
        push(&mut lits, pair.other)?;
    }
    Ok(lits)
}
