//! Which latches a round asks about.

use crate::marks::{is_marked, mark};
use base::{Refused, filled, push};
use graph::{Gate, Lit, Model};
use latch_classes::Classes;
use std::alloc::Global;

/// The class of each latch.
pub(crate) fn classes_of(
    alloc: Global,
    circuit: &Model,
    classes: &Classes,
) -> Result<Vec<Option<usize>>, Refused> {
    let mut all = Vec::new(alloc);
    for place in 0..circuit.latches().len() {
        push(&mut all, classes.class_of(place))?;
    }
    Ok(all)
}

/// Whether the class of the latch at a place is another one than before.
fn is_moved(classes: &Classes, before: &[Option<usize>], place: usize) -> bool {
    match before.get(place) {
        Some(class) => *class != classes.class_of(place),
        None => true,
    }
}

/// Whether the latch at a place may be equal to its class's lead, which is another one, or constant.
fn is_member(classes: &Classes, place: usize) -> bool {
    match classes.class_of(place) {
        Some(class) => classes.lead_of(class) != Some(place),
        None => false,
    }
}

/// The places of the latches that may be equal to others or constant.
pub(crate) fn members(
    alloc: Global,
    circuit: &Model,
    classes: &Classes,
) -> Result<Vec<usize>, Refused> {
    let mut places = Vec::new(alloc);
    for place in 0..circuit.latches().len() {
        if is_member(classes, place) {
            push(&mut places, place)?;
        }
    }
    Ok(places)
}

/// What is made of latches whose class changed.
#[derive(Drop)]
struct Changed {
    /// for each variable
    marks: Vec<bool>,
}

impl Changed {
    /// Whether the literal is made of such latches.
    fn has(&self, lit: Lit) -> bool {
        is_marked(self.marks.as_slice(), lit)
    }

    /// The literal is made of such latches.
    fn mark(&mut self, lit: Lit) {
        mark(self.marks.as_mut_slice(), lit);
    }

    /// The latches whose class is another one than before.
    fn latches(
        alloc: Global,
        circuit: &Model,
        classes: &Classes,
        before: &[Option<usize>],
    ) -> Result<Changed, Refused> {
        circuit.well_formed();
        let marks = filled(alloc, false, circuit.max_var() as usize + 1)?;
        let mut changed = Changed { marks };
        for (place, latch) in circuit.latches().iter().enumerate() {
            if is_moved(classes, before, place) {
                changed.mark(latch.lit);
            }
        }
        Ok(changed)
    }

    /// The gate is made of such latches where what it reads is.
    fn add(&mut self, gate: Gate) {
        if self.has(gate.rhs0) || self.has(gate.rhs1) {
            self.mark(gate.lhs);
        }
    }

    /// All that is made of them.
    fn of(
        alloc: Global,
        circuit: &Model,
        classes: &Classes,
        before: &[Option<usize>],
    ) -> Result<Changed, Refused> {
        let mut changed = Changed::latches(alloc, circuit, classes, before)?;
        for place in circuit.order() {
            if let Some(gate) = circuit.gates().get(*place as usize) {
                changed.add(*gate);
            }
        }
        Ok(changed)
    }

    /// Whether one of the literals is made of them.
    fn has_any(&self, lits: &[Lit]) -> bool {
        for lit in lits {
            if self.has(*lit) {
                return true;
            }
        }
        false
    }

    /// Whether the latch at a place, or what it comes to, is made of them.
    fn has_latch(&self, circuit: &Model, place: usize) -> bool {
        match circuit.latches().get(place) {
            Some(latch) => self.has(latch.lit) || self.has(latch.next),
            None => false,
        }
    }

    /// Whether the latch at a place may no longer come to what its class's lead comes to.
    fn may_part(&self, circuit: &Model, classes: &Classes, place: usize) -> bool {
        let Some(class) = classes.class_of(place) else {
            return false;
        };
        self.has_latch(circuit, place)
            || match classes.lead_of(class) {
                Some(lead) => self.has_latch(circuit, lead),
                None => false,
            }
    }
}

/// The places of the latches that may be equal to others or constant, where that may have come to an end since the latches had these
/// classes.
pub(crate) fn affected(
    alloc: Global,
    circuit: &Model,
    classes: &Classes,
    before: &[Option<usize>],
) -> Result<Vec<usize>, Refused> {
    let changed = Changed::of(alloc, circuit, classes, before)?;
    if changed.has_any(circuit.constraints()) {
        return members(alloc, circuit, classes);
    }
    let mut places = Vec::new(alloc);
    for place in 0..circuit.latches().len() {
        if is_member(classes, place) && changed.may_part(circuit, classes, place) {
            push(&mut places, place)?;
        }
    }
    Ok(places)
}
