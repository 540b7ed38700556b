//! A circuit in which equal latches are one.

use crate::marks::{is_marked, mark};
use base::{Refused, Seq, filled_like, insert, push};
use graph::{Gate, Latch, Lit, Model, Parts, ReadError};
use latch_classes::Classes;
use std::alloc::Global;
use std::collections::BTreeMap;

/// As what the variables of a circuit are read, and the gates that are read as themselves, each behind what it reads.
#[derive(Drop)]
pub(crate) struct Reduced {
    /// for each variable the literal as which it is read
    firsts: Vec<Lit>,
    gates: Vec<Gate>,
}

/// Both literals as one number, in whatever order they come.
fn key(one: Lit, other: Lit) -> u64 {
    let (low, high) = if one.0 < other.0 {
        (one.0, other.0)
    } else {
        (other.0, one.0)
    };
    u64::from(low) << 32 | u64::from(high)
}

/// What a gate that reads these is equal to, where it is one of them or false.
fn folded(one: Lit, other: Lit) -> Option<Lit> {
    if one.0 == 0 || other.0 == 0 || one.0 == other.0 ^ 1 {
        return Some(Lit(0));
    }
    if one.0 == other.0 || other.0 == 1 {
        return Some(one);
    }
    if one.0 == 1 {
        return Some(other);
    }
    None
}

/// The literals of the variables.
fn literals(alloc: Global, max_var: u32) -> Result<Vec<Lit>, Refused> {
    let mut literals = Vec::new(alloc);
    for variable in 0..max_var.saturating_add(1) {
        push(&mut literals, Lit(variable.wrapping_mul(2)))?;
    }
    Ok(literals)
}

/// The literal's negation.
pub(crate) fn negated(lit: Lit) -> Lit {
    Lit(lit.0 ^ 1)
}

/// A literal of the latch that is false at first, where it is reset to 0 or 1.
pub(crate) fn low(latch: Latch, lit: Lit) -> Lit {
    Lit(lit.0 ^ (latch.reset.0 & 1))
}

/// As what the latch at a place is read: as the lead of its class, or as its first value.
fn read_as(latches: &[Latch], classes: &Classes, place: usize, latch: Latch) -> Lit {
    let Some(class) = classes.class_of(place) else {
        return latch.lit;
    };
    let Some(lead) = classes.lead_of(class) else {
        return low(latch, Lit(0));
    };
    match latches.get(lead) {
        Some(lead) => low(latch, low(*lead, lead.lit)),
        None => latch.lit,
    }
}

/// The latches, each of which keeps the value that it begins with.
fn kept(alloc: Global, latches: &[Latch]) -> Result<Seq<Latch>, Refused> {
    let mut kept = Seq::new(alloc);
    for latch in latches {
        kept.push(Latch {
            lit: latch.lit,
            next: latch.lit,
            reset: latch.lit,
        })?;
    }
    Ok(kept)
}

impl Reduced {
    /// Each latch is read as its class says, and no gate yet.
    fn begin(alloc: Global, circuit: &Model, classes: &Classes) -> Result<Reduced, Refused> {
        let mut reduced = Reduced {
            firsts: literals(alloc, circuit.max_var())?,
            gates: Vec::new(alloc),
        };
        for (place, latch) in circuit.latches().iter().enumerate() {
            let lit = read_as(circuit.latches(), classes, place, *latch);
            reduced.set(latch.lit, lit);
        }
        Ok(reduced)
    }

    /// As what a literal is read.
    pub(crate) fn first(&self, lit: Lit) -> Lit {
        match self.firsts.get(lit.variable() as usize) {
            Some(first) => Lit(first.0 ^ (lit.0 & 1)),
            None => lit,
        }
    }

    /// The variable's literal is read as another.
    fn set(&mut self, lit: Lit, first: Lit) {
        if let Some(entry) = self.firsts.get_mut(lit.variable() as usize) {
            *entry = first;
        }
    }

    /// Reads a gate, where those before it are read: as what it is equal to, as one that reads the same, or else as itself.
    fn add(&mut self, found: &mut BTreeMap<u64, Lit>, gate: Gate) -> Result<(), Refused> {
        let (rhs0, rhs1) = (self.first(gate.rhs0), self.first(gate.rhs1));
        if let Some(lit) = folded(rhs0, rhs1) {
            self.set(gate.lhs, lit);
            return Ok(());
        }
        let key = key(rhs0, rhs1);
        if let Some(lit) = found.get(&key) {
            self.set(gate.lhs, *lit);
            return Ok(());
        }
        insert(found, key, gate.lhs)?;
        push(
            &mut self.gates,
            Gate {
                lhs: gate.lhs,
                rhs0,
                rhs1,
            },
        )
    }

    /// The circuit in which the latches of each class are one.
    pub(crate) fn of(
        alloc: Global,
        circuit: &Model,
        classes: &Classes,
    ) -> Result<Reduced, Refused> {
        let mut reduced = Reduced::begin(alloc, circuit, classes)?;
        let mut found = BTreeMap::new(alloc);
        for place in circuit.order() {
            if let Some(gate) = circuit.gates().get(*place as usize) {
                reduced.add(&mut found, *gate)?;
            }
        }
        Ok(reduced)
    }

    /// The literals as which these are read.
    fn read(&self, alloc: Global, lits: &[Lit]) -> Result<Seq<Lit>, Refused> {
        let mut read = Seq::new(alloc);
        for lit in lits {
            read.push(self.first(*lit))?;
        }
        Ok(read)
    }

    /// Marks the variables of the literals as which these are read.
    fn mark_all(&self, marks: &mut [bool], lits: &[Lit]) {
        for lit in lits {
            mark(marks, self.first(*lit));
        }
    }

    /// Marks what the gates read whose variables are marked.
    fn mark_cone(&self, marks: &mut [bool]) {
        let count = self.gates.len();
        for back in 0..count {
            if let Some(gate) = self.gates.get(count.saturating_sub(back).saturating_sub(1))
                && is_marked(marks, gate.lhs)
            {
                mark(marks, gate.rhs0);
                mark(marks, gate.rhs1);
            }
        }
    }

    /// Which variables these literals, as they are read, and the circuit's constraints are made of.
    fn cone(&self, alloc: Global, circuit: &Model, lits: &[Lit]) -> Result<Vec<bool>, Refused> {
        let mut marks = filled_like(alloc, false, self.firsts.as_slice())?;
        self.mark_all(marks.as_mut_slice(), lits);
        self.mark_all(marks.as_mut_slice(), circuit.constraints());
        self.mark_cone(marks.as_mut_slice());
        Ok(marks)
    }

    /// The gates whose variables are marked.
    fn marked_gates(&self, alloc: Global, marks: &[bool]) -> Result<Seq<Gate>, Refused> {
        let mut gates = Seq::new(alloc);
        for gate in self.gates.iter() {
            if is_marked(marks, gate.lhs) {
                gates.push(*gate)?;
            }
        }
        Ok(gates)
    }

    /// The gates of which these literals, as they are read, and the circuit's constraints are made, as a circuit whose latches keep
    /// their values. None where that were no circuit.
    pub(crate) fn part(
        &self,
        alloc: Global,
        circuit: &Model,
        lits: &[Lit],
    ) -> Result<Option<Model>, Refused> {
        let marks = self.cone(alloc, circuit, lits)?;
        let parts = Parts {
            max_var: circuit.max_var(),
            inputs: Seq::from_slice(alloc, circuit.inputs())?,
            latches: kept(alloc, circuit.latches())?,
            outputs: Seq::new(alloc),
            bad: Seq::new(alloc),
            constraints: self.read(alloc, circuit.constraints())?,
            justice: Seq::new(alloc),
            fairness: Seq::new(alloc),
            gates: self.marked_gates(alloc, marks.as_slice())?,
        };
        match Model::from_parts(alloc, parts) {
            Ok(model) => Ok(Some(model)),
            Err(ReadError::OutOfMemory(refused)) => Err(refused),
            Err(_) => Ok(None),
        }
    }
}
