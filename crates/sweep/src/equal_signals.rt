//! Signals that are known to be equal.

use crate::signals::equal_to;
use base::{Refused, insert, push};
use graph::{Gate, Lit, Model};
use std::alloc::Global;
use std::collections::BTreeMap;

/// Which signals are known to be equal, and, up to them, what gates read (structural hashing).
#[derive(Drop)]
pub(crate) struct EqualSignals {
    /// for each variable the first literal that it is equal to
    firsts: Vec<Lit>,
    /// for each two literals the first gate that reads them
    gates: BTreeMap<u64, Lit>,
}

/// Both literals as one number, in whatever order they come.
fn key(one: Lit, other: Lit) -> u64 {
    let (low, high) = if one.0 < other.0 {
        (one.0, other.0)
    } else {
        (other.0, one.0)
    };
    u64::from(low) << 32 | u64::from(high)
}

/// What a gate that reads these is equal to, where it is one of them or false.
fn folded(one: Lit, other: Lit) -> Option<Lit> {
    if one.0 == 0 || other.0 == 0 || one.0 == other.0 ^ 1 {
        return Some(Lit(0));
    }
    if one.0 == other.0 || other.0 == 1 {
        return Some(one);
    }
    if one.0 == 1 {
        return Some(other);
    }
    None
}

/// The literal of each variable.
fn literals(alloc: Global, max_var: u32) -> Result<Vec<Lit>, Refused> {
    let mut literals = Vec::new(alloc);
    for variable in 0..max_var.saturating_add(1) {
        push(&mut literals, Lit(variable.wrapping_mul(2)))?;
    }
    Ok(literals)
}

impl EqualSignals {
    /// Latches are equal that are said to be, and nothing else is known.
    pub(crate) fn new(
        alloc: Global,
        circuit: &Model,
        equal: &[Option<Lit>],
    ) -> Result<EqualSignals, Refused> {
        let mut signals = EqualSignals {
            firsts: literals(alloc, circuit.max_var())?,
            gates: BTreeMap::new(alloc),
        };
        for (position, latch) in circuit.latches().iter().enumerate() {
            if let Some(same) = equal_to(equal, position) {
                signals.merge(latch.lit, same);
            }
        }
        Ok(signals)
    }

    /// The first literal that this one is known to be equal to.
    pub(crate) fn first(&self, lit: Lit) -> Lit {
        match self.firsts.get(lit.variable() as usize) {
            Some(first) => Lit(first.0 ^ (lit.0 & 1)),
            None => lit,
        }
    }

    /// Notes that the literal is equal to one before it.
    pub(crate) fn merge(&mut self, lit: Lit, before: Lit) {
        let first = self.first(Lit(before.0 ^ (lit.0 & 1)));
        if let Some(entry) = self.firsts.get_mut(lit.variable() as usize) {
            *entry = first;
        }
    }

    /// What a gate is equal to since it reads what an earlier one does, or two literals of which one says all. Where that is
    /// nothing, the gate is the first that reads what it does.
    pub(crate) fn hashed(&mut self, gate: Gate) -> Result<Option<Lit>, Refused> {
        let (one, other) = (self.first(gate.rhs0), self.first(gate.rhs1));
        if let Some(lit) = folded(one, other) {
            return Ok(Some(lit));
        }
        let key = key(one, other);
        if let Some(lit) = self.gates.get(&key) {
            return Ok(Some(*lit));
        }
        insert(&mut self.gates, key, gate.lhs)?;
        Ok(None)
    }
}
