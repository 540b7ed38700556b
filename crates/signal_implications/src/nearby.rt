//! The variables of which a literal is made first.

ghost use Rattle.std.specs.Prelude.{◌≡◌, ◌≤◌, IfOk, length};

use crate::marks::{is_marked, put};
use base::{Refused, filled, push};
use cnf::NextTable;
use cones::GateTable;
use graph::{Gate, Lit, Model};
use std::alloc::Global;

/// How many gates are taken that no latch reads.
const GATES: usize = 300;

/// A search from a literal through what it is made of, over any number of steps.
#[derive(Drop)]
struct Nearby {
    /// the variables that were found, the nearest first
    list: Vec<u32>,
    /// for each variable whether it was found
    is_found: Vec<bool>,
    /// for each variable whether a latch that was found reads it
    is_read: Vec<bool>,
    /// the literals that are taken
    taken: Vec<Lit>,
    /// how many gates are taken that no latch reads
    gates: usize,
    /// how many literals are taken at most
    most: usize,
}

impl std::marker::Model for Nearby {
    ghost use Rattle.std.specs.Prelude.{ℕ, ◌≤◌, length};

    ghost Value = { ℕ };

    ghost view = { λ n. n.most };

    ghost invariant = { λ n. length n.taken.items ≤ n.most };
}

impl Nearby {
    /// Nothing yet.
    fn new(alloc: Global, circuit: &Model, most: usize) -> Result<Nearby, Refused>
        ensures { IfOk result (λ n. n ≡ most) }
    {
        circuit.well_formed();
        let count = circuit.max_var() as usize + 1;
        Ok(Nearby {
            list: Vec::new(alloc),
            is_found: filled(alloc, false, count)?,
            is_read: filled(alloc, false, count)?,
            taken: Vec::new(alloc),
            gates: 0,
            most,
        })
    }

    /// Adds the literal's variable, where it was not found yet.
    fn add(&mut self, lit: Lit) -> Result<(), Refused>
        ensures { self.new ≡ self.old }
    {
        if put(self.is_found.as_mut_slice(), lit.variable() as usize, true) {
            push(&mut self.list, lit.variable())?;
        }
        Ok(())
    }

    /// Takes the variable's literal, where there is room.
    fn take(&mut self, variable: u32) -> Result<(), Refused>
        ensures { self.new ≡ self.old }
    {
        if self.taken.len() < self.most {
            push(&mut self.taken, Lit(variable.saturating_mul(2)))?;
        }
        Ok(())
    }

    /// Takes a latch that was found, and adds what it reads.
    fn visit_latch(&mut self, variable: u32, next: Lit) -> Result<(), Refused>
        ensures { self.new ≡ self.old }
    {
        put(self.is_read.as_mut_slice(), next.variable() as usize, true);
        self.take(variable)?;
        self.add(next)
    }

    /// Takes a gate that was found, where a latch reads it or it is one of the first, and adds what it reads.
    fn visit_gate(&mut self, variable: u32, gate: Gate) -> Result<(), Refused>
        ensures { self.new ≡ self.old }
    {
        if is_marked(self.is_read.as_slice(), variable as usize) || self.gates < GATES {
            self.gates = self.gates.saturating_add(1);
            self.take(variable)?;
        }
        self.add(gate.rhs0)?;
        self.add(gate.rhs1)
    }

    /// Visits a variable that was found.
    fn visit(&mut self, nexts: &NextTable, gates: &GateTable, variable: u32) -> Result<(), Refused>
        ensures { self.new ≡ self.old }
    {
        if nexts.is_latch(variable) {
            return self.visit_latch(variable, nexts.next_of(Lit(variable.saturating_mul(2))));
        }
        match gates.gate_of(variable) {
            Some(gate) => self.visit_gate(variable, gate),
            None => Ok(()),
        }
    }
}

/// The latches of which a literal is made over any number of steps, the gates that these read, and the first other gates: so many at
/// most, the nearest first.
pub fn near(alloc: Global, circuit: &Model, lit: Lit, most: usize) -> Result<Vec<Lit>, Refused>
    ensures limit { IfOk result (λ l. length l.items ≤ most) }
{
    let (nexts, gates) = (
        NextTable::new(alloc, circuit)?,
        GateTable::new(alloc, circuit)?,
    );
    let mut nearby = Nearby::new(alloc, circuit, most)?;
    nearby.add(lit)?;
    for place in 0..nearby.is_found.len() {
        let Some(variable) = nearby.list.get(place).copied() else {
            break;
        };
        nearby.visit(&nexts, &gates, variable)?;
    }
    Ok(nearby.taken)
}
