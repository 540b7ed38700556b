//! The gates near some variables.

use crate::equal_signals::EqualSignals;
use crate::pairs::Pair;
use crate::unit::unit;
use base::{Refused, filled, push};
use cones::GateTable;
use graph::{Gate, Lit, Model};
use solver::{AndGate, Part};
use std::alloc::Global;

/// The gates of a circuit by their variables, for parts of it.
#[derive(Drop)]
pub struct Near {
    table: GateTable,
    /// a mark for each variable, of which none is set between two calls
    marks: Vec<bool>,
    /// the literal of what is true
    truth: u32,
}

/// What a question about two signals looks at.
#[derive(Drop)]
struct Reading {
    /// the variables, of which the first two are asked about
    variables: Vec<u32>,
    gates: Vec<AndGate>,
    /// how many of the gates say what a variable is made of
    count: usize,
}

/// The gate as a part has it.
fn and_gate(truth: u32, gate: Gate) -> AndGate {
    AndGate {
        lhs: unit(truth, gate.lhs),
        rhs0: unit(truth, gate.rhs0),
        rhs1: unit(truth, gate.rhs1),
    }
}

impl Near {
    /// Nothing marked yet. It costs the circuit.
    pub fn new(alloc: Global, circuit: &Model) -> Result<Near, Refused> {
        circuit.well_formed();
        let table = GateTable::new(alloc, circuit)?;
        let marks = filled(alloc, false, circuit.max_var() as usize + 1)?;
        let truth = circuit.max_var() + 1;
        Ok(Near {
            table,
            marks,
            truth,
        })
    }

    /// Marks the variable, and adds it to the list where it was not marked.
    fn mark(&mut self, list: &mut Vec<u32>, variable: u32) -> Result<(), Refused> {
        if let Some(mark) = self.marks.get_mut(variable as usize)
            && !*mark
        {
            *mark = true;
            push(list, variable)?;
        }
        Ok(())
    }

    /// Takes the listed marks away.
    fn unmark(&mut self, list: &[u32]) {
        for variable in list {
            if let Some(mark) = self.marks.get_mut(*variable as usize) {
                *mark = false;
            }
        }
    }

    /// The gates of which what is listed is made, the nearest first, as many at most. The list grows by what they read.
    fn gates(
        &mut self,
        alloc: Global,
        list: &mut Vec<u32>,
        most: usize,
    ) -> Result<Vec<AndGate>, Refused> {
        let mut gates = Vec::new(alloc);
        'walking: for next in 0..self.marks.len() {
            if next >= list.len() || gates.len() >= most {
                return Ok(gates);
            }
            if let Some(gate) = self.table.gate_of(list[next]) {
                push(&mut gates, and_gate(self.truth, gate))?;
                self.mark(list, gate.rhs0.variable())?;
                self.mark(list, gate.rhs1.variable())?;
            }
        }
        Ok(gates)
    }

    /// The part of the gates of which these variables are made, the nearest first, as many at most, in which these literals
    /// are true. It costs this part. After a refusal the marks are worth nothing.
    pub fn part(
        &mut self,
        alloc: Global,
        variables: &[u32],
        wanted: &[Lit],
        most: usize,
    ) -> Result<Part, Refused> {
        let mut list = Vec::new(alloc);
        let mut literals = Vec::new(alloc);
        push(&mut literals, unit(self.truth, Lit(1)))?;
        'wanting: for lit in wanted {
            push(&mut literals, unit(self.truth, *lit))?;
            self.mark(&mut list, lit.variable())?;
        }
        'marking: for variable in variables {
            self.mark(&mut list, *variable)?;
        }
        let gates = self.gates(alloc, &mut list, most)?;
        self.unmark(list.as_slice());
        Ok(Part { gates, literals })
    }

    /// The gates of the circuit by their variables.
    pub(crate) fn table(&self) -> &GateTable {
        &self.table
    }

    /// Reads the variable at an index: of two signals that are known to be equal the first, else what it is made of, where fewer
    /// gates were looked at. That comes into the part by a gate that is false whatever it is.
    fn read(
        &mut self,
        equal: &EqualSignals,
        reading: &mut Reading,
        index: usize,
        most: usize,
    ) -> Result<(), Refused> {
        let Some(variable) = reading.variables.get(index).copied() else {
            return Ok(());
        };
        let first = equal.first(Lit(variable.wrapping_mul(2)));
        if index >= 2 && first.variable() != variable {
            let gate = Gate {
                lhs: Lit(0),
                rhs0: first,
                rhs1: Lit(first.0 ^ 1),
            };
            push(&mut reading.gates, and_gate(self.truth, gate))?;
            return self.mark(&mut reading.variables, first.variable());
        }
        if reading.count >= most {
            return Ok(());
        }
        if let Some(gate) = self.table.gate_of(variable) {
            reading.count += 1;
            push(&mut reading.gates, and_gate(self.truth, gate))?;
            self.mark(&mut reading.variables, gate.rhs0.variable())?;
            self.mark(&mut reading.variables, gate.rhs1.variable())?;
        }
        Ok(())
    }

    /// The gates near a pair of signals, where of those that are known to be equal the first is read. It costs this part.
    pub(crate) fn part_of_pair(
        &mut self,
        alloc: Global,
        equal: &EqualSignals,
        pair: Pair,
    ) -> Result<Part, Refused> {
        let mut reading = Reading {
            variables: Vec::new(alloc),
            gates: Vec::new(alloc),
            count: 0,
        };
        self.mark(&mut reading.variables, pair.one.variable())?;
        self.mark(&mut reading.variables, pair.other.variable())?;
        'reading: for index in 0..self.marks.len() {
            if index >= reading.variables.len() {
                break;
            }
            self.read(equal, &mut reading, index, pair.gates)?;
        }
        self.unmark(reading.variables.as_slice());
        let mut literals = Vec::new(alloc);
        push(&mut literals, unit(self.truth, Lit(1)))?;
        Ok(Part {
            gates: reading.gates,
            literals,
        })
    }

    /// The part that these units and the constraints of the circuit are made of.
    pub fn part_of(
        &mut self,
        alloc: Global,
        circuit: &Model,
        units: &[i32],
    ) -> Result<Part, Refused> {
        let mut variables = Vec::new(alloc);
        for unit in units {
            push(&mut variables, unit.unsigned_abs())?;
        }
        let constraints = circuit.constraints();
        self.part(alloc, variables.as_slice(), constraints, usize::MAX)
    }
}
