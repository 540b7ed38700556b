//! The gates of a circuit as a part has them, by variable.

ghost use Rattle.std.specs.Prelude.{◌≡◌, ◌+◌, ◌<◌, ◌^◌, IfOk};
ghost use Rattle.cnf.specs.Formulas.{IsGateIn};
ghost use Rattle.ic3_step.specs.Queries.{IsSameAnd, ArePartGates, and_gate, and_at, ands_in};

use crate::costs::{cheaper_first, costs_of};
use base::{Refused, filled, push};
use cnf::TimeFrame;
use graph::{Gate, Model};
use solver::AndGate;
use std::alloc::Global;

/// The gates of a circuit by literals of clauses, by variable, each with the side first that costs
/// less. It is made in one pass over the gates beside that of the costs, and asked in constant time.
#[derive(Drop)]
pub(crate) struct PartGates {
    /// the gate of each variable that is a gate's
    entries: Vec<Option<AndGate>>,
}

impl std::marker::Model for PartGates {
    ghost use Rattle.std.specs.Prelude.{List, Option};
    ghost use Rattle.solver.specs.declared.part.AndGate.{AndGate};

    ghost Value = { List (Option AndGate) };

    ghost view = { λ t. t.entries.items };
}

/// The gate by literals of clauses, with the side first that costs less.
fn part_gate(time: TimeFrame, costs: &[u32], gate: Gate) -> AndGate
    requires first { time.offset ≡ 0 }
    requires fits { time.max_var + 1 < 2 ^ 31 }
    requires range { IsGateIn time.max_var gate }
    ensures { IsSameAnd result (and_gate time.max_var gate) }
{
    let gate = AndGate {
        lhs: time.literal(gate.lhs),
        rhs0: time.literal(gate.rhs0),
        rhs1: time.literal(gate.rhs1),
    };
    cheaper_first(gate, costs)
}

impl PartGates {
    /// The table of the circuit's gates.
    pub(crate) fn new(alloc: Global, circuit: &Model) -> Result<PartGates, Refused>
        ensures { IfOk result (λ t. ArePartGates circuit.now t) }
    {
        circuit.well_formed();
        let time = TimeFrame::first(circuit);
        let costs = costs_of(alloc, circuit)?;
        let mut entries = filled(alloc, None, circuit.max_var() as usize + 1)?;
        for gate in circuit.gates() {
            let entry = part_gate(time, &costs, *gate);
            entries[gate.lhs.variable() as usize] = Some(entry);
        }
        Ok(PartGates { entries })
    }

    /// The gate of a variable, if it is a gate's.
    fn gate_of(&self, variable: u32) -> Option<AndGate>
        ensures { result ≡ and_at self.now variable }
    {
        match self.entries.get(variable as usize) {
            Some(entry) => *entry,
            None => None,
        }
    }

    /// The gates of those of the variables that are gates'. It costs the variables.
    pub(crate) fn gates_of(&self, alloc: Global, list: &[u32]) -> Result<Vec<AndGate>, Refused>
        ensures { IfOk result (λ gates. gates.items ≡ ands_in self.now list.now) }
    {
        let mut gates = Vec::new(alloc);
        for variable in list {
            if let Some(gate) = self.gate_of(*variable) {
                push(&mut gates, gate)?;
            }
        }
        Ok(gates)
    }
}
