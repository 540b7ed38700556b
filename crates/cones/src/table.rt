//! The gates of a circuit by variable.

ghost use Rattle.std.specs.Prelude.{◌≡◌, IfOk};
ghost use Rattle.cones.specs.Reach.{IsGateTable, gate_at};

use base::{Refused, filled};
use graph::{Gate, Model};
use std::alloc::Global;

/// The gates of a circuit, by variable. It is made in one pass over the gates, and asked in
/// constant time.
#[derive(Drop)]
pub struct GateTable {
    /// the gate of each variable that is a gate's
    entries: Vec<Option<Gate>>,
}

impl std::marker::Model for GateTable {
    ghost use Rattle.std.specs.Prelude.{List, Option};
    ghost use Rattle.graph.specs.declared.circuit.Gate.{Gate};

    ghost Value = { List (Option Gate) };

    ghost view = { λ t. t.entries.items };
}

impl GateTable {
    /// The table of the circuit's gates.
    pub fn new(alloc: Global, circuit: &Model) -> Result<GateTable, Refused>
        ensures { IfOk result (λ t. IsGateTable circuit.now t) }
    {
        circuit.well_formed();
        let mut entries = filled(alloc, None, circuit.max_var() as usize + 1)?;
        for gate in circuit.gates() {
            entries[gate.lhs.variable() as usize] = Some(*gate);
        }
        Ok(GateTable { entries })
    }

    /// The gate of a variable, if it is a gate's.
    pub fn gate_of(&self, variable: u32) -> Option<Gate>
        ensures { result ≡ gate_at self.now variable }
    {
        match self.entries.get(variable as usize) {
            Some(entry) => *entry,
            None => None,
        }
    }
}
