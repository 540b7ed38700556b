//! The numbering of the binary layout.

ghost use Rattle.std.specs.Prelude.{◌+◌, ◌^◌, ◌<◌, ◌↔◌, length, map, All, IsTrue};
ghost use Rattle.graph.specs.WellFormed.{IsInLimits};
ghost use Rattle.graph.specs.Circuits.{IsOrdered, IsNumbered, IsDescending, defining};

use crate::circuit::{Gate, Latch, Lit};
use crate::parts::Parts;

/// Whether the literals are those of the variables from `first` on.
fn are_inputs_numbered(inputs: &[Lit], first: u64) -> bool
    requires { first + length inputs.now < 2 ^ 32 }
    ensures { IsTrue result ↔ IsNumbered first inputs.now }
{
    for (i, lit) in inputs.iter().enumerate() {
        if u64::from(lit.0) != 2 * (first + i as u64) {
            return false;
        }
    }
    true
}

/// Whether the latches' literals are those of the variables from `first` on.
fn are_latches_numbered(latches: &[Latch], first: u64) -> bool
    requires { first + length latches.now < 2 ^ 32 }
    ensures { IsTrue result ↔ IsNumbered first (map (λ l. l.lit) latches.now) }
{
    for (i, latch) in latches.iter().enumerate() {
        if u64::from(latch.lit.0) != 2 * (first + i as u64) {
            return false;
        }
    }
    true
}

/// Whether the gates' left sides are the literals of the variables from `first` on.
fn are_gates_numbered(gates: &[Gate], first: u64) -> bool
    requires { first + length gates.now < 2 ^ 32 }
    ensures { IsTrue result ↔ IsNumbered first (map (λ g. g.lhs) gates.now) }
{
    for (i, gate) in gates.iter().enumerate() {
        if u64::from(gate.lhs.0) != 2 * (first + i as u64) {
            return false;
        }
    }
    true
}

/// Whether each gate's literals descend.
fn are_descending(gates: &[Gate]) -> bool
    ensures { IsTrue result ↔ All IsDescending gates.now }
{
    gates.iter().all(|gate| gate.rhs0.0 < gate.lhs.0 && gate.rhs1.0 <= gate.rhs0.0)
}

/// Whether inputs, latches and gates have the literals 2, 4, 6 and so on.
fn are_all_numbered(parts: &Parts) -> bool
    requires { IsInLimits parts.now }
    ensures { IsTrue result ↔ IsNumbered 1 (defining parts.now) }
{
    let inputs = parts.inputs.len() as u64;
    let latches = parts.latches.len() as u64;
    if !are_inputs_numbered(parts.inputs.as_slice(), 1) {
        return false;
    }
    if !are_latches_numbered(parts.latches.as_slice(), 1 + inputs) {
        return false;
    }
    are_gates_numbered(parts.gates.as_slice(), 1 + inputs + latches)
}

/// Whether the circuit has the numbering of the binary layout.
pub fn is_ordered(parts: &Parts) -> bool
    requires { IsInLimits parts.now }
    ensures { IsTrue result ↔ IsOrdered parts.now }
{
    let defined = parts.inputs.len() + parts.latches.len() + parts.gates.len();
    if parts.max_var as usize != defined || !are_all_numbered(parts) {
        return false;
    }
    are_descending(parts.gates.as_slice())
}
