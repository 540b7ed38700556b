//! Which side of a gate is to be made false first, where either may be.
//!
//! A cube of states is the larger the fewer latches it names, and an input is free at each time. So a latch costs, an input
//! does not, and a gate costs what its cheaper side does, half of what the other one does, and a little for itself.

ghost use Rattle.std.specs.Prelude.{ℕ, Bool};
ghost use Rattle.solver.specs.Parts.{IsAnd};

use base::{Refused, filled};
use graph::{Gate, Model};
use solver::AndGate;
use std::alloc::Global;

/// What a latch costs.
const LATCH: u32 = 16;

/// Nothing costs more.
const MOST: u32 = 16_777_216;

/// What the variable costs, or nothing where it has no place.
fn cost_at(costs: &[u32], variable: u32) -> u32 {
    costs.get(variable as usize).copied().unwrap_or(0)
}

/// The variable costs so much.
fn put(costs: &mut [u32], variable: u32, cost: u32) {
    if let Some(place) = costs.get_mut(variable as usize) {
        *place = cost;
    }
}

/// What the gate costs by its right sides.
fn cost_of(costs: &[u32], gate: Gate) -> u32 {
    let first = cost_at(costs, gate.rhs0.variable());
    let second = cost_at(costs, gate.rhs1.variable());
    let more = first.max(second) / 2;
    first
        .min(second)
        .saturating_add(more)
        .saturating_add(1)
        .min(MOST)
}

/// What each variable costs. It takes a pass over the latches, and one over the gates in the order of evaluation.
pub(crate) fn costs_of(alloc: Global, circuit: &Model) -> Result<Vec<u32>, Refused> {
    circuit.well_formed();
    let mut costs = filled(alloc, 0u32, circuit.max_var() as usize + 1)?;
    for latch in circuit.latches() {
        put(costs.as_mut_slice(), latch.lit.variable(), LATCH);
    }
    for place in circuit.order() {
        if let Some(gate) = circuit.gates().get(*place as usize) {
            let cost = cost_of(costs.as_slice(), *gate);
            put(costs.as_mut_slice(), gate.lhs.variable(), cost);
        }
    }
    Ok(costs)
}

/// The gate with the side first that costs less.
pub(crate) fn cheaper_first(gate: AndGate, costs: &[u32]) -> AndGate
    ensures gate { (v : ℕ → Bool) → IsAnd v result → IsAnd v gate }
    ensures same { (v : ℕ → Bool) → IsAnd v gate → IsAnd v result }
{
    let first = cost_at(costs, gate.rhs0.unsigned_abs());
    if first <= cost_at(costs, gate.rhs1.unsigned_abs()) {
        return gate;
    }
    AndGate {
        lhs: gate.lhs,
        rhs0: gate.rhs1,
        rhs1: gate.rhs0,
    }
}
