//! Replaying 256 runs of a circuit at once.

ghost use Rattle.std.specs.Prelude.{◌≡◌, ◌≢◌, ◌<◌, ◌≤◌, ℕ, length, IfOk, IfErr, IfSome, IsSome};
ghost use Rattle.base.specs.Witness.{witness};
ghost use Rattle.graph.specs.Circuits.{variable, value_of};
ghost use Rattle.simulate.specs.Lanes.{value_in, row_of};
ghost use Rattle.simulate.specs.Wides.{wide_begun, AllStart, AllStep, HasWideCause};

use crate::evaluation::{evaluate, in_order, literal_value, move_on};
use crate::initial::first_against_any;
use crate::lanes::all;
use crate::replay_error::ReplayError;
use base::{copied, filled};
use graph::{Gate, Lit, Model};
use std::alloc::Global;
use std::simd::u64x4;

/// A circuit in 256 runs, at one time after another. Run `r` is bit `r mod 64` of lane `r / 64`. Contracts see
/// the circuit, the states of the next time to be stepped, and the values at the time that was stepped last.
#[derive(Drop)]
pub struct Wide<'a> {
    circuit: &'a Model,
    // the circuit's gates, each after those that it reads
    gates: Vec<Gate>,
    // the states of the next time to be stepped
    state: Vec<u64x4>,
    // the values of the variables at the time stepped last, and false before; what nothing defines stays so
    values: Vec<u64x4>,
    // whether there is such a time
    is_stepped: bool,
}

impl<'a> std::marker::Model for Wide<'a> {
    ghost use Rattle.std.specs.Prelude.{◌≡◌, ◌+◌, length, Some, None, if◌then◌else◌};
    ghost use Rattle.simulate.specs.Wides.{WideReplayed, AreDefinedOnly, AreInOrder};

    ghost Value = { WideReplayed };

    ghost view = { λ r. record { circuit = r.circuit.now; state = r.state.items; now = if r.is_stepped then Some r.values.items else None } };

    ghost invariant = { λ r. (length r.state.items ≡ length r.circuit.now.latches) × (length r.values.items ≡ r.circuit.now.max_var + 1) × AreDefinedOnly r.circuit.now r.values.items × AreInOrder r.circuit.now.gates r.gates.items };
}

impl<'a> Wide<'a> {
    /// Runs that begin in these states: the values of each latch, in the order of the latches. It takes memory
    /// for the states and a valuation of each run, and for the gates once more, and none after that.
    pub fn new(
        alloc: Global,
        circuit: &'a Model,
        initial: &[u64x4],
    ) -> Result<Wide<'a>, ReplayError>
        requires { length initial.now ≡ length circuit.now.latches }
        ensures begun { IfOk result (λ w. (w ≡ wide_begun circuit.now initial.now) × AllStart circuit.now.latches initial.now) }
        ensures refused { IfErr result (HasWideCause circuit.now.latches initial.now) }
        ensures exact { IfErr result (λ e. e ≢ ReplayError.OutOfMemory witness → AllStart circuit.now.latches initial.now → ⊥) }
    {
        let parts = circuit.parts();
        if let Some(latch) = first_against_any(parts.latches.as_slice(), initial) {
            return Err(ReplayError::InitialReset {
                latch: latch as u32,
            });
        }
        let state = copied(alloc, initial)?;
        let values = filled(alloc, all(false), parts.max_var as usize + 1)?;
        let gates = in_order(alloc, parts.gates.as_slice(), circuit.order())?;
        Ok(Wide {
            circuit,
            gates,
            state,
            values,
            is_stepped: false,
        })
    }

    /// Evaluates the circuit in each run's state under its inputs, and moves on to the next states. The
    /// inputs have the order of the circuit. It touches each gate once and takes no memory.
    pub fn step(&mut self, inputs: &[u64x4])
        requires { length inputs.now ≡ length self.old.circuit.inputs }
        ensures { AllStep self.old self.new inputs.now }
    {
        let circuit = self.circuit;
        let parts = circuit.parts();
        evaluate(parts, &self.gates, &self.state, inputs, &mut self.values);
        move_on(parts.latches.as_slice(), &self.values, &mut self.state);
        self.is_stepped = true;
    }

    /// The states of the next time to be stepped.
    pub fn state(&self) -> &[u64x4]
        ensures { result.now ≡ self.now.state }
    {
        self.state.as_slice()
    }

    /// The values of a literal at the time that was stepped last.
    pub fn value(&self, lit: Lit) -> u64x4
        requires stepped { IsSome self.now.now }
        requires in_range { variable lit ≤ self.now.circuit.max_var }
        ensures { IfSome self.now.now (λ values. (r : ℕ) → r < 256 → value_in result r ≡ value_of (row_of r values) lit) }
    {
        literal_value(&self.values, lit)
    }
}
