//! Replaying a circuit.

ghost use Rattle.std.specs.Prelude.{◌≡◌, ◌≢◌, ◌<◌, ◌≤◌, length, map, All, IfOk, IfErr, IfSome, IsSome};
ghost use Rattle.base.specs.Witness.{witness};
ghost use Rattle.graph.specs.Circuits.{variable, value_of};
ghost use Rattle.simulate.specs.Refusals.{HasCause};
ghost use Rattle.simulate.specs.Replays.{begun, Steps};
ghost use Rattle.simulate.specs.Starts.{Starts};

use crate::initial::first_against;
use crate::replay_error::ReplayError;
use base::{copied, filled};
use graph::{Latch, Lit, Model, literal_value};
use std::alloc::Global;

/// A circuit at one time after another. Contracts see the circuit, the state of the next time to be
/// stepped, and the valuation of the time that was stepped last.
#[derive(Drop)]
pub struct Replay<'a> {
    circuit: &'a Model,
    // the state of the next time to be stepped
    state: Vec<bool>,
    // the values of the variables at the time stepped last
    values: Vec<bool>,
    // whether there is such a time
    is_stepped: bool,
}

impl<'a> std::marker::Model for Replay<'a> {
    ghost use Rattle.std.specs.Prelude.{◌≡◌, ◌+◌, length, Some, None, if◌then◌else◌};
    ghost use Rattle.simulate.specs.Replays.{Replayed};

    ghost Value = { Replayed };

    ghost view = { λ r. record { circuit = r.circuit.now; state = r.state.items; now = if r.is_stepped then Some r.values.items else None } };

    ghost invariant = { λ r. (length r.state.items ≡ length r.circuit.now.latches) × (length r.values.items ≡ r.circuit.now.max_var + 1) };
}

/// Gives each latch the value of its next literal.
fn take_over(latches: &[Latch], values: &[bool], state: &mut [bool])
    requires lengths { length state.old ≡ length latches.now }
    requires in_range { All (λ l. variable l.next < length values.now) latches.now }
    ensures { state.new ≡ map (λ l. value_of values.now l.next) latches.now }
{
    for (i, latch) in latches.iter().enumerate() {
        state[i] = literal_value(latch.next, values);
    }
}

impl<'a> Replay<'a> {
    /// A replay that begins in this state. It takes memory for the state and a valuation, and none
    /// after that.
    pub fn new(
        alloc: Global,
        circuit: &'a Model,
        initial: &[bool],
    ) -> Result<Replay<'a>, ReplayError>
        requires { length initial.now ≡ length circuit.now.latches }
        ensures begun { IfOk result (λ r. (r ≡ begun circuit.now initial.now) × Starts circuit.now.latches initial.now) }
        ensures refused { IfErr result (HasCause circuit.now.latches initial.now) }
        ensures exact { IfErr result (λ e. e ≢ ReplayError.OutOfMemory witness → Starts circuit.now.latches initial.now → ⊥) }
    {
        let parts = circuit.parts();
        if let Some(latch) = first_against(parts.latches.as_slice(), initial) {
            return Err(ReplayError::InitialReset {
                latch: latch as u32,
            });
        }
        let state = copied(alloc, initial)?;
        let values = filled(alloc, false, parts.max_var as usize + 1)?;
        Ok(Replay {
            circuit,
            state,
            values,
            is_stepped: false,
        })
    }

    /// Evaluates the circuit in its state under these inputs, and moves on to the next state. It
    /// touches each gate once and takes no memory.
    pub fn step(&mut self, inputs: &[bool])
        requires { length inputs.now ≡ length self.old.circuit.inputs }
        ensures { Steps self.old self.new inputs.now }
    {
        let circuit = self.circuit;
        circuit.eval(&self.state, inputs, &mut self.values);
        take_over(
            circuit.parts().latches.as_slice(),
            &self.values,
            &mut self.state,
        );
        self.is_stepped = true;
    }

    /// The state of the next time to be stepped.
    pub fn state(&self) -> &[bool]
        ensures { result.now ≡ self.now.state }
    {
        self.state.as_slice()
    }

    /// The value of a literal at the time that was stepped last.
    pub fn value(&self, lit: Lit) -> bool
        requires stepped { IsSome self.now.now }
        requires in_range { variable lit ≤ self.now.circuit.max_var }
        ensures { IfSome self.now.now (λ w. result ≡ value_of w lit) }
    {
        literal_value(lit, &self.values)
    }
}
