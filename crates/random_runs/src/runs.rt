//! 256 runs from any states.

ghost use Rattle.std.specs.Prelude.{◌≡◌, ◌≤◌, All, IfOk, IfSome, IsSome, IsTrue};
ghost use Rattle.graph.specs.Circuits.{variable};

use base::Refused;
use graph::{Lit, Model};
use simulate::lanes::{all, both, none};
use simulate::{ReplayError, Wide};
use std::alloc::Global;
use std::simd::u64x4;

/// 256 runs of a circuit. A run is in until it breaks a constraint.
#[derive(Drop)]
pub struct Runs<'a> {
    circuit: &'a Model,
    wide: Wide<'a>,
    // those that are still in
    running: [u64; 4],
}

impl<'a> std::marker::Model for Runs<'a> {
    ghost use Rattle.std.specs.Prelude.{◌≡◌};
    ghost use Rattle.random_runs.specs.Played.{Played};

    ghost Value = { Played };

    ghost view = { λ r. record { circuit = r.circuit.now; wide = r.wide; running = r.running } };

    ghost invariant = { λ r. r.wide.circuit ≡ r.circuit.now };
}

/// The runs that are marked and set each of the literals.
fn setting(wide: &Wide, marked: u64x4, lits: &[Lit]) -> u64x4
    requires stepped { IsSome wide.now.now }
    requires in_range { All (λ a. variable a ≤ wide.now.circuit.max_var) lits.now }
{
    let mut set = marked;
    for lit in lits {
        set = both(set, wide.value(*lit));
    }
    set
}

impl<'a> Runs<'a> {
    /// Runs from these states. None where they are not as many as the latches, or against the resets.
    pub fn begin(
        alloc: Global,
        circuit: &'a Model,
        states: &[u64x4],
    ) -> Result<Option<Runs<'a>>, Refused>
        ensures { IfOk result (λ r. IfSome r (λ x. x.circuit ≡ circuit.now)) }
    {
        if states.len() != circuit.latches().len() {
            return Ok(None);
        }
        match Wide::new(alloc, circuit, states) {
            Ok(wide) => Ok(Some(Runs {
                circuit,
                wide,
                running: all(true).to_array(),
            })),
            Err(ReplayError::OutOfMemory(refused)) => Err(refused),
            Err(_) => Ok(None),
        }
    }

    /// Goes one step by these inputs. Runs that break a constraint are out from now on. False where the inputs are not as
    /// many as the circuit's: then all runs are out.
    pub fn step(&mut self, inputs: &[u64x4]) -> bool
        ensures circuit { self.new.circuit ≡ self.old.circuit }
        ensures stepped { IsTrue result → IsSome self.new.wide.now }
    {
        if inputs.len() != self.circuit.inputs().len() {
            self.running = all(false).to_array();
            return false;
        }
        self.wide.step(inputs);
        let constraints = self.circuit.parts().constraints.as_slice();
        let running = u64x4::from_array(self.running);
        self.running = setting(&self.wide, running, constraints).to_array();
        true
    }

    /// The values of a literal at the time that was stepped last, or false of a variable that the circuit does not have.
    pub fn value(&self, lit: Lit) -> u64x4
        requires { IsSome self.now.wide.now }
    {
        if lit.variable() > self.circuit.max_var() {
            return all(false);
        }
        self.wide.value(lit)
    }

    /// The states that the runs have come to.
    pub fn states(&self) -> &[u64x4] {
        self.wide.state()
    }

    /// The runs that are in.
    pub fn running(&self) -> u64x4 {
        u64x4::from_array(self.running)
    }

    /// Whether no run is in.
    pub fn is_over(&self) -> bool {
        none(self.running())
    }
}
