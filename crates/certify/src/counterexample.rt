//! Values that satisfy a case of clauses.

ghost use Rattle.std.specs.Prelude.{◌≡◌, IfOk};
ghost use Rattle.graph.specs.Circuits.{next_state, inputs_of, state_of, value_of};

use base::{Refused, Seq};
use graph::{Lit, Model};
use std::alloc::Global;

/// One of the cases of clauses that are to be an inductive invariant. The clauses count from 0.
#[derive(Clone, Copy)]
pub enum Case {
    /// the resets hold, and the clause is false
    Initial(u64),
    /// all clauses hold, and after a step the clause is false
    Step(u64),
    /// all clauses hold, and the property's literal is 1
    Bad,
}

/// Values that satisfy a case. For a step they are a counterexample to induction (IC3 2011).
#[derive(Drop)]
pub struct Counterexample {
    /// the case
    pub case: Case,
    /// the value of each variable of the clauses' circuit, at the variable's place
    pub values: Vec<bool>,
}

/// The value of a literal. A variable beyond the values is false.
fn value(values: &[bool], lit: Lit) -> bool
    ensures { result ≡ value_of values.now lit }
{
    let at = match values.get(lit.variable() as usize) {
        Some(at) => *at,
        None => false,
    };
    if lit.is_negated() { !at } else { at }
}

impl Counterexample {
    /// The values of the latches of the clauses' circuit, in their order.
    pub fn state(&self, alloc: Global, circuit: &Model) -> Result<Seq<bool>, Refused>
        ensures { IfOk result (λ s. s ≡ state_of circuit.now self.now.values.items) }
    {
        let mut state = Seq::new(alloc);
        for latch in circuit.latches() {
            state.push(value(self.values.as_slice(), latch.lit))?;
        }
        Ok(state)
    }

    /// The values of the inputs, in their order.
    pub fn inputs(&self, alloc: Global, circuit: &Model) -> Result<Seq<bool>, Refused>
        ensures { IfOk result (λ s. s ≡ inputs_of circuit.now self.now.values.items) }
    {
        let mut inputs = Seq::new(alloc);
        for lit in circuit.inputs() {
            inputs.push(value(self.values.as_slice(), *lit))?;
        }
        Ok(inputs)
    }

    /// The values of the latches after a step.
    pub fn next_state(&self, alloc: Global, circuit: &Model) -> Result<Seq<bool>, Refused>
        ensures { IfOk result (λ s. s ≡ next_state circuit.now self.now.values.items) }
    {
        let mut state = Seq::new(alloc);
        for latch in circuit.latches() {
            state.push(value(self.values.as_slice(), latch.next))?;
        }
        Ok(state)
    }
}
