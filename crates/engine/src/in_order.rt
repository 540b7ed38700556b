//! Two engines, one behind the other.

ghost use Rattle.std.specs.Prelude.{◌≡◌, IfOk};
ghost use Rattle.base.specs.Budget.{Spends};
ghost use Rattle.engine.specs.Findings.{IsForBad, IsSo};
ghost use Rattle.engine.specs.InOrder.{IsInOrder};

use crate::counters::Counters;
use crate::engine::Engine;
use crate::engine_error::EngineError;
use crate::finding::Finding;
use base::{Budget, Refused};
use graph::Model;
use std::alloc::Global;

/// Asks an engine, and where that finds no evidence another one, with what is left of the budget.
#[derive(Drop)]
pub struct InOrder<A: Engine, B: Engine> {
    first: A,
    second: B,
}

impl<A: Engine, B: Engine> InOrder<A, B> {
    /// The engine that asks these two.
    pub fn new(first: A, second: B) -> InOrder<A, B>
        ensures first { result.first ≡ first }
        ensures second { result.second ≡ second }
    {
        InOrder { first, second }
    }
}

impl<A: Engine, B: Engine> Engine for InOrder<A, B> {
    ghost honest = { λ e. A.honest e.first × B.honest e.second };

    ghost answers = { λ e m before r after. IsInOrder (A.answers e.first) (B.answers e.second) m before r after };

    fn find(
        &mut self,
        alloc: Global,
        circuit: &Model,
        budget: &mut Budget,
    ) -> Result<Finding, EngineError>
        requires { IsForBad circuit.now }
        ensures spends { Spends budget.old budget.new }
        ensures stays { A.honest self.old.first × B.honest self.old.second → A.honest self.new.first × B.honest self.new.second }
        ensures so { A.honest self.old.first × B.honest self.old.second → IfOk result (IsSo circuit.now budget.new) }
        ensures answered { IsInOrder (A.answers self.old.first) (B.answers self.old.second) circuit.now budget.old result budget.new }
    {
        match self.first.find(alloc, circuit, budget)? {
            Finding::Unknown(_) => self.second.find(alloc, circuit, budget),
            found => Ok(found),
        }
    }

    fn count(&self, counters: &mut Counters) -> Result<(), Refused> {
        self.first.count(counters)?;
        self.second.count(counters)
    }
}
