//! The engine.

ghost use Rattle.std.specs.Prelude.{◌≡◌, IfOk};
ghost use Rattle.base.specs.Budget.{Spends};
ghost use Rattle.engine.specs.Findings.{IsForBad, IsSo};
ghost use Rattle.cone_of_influence.specs.Answered.{IsOfCone};
ghost use Rattle.cone_of_influence.specs.Laws.{AreLaws};
ghost use Rattle.cone_of_influence.specs.Reduced.{IsReduced};

use crate::reducing::{Reduced, reduce};
use base::{Budget, Refused};
use engine::{Counters, Engine, EngineError, Finding};
use graph::Model;
use std::alloc::Global;

/// Asks another engine about the cone of influence of the bad literal and the constraints.
#[derive(Drop)]
pub struct ConeOfInfluence<E: Engine> {
    inner: E,
}

impl<E: Engine> ConeOfInfluence<E> {
    /// The engine that asks this one.
    pub fn new(inner: E) -> ConeOfInfluence<E>
        ensures { result.inner ≡ inner }
    {
        ConeOfInfluence { inner }
    }
}

/// What the engine finds of the reduced circuit.
fn find_in<E: Engine>(
    inner: &mut E,
    alloc: Global,
    circuit: &Model,
    part: &Reduced,
    budget: &mut Budget,
) -> Result<Finding, EngineError>
    requires for_bad { IsForBad circuit.now }
    requires reduced { IsReduced circuit.now part.now.circuit part.now.tables }
    requires laws { AreLaws circuit.now part.now.circuit part.now.tables }
    ensures spends { Spends budget.old budget.new }
    ensures stays { E.honest inner.old → E.honest inner.new }
    ensures so { E.honest inner.old → IfOk result (IsSo circuit.now budget.new) }
    ensures answered { IsOfCone (E.answers inner.old) circuit.now budget.old result budget.new }
{
    match inner.find(alloc, &part.circuit, budget) {
        Ok(finding) => Ok(part.tables.carry(alloc, finding)?),
        Err(error) => Err(error),
    }
}

impl<E: Engine> Engine for ConeOfInfluence<E> {
    ghost honest = { λ c. E.honest c.inner };

    ghost answers = { λ c m before r after. IsOfCone (E.answers c.inner) m before r after };

    /// Asks the other engine about the reduced circuit, where there is one, and else about the circuit as it is.
    fn find(
        &mut self,
        alloc: Global,
        circuit: &Model,
        budget: &mut Budget,
    ) -> Result<Finding, EngineError>
        requires { IsForBad circuit.now }
        ensures spends { Spends budget.old budget.new }
        ensures stays { E.honest self.old.inner → E.honest self.new.inner }
        ensures so { E.honest self.old.inner → IfOk result (IsSo circuit.now budget.new) }
        ensures answered { IsOfCone (E.answers self.old.inner) circuit.now budget.old result budget.new }
    {
        match reduce(alloc, circuit)? {
            Some(part) => find_in(&mut self.inner, alloc, circuit, &part, budget),
            None => self.inner.find(alloc, circuit, budget),
        }
    }

    fn count(&self, counters: &mut Counters) -> Result<(), Refused> {
        self.inner.count(counters)
    }
}
