//! Bounded search, and IC3 and deeper bounded search behind it.

ghost use Rattle.std.specs.Prelude.{◌≡◌, IfOk};
ghost use Rattle.base.specs.Budget.{Spends};
ghost use Rattle.engine.specs.Findings.{IsForBad, IsSo};
ghost use Rattle.strategies.specs.Searched.{IsBegun};

use crate::merging::{bounded_by, deepening};
use crate::reporter::Reporter;
use crate::shares::InShares;
use crate::timed::Timed;
use crate::timing::Timing;
use base::{Budget, Refused, Seq};
use bmc::Bmc;
use cdcl::Cdcl;
use engine::{Counters, Engine, EngineError, Finding};
use graph::{Lit, Model};
use ic3::Ic3;
use std::alloc::Global;

/// IC3 and deeper bounded search have at least one of so many parts of the budget.
const FIFTHS: u64 = 5;

/// Asks bounded search, then IC3 and then deeper bounded search.
#[derive(Drop)]
pub struct Beginning {
    engine: InShares<
        Bmc<Timed<Cdcl>, Reporter>,
        InShares<Ic3<Timed<Cdcl>, Reporter>, Bmc<Timed<Cdcl>, Reporter>>,
    >,
}

impl Beginning {
    /// The engines of this search. IC3 tries these clauses first.
    pub fn new(
        rt: &HostRuntime,
        timing: Timing,
        first: u8,
        last: u8,
        candidates: Seq<Seq<Lit>>,
    ) -> Result<Beginning, Refused>
        ensures first { IfOk result (λ s. s.engine.first.value.depth ≡ first) }
        ensures last { IfOk result (λ s. s.engine.second.value.second.value.depth ≡ last) }
    {
        let behind = deepening(rt, timing, last, candidates)?;
        let bounded = bounded_by(rt, timing, first);
        Ok(Beginning {
            engine: InShares::new(rt.alloc(), bounded, behind, FIFTHS)?,
        })
    }
}

impl Engine for Beginning {
    ghost honest = { λ _. Unit {0} };

    ghost answers = { λ s m before r after. IsBegun s.engine.first.value.depth s.engine.second.value.second.value.depth m before r after };

    fn find(
        &mut self,
        alloc: Global,
        circuit: &Model,
        budget: &mut Budget,
    ) -> Result<Finding, EngineError>
        requires { IsForBad circuit.now }
        ensures spends { Spends budget.old budget.new }
        ensures so { IfOk result (IsSo circuit.now budget.new) }
        ensures begun { IsBegun self.old.engine.first.value.depth self.old.engine.second.value.second.value.depth circuit.now budget.old result budget.new }
    {
        self.engine.find(alloc, circuit, budget)
    }

    fn count(&self, counters: &mut Counters) -> Result<(), Refused> {
        self.engine.count(counters)
    }
}
