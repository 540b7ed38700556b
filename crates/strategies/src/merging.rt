//! Register correspondence, and bounded search, IC3 and deeper bounded search behind it.

ghost use Rattle.std.specs.Prelude.{◌≡◌, IfOk};
ghost use Rattle.base.specs.Budget.{Spends};
ghost use Rattle.engine.specs.Findings.{IsForBad, IsSo};
ghost use Rattle.strategies.specs.Searched.{IsSearched};

use crate::reporter::Reporter;
use crate::shares::InShares;
use crate::timed::Timed;
use crate::timing::Timing;
use base::{Budget, Refused, Seq};
use bmc::Bmc;
use cdcl::Cdcl;
use correspondence::Corresponding;
use engine::{Counters, Engine, EngineError, Finding, InOrder};
use graph::{Lit, Model};
use ic3::Ic3;
use std::alloc::Global;

/// Deeper bounded search has one of so many parts of the budget behind IC3.
const DEEPER_PARTS: u64 = 8;

/// Bounded search through runs of at most so many steps.
pub fn bounded_by(rt: &HostRuntime, timing: Timing, depth: u8) -> Bmc<Timed<Cdcl>, Reporter>
    ensures { result.depth ≡ depth }
{
    let alloc = rt.alloc();
    let bounded = Bmc::new(
        alloc,
        timing.solver(alloc),
        timing.solver(alloc),
        u32::from(depth),
    );
    bounded.with_progress(Reporter::new(rt, timing.shown))
}

/// IC3, which tries these clauses first, and behind it bounded search through runs of at most so many steps.
pub fn deepening(
    rt: &HostRuntime,
    timing: Timing,
    depth: u8,
    candidates: Seq<Seq<Lit>>,
) -> Result<InShares<Ic3<Timed<Cdcl>, Reporter>, Bmc<Timed<Cdcl>, Reporter>>, Refused>
    ensures { IfOk result (λ e. e.second.value.depth ≡ depth) }
{
    let alloc = rt.alloc();
    let inductive = Ic3::with_candidates(timing.solver(alloc), candidates);
    let inductive = inductive.with_progress(Reporter::new(rt, timing.shown));
    let bounded = bounded_by(rt, timing, depth);
    InShares::new(alloc, inductive, bounded, DEEPER_PARTS)
}

/// Looks for latches that are equal, and asks bounded search, then IC3 and then deeper bounded search about the circuit in
/// which they are merged.
#[derive(Drop)]
pub struct Merging {
    engine: Corresponding<
        Timed<Cdcl>,
        InOrder<
            Bmc<Timed<Cdcl>, Reporter>,
            InShares<Ic3<Timed<Cdcl>, Reporter>, Bmc<Timed<Cdcl>, Reporter>>,
        >,
        Reporter,
    >,
}

impl Merging {
    /// The engines of this search. IC3 tries these clauses first.
    pub fn new(
        rt: &HostRuntime,
        timing: Timing,
        first: u8,
        last: u8,
        candidates: Seq<Seq<Lit>>,
    ) -> Result<Merging, Refused>
        ensures first { IfOk result (λ s. s.engine.inner.first.depth ≡ first) }
        ensures last { IfOk result (λ s. s.engine.inner.second.second.value.depth ≡ last) }
    {
        let behind = deepening(rt, timing, last, candidates)?;
        let inner = InOrder::new(bounded_by(rt, timing, first), behind);
        let engine = Corresponding::new(timing.solver(rt.alloc()), inner);
        Ok(Merging {
            engine: engine.with_progress(Reporter::new(rt, timing.shown)),
        })
    }
}

impl Engine for Merging {
    ghost honest = { λ _. Unit {0} };

    ghost answers = { λ s m before r after. IsSearched s.engine.inner.first.depth s.engine.inner.second.second.value.depth m before r after };

    fn find(
        &mut self,
        alloc: Global,
        circuit: &Model,
        budget: &mut Budget,
    ) -> Result<Finding, EngineError>
        requires { IsForBad circuit.now }
        ensures spends { Spends budget.old budget.new }
        ensures so { IfOk result (IsSo circuit.now budget.new) }
        ensures searched { IsSearched self.old.engine.inner.first.depth self.old.engine.inner.second.second.value.depth circuit.now budget.old result budget.new }
    {
        self.engine.find(alloc, circuit, budget)
    }

    fn count(&self, counters: &mut Counters) -> Result<(), Refused> {
        self.engine.count(counters)
    }
}
