//! What each engine says of a property.

ghost use Rattle.std.specs.Prelude.{◌≡◌, ◌≤◌, IfOk, IfSome};
ghost use Rattle.engine.specs.declared.finding.Reason.TheVariants.{NoEvidence};
ghost use Rattle.portfolio.specs.Conclusions.{AreMeantWith, IsConcluded, IsMeantWith};
ghost use Rattle.portfolio.specs.declared.conclusion.Conclusion.TheVariants as conclusion;
ghost use Rattle.rounds.specs.Counted.{IsBacked as AreBacked};
ghost use Rattle.verdict.specs.Verdicts.{IsBacked};
ghost use Rattle.verdict.specs.declared.verdict.Verdict.TheVariants.{Unknown};

use crate::asking::Question;
use base::{Budget, Seq};
use cone_of_influence::ConeOfInfluence;
use correspondence::Corresponding;
use engine::{Counters, Engine};
use engine_random::{LongRuns, Random};
use graph::{Lit, Property};
use ic3::Ic3;
use k_induction::decide_by_induction;
use latch_guesses::Guessing;
use round_clauses::order_of_counts;
use rounds::{Counted, decide_rounds};
use shown::Shown;
use signals::decide_signals;
use solver::Sat;
use strategies::{Beginning, Merging, Reported, Reporter, bounded_by};
use verdict::{DecideError, Verdict, decide, decide_by};

/// A shadow circuit has so many variables more for each latch.
const SHADOWS: u64 = 8;

/// So many variables the times that deeper bounded search looks at may have together.
const VARIABLES: u64 = 1_000_000;

/// So many rounds have their order among the clauses that IC3 tries first.
const ORDERED_ROUNDS: u32 = 255;

impl Question<'_> {
    /// How many steps bounded search looks through behind IC3: more than at first, where the times do not have too many
    /// variables together.
    pub(crate) fn last_depth(self) -> u8
        ensures { self.entry.timing.search.depth ≤ result }
    {
        let mut variables = u64::from(self.circuit.max_var()).saturating_add(1);
        if let Property::Justice(_) = self.property {
            let latches = self.circuit.latches().len() as u64;
            variables = variables.saturating_add(latches.saturating_mul(SHADOWS));
        }
        let times = u8::try_from(VARIABLES / variables.max(1)).unwrap_or(u8::MAX);
        times.max(self.timing.search.depth)
    }

    /// What this engine says. Answers how many steps are left too.
    #[tactic(auto, using(crate::proofs::Told::meant_with))]
    fn decided_by<E: Engine>(
        self,
        rt: &HostRuntime,
        engine: &mut E,
        steps: u64,
        counters: &mut Counters,
    ) -> Result<(Verdict, u64), DecideError>
        ensures backed { IfOk result (λ r. IsBacked self.entry.circuit.now self.entry.property r.0) }
        ensures meant { E.honest engine.old → IfOk result (λ r. IsMeantWith self.entry.circuit.now self.entry.property r.1 r.0) }
        ensures left { IfOk result (λ r. r.1 ≤ steps) }
    {
        let mut budget = self.timing.budget(steps);
        let verdict = decide_by(rt.alloc(), self.circuit, self.property, engine, &mut budget)?;
        engine.count(counters)?;
        Ok((verdict, budget.left()))
    }

    /// What is said where no engine is asked: nothing is known. A property that is not there is refused.
    pub(crate) fn decided_by_none(self, rt: &HostRuntime) -> Result<Verdict, DecideError>
        ensures { IfOk result (λ v. v ≡ Unknown NoEvidence) }
    {
        let mut budget = Budget::new(0);
        decide(
            rt.alloc(),
            self.circuit,
            self.property,
            &mut [],
            &mut budget,
        )
    }

    /// What register correspondence says, and bounded search through runs of at most so many steps behind it.
    pub(crate) fn corresponded(
        self,
        rt: &HostRuntime,
        depth: u8,
        steps: u64,
        counters: &mut Counters,
    ) -> Result<(Verdict, u64), DecideError>
        ensures backed { IfOk result (λ r. IsBacked self.entry.circuit.now self.entry.property r.0) }
        ensures meant { IfOk result (λ r. IsMeantWith self.entry.circuit.now self.entry.property r.1 r.0) }
        ensures left { IfOk result (λ r. r.1 ≤ steps) }
    {
        let (alloc, timing) = (rt.alloc(), self.timing);
        let bounded = bounded_by(rt, timing, depth);
        let engine = Corresponding::new(timing.solver(alloc), bounded);
        let mut engine = engine.with_progress(Reporter::new(rt, timing.shown));
        self.decided_by(rt, &mut engine, steps, counters)
    }

    /// What guesses of equal registers say, where a certificate comes of them.
    pub(crate) fn guessed(
        self,
        rt: &HostRuntime,
        steps: u64,
        counters: &mut Counters,
    ) -> Result<(Verdict, u64), DecideError>
        ensures backed { IfOk result (λ r. IsBacked self.entry.circuit.now self.entry.property r.0) }
        ensures left { IfOk result (λ r. r.1 ≤ steps) }
    {
        let (solver, shown) = (self.timing.solver(rt.alloc()), self.timing.shown);
        let mut engine = Guessing::new(solver, Reporter::new(rt, shown));
        self.decided_by(rt, &mut engine, steps, counters)
    }

    /// What register correspondence says, and bounded search, IC3 and deeper bounded search behind it.
    pub(crate) fn merged(
        self,
        rt: &HostRuntime,
        candidates: Seq<Seq<Lit>>,
        steps: u64,
        counters: &mut Counters,
    ) -> Result<(Verdict, u64), DecideError>
        ensures backed { IfOk result (λ r. IsBacked self.entry.circuit.now self.entry.property r.0) }
        ensures meant { IfOk result (λ r. IsMeantWith self.entry.circuit.now self.entry.property r.1 r.0) }
        ensures left { IfOk result (λ r. r.1 ≤ steps) }
    {
        let (first, last) = (self.timing.search.depth, self.last_depth());
        let mut engine = Merging::new(rt, self.timing, first, last, candidates)?;
        self.decided_by(rt, &mut engine, steps, counters)
    }

    /// What bounded search says with at most four fifths of so many steps, and IC3 and deeper bounded search with the others.
    pub(crate) fn begun(
        self,
        rt: &HostRuntime,
        candidates: Seq<Seq<Lit>>,
        first: u8,
        last: u8,
        steps: u64,
        counters: &mut Counters,
    ) -> Result<(Verdict, u64), DecideError>
        ensures backed { IfOk result (λ r. IsBacked self.entry.circuit.now self.entry.property r.0) }
        ensures meant { IfOk result (λ r. IsMeantWith self.entry.circuit.now self.entry.property r.1 r.0) }
        ensures left { IfOk result (λ r. r.1 ≤ steps) }
    {
        let is_whole = !candidates.is_empty();
        let mut engine = Beginning::new(rt, self.timing, first, last, candidates)?;
        if is_whole {
            self.decided_by(rt, &mut engine, steps, counters)
        } else {
            let mut engine = ConeOfInfluence::new(engine);
            self.decided_by(rt, &mut engine, steps, counters)
        }
    }

    /// What bounded search through runs of at most so many steps says.
    pub(crate) fn bounded_to(
        self,
        rt: &HostRuntime,
        depth: u8,
        steps: u64,
        counters: &mut Counters,
    ) -> Result<(Verdict, u64), DecideError>
        ensures backed { IfOk result (λ r. IsBacked self.entry.circuit.now self.entry.property r.0) }
        ensures meant { IfOk result (λ r. IsMeantWith self.entry.circuit.now self.entry.property r.1 r.0) }
        ensures left { IfOk result (λ r. r.1 ≤ steps) }
    {
        let engine = bounded_by(rt, self.timing, depth);
        let mut engine = ConeOfInfluence::new(engine);
        self.decided_by(rt, &mut engine, steps, counters)
    }

    /// What bounded search says.
    pub(crate) fn bounded(
        self,
        rt: &HostRuntime,
        steps: u64,
        counters: &mut Counters,
    ) -> Result<(Verdict, u64), DecideError>
        ensures backed { IfOk result (λ r. IsBacked self.entry.circuit.now self.entry.property r.0) }
        ensures meant { IfOk result (λ r. IsMeantWith self.entry.circuit.now self.entry.property r.1 r.0) }
        ensures left { IfOk result (λ r. r.1 ≤ steps) }
    {
        self.bounded_to(rt, self.timing.search.depth, steps, counters)
    }

    /// What IC3 says, which tries these clauses first.
    pub(crate) fn inductive(
        self,
        rt: &HostRuntime,
        candidates: Seq<Seq<Lit>>,
        steps: u64,
        counters: &mut Counters,
    ) -> Result<(Verdict, u64), DecideError>
        ensures backed { IfOk result (λ r. IsBacked self.entry.circuit.now self.entry.property r.0) }
        ensures meant { IfOk result (λ r. IsMeantWith self.entry.circuit.now self.entry.property r.1 r.0) }
        ensures left { IfOk result (λ r. r.1 ≤ steps) }
    {
        let is_whole = !candidates.is_empty();
        let engine = Ic3::with_candidates(self.timing.solver(rt.alloc()), candidates);
        let mut engine = engine.with_progress(Reporter::new(rt, self.timing.shown));
        if is_whole {
            self.decided_by(rt, &mut engine, steps, counters)
        } else {
            let mut engine = ConeOfInfluence::new(engine);
            self.decided_by(rt, &mut engine, steps, counters)
        }
    }

    /// What random simulation says.
    pub(crate) fn simulated(
        self,
        rt: &HostRuntime,
        steps: u64,
        counters: &mut Counters,
    ) -> Result<(Verdict, u64), DecideError>
        ensures backed { IfOk result (λ r. IsBacked self.entry.circuit.now self.entry.property r.0) }
        ensures meant { IfOk result (λ r. IsMeantWith self.entry.circuit.now self.entry.property r.1 r.0) }
        ensures left { IfOk result (λ r. r.1 ≤ steps) }
    {
        let search = self.timing.search;
        let engine = Random::new(search.seed, u32::from(search.depth));
        let mut engine = engine.with_watch(self.timing.deadline);
        self.decided_by(rt, &mut engine, steps, counters)
    }

    /// What random simulation of long runs from this seed says.
    pub(crate) fn simulated_long(
        self,
        rt: &HostRuntime,
        seed: u64,
        steps: u64,
        counters: &mut Counters,
    ) -> Result<(Verdict, u64), DecideError>
        ensures backed { IfOk result (λ r. IsBacked self.entry.circuit.now self.entry.property r.0) }
        ensures meant { IfOk result (λ r. IsMeantWith self.entry.circuit.now self.entry.property r.1 r.0) }
        ensures left { IfOk result (λ r. r.1 ≤ steps) }
    {
        let engine = LongRuns::new(seed);
        let engine = engine.with_watch(self.timing.deadline);
        let mut engine = ConeOfInfluence::new(engine);
        self.decided_by(rt, &mut engine, steps, counters)
    }

    /// What IC3 comes to about the circuits that count rounds of the justice property at the position. Answers how many steps
    /// are left too.
    pub(crate) fn counted(
        self,
        rt: &HostRuntime,
        position: u32,
        steps: u64,
        counters: &mut Counters,
    ) -> Result<(Counted, u64), DecideError>
        ensures backed { IfOk result (λ r. AreBacked self.entry.circuit.now position r.0) }
        ensures meant { IfOk result (λ r. AreMeantWith self.entry.circuit.now position r.1 r.0) }
        ensures left { IfOk result (λ r. r.1 ≤ steps) }
    {
        let (alloc, timing) = (rt.alloc(), self.timing);
        let order = order_of_counts(alloc, self.circuit, position, ORDERED_ROUNDS)?;
        let engine = Ic3::with_candidates(timing.solver(alloc), order);
        let mut engine = engine.with_progress(Reporter::new(rt, timing.shown));
        self.counted_by(rt, position, steps, &mut engine, counters)
    }

    /// What an engine comes to about them.
    #[tactic(auto, using(crate::proofs::Told::are_meant_with))]
    fn counted_by<E: Engine>(
        self,
        rt: &HostRuntime,
        position: u32,
        steps: u64,
        engine: &mut E,
        counters: &mut Counters,
    ) -> Result<(Counted, u64), DecideError>
        ensures backed { IfOk result (λ r. AreBacked self.entry.circuit.now position r.0) }
        ensures meant { E.honest engine.old → IfOk result (λ r. AreMeantWith self.entry.circuit.now position r.1 r.0) }
        ensures left { IfOk result (λ r. r.1 ≤ steps) }
    {
        let mut progress = Reporter::new(rt, self.timing.shown);
        let mut budget = self.timing.budget(steps);
        let counted = decide_rounds(
            rt.alloc(),
            self.circuit,
            position,
            engine,
            &mut progress,
            &mut budget,
        )?;
        engine.count(counters)?;
        Ok((counted, budget.left()))
    }

    /// The certificate that k-induction comes to, where it comes to one and its text may be the answer. Answers how many steps are
    /// left too.
    pub(crate) fn induced(
        self,
        rt: &HostRuntime,
        steps: u64,
        counters: &mut Counters,
    ) -> Result<(Option<Seq<u8>>, u64), DecideError>
        ensures concluded { IfOk result (λ r. IfSome r.0 (λ text. IsConcluded self.entry.circuit.now self.entry.property (conclusion.Shown text))) }
        ensures left { IfOk result (λ r. r.1 ≤ steps) }
    {
        if !self.by_text {
            return Ok((None, steps));
        }
        let (alloc, timing) = (rt.alloc(), self.timing);
        let mut solver = timing.solver(alloc);
        let mut progress = Reporter::of(Reported::KInduction, rt, timing.shown);
        let mut budget = timing.budget(steps);
        let found = decide_by_induction(
            alloc,
            self.circuit,
            self.property,
            &mut solver,
            timing.search.depth,
            &mut progress,
            &mut budget,
        )?;
        counters.add_statistics("kind", &solver.statistics())?;
        match found {
            Shown::Holds(text) => Ok((Some(text), budget.left())),
            Shown::Unknown(_) => Ok((None, budget.left())),
        }
    }

    /// The certificate that signal correspondence comes to, where it comes to one and its text may be the answer. Answers how
    /// many steps are left too.
    pub(crate) fn signalled(
        self,
        rt: &HostRuntime,
        steps: u64,
        counters: &mut Counters,
    ) -> Result<(Option<Seq<u8>>, u64), DecideError>
        ensures concluded { IfOk result (λ r. IfSome r.0 (λ text. IsConcluded self.entry.circuit.now self.entry.property (conclusion.Shown text))) }
        ensures left { IfOk result (λ r. r.1 ≤ steps) }
    {
        if !self.by_text {
            return Ok((None, steps));
        }
        let (alloc, timing) = (rt.alloc(), self.timing);
        let mut solver = timing.solver(alloc);
        let mut progress = Reporter::of(Reported::Signals, rt, timing.shown);
        let mut budget = timing.budget(steps);
        let found = decide_signals(
            alloc,
            self.circuit,
            self.property,
            &mut solver,
            &mut progress,
            &mut budget,
        )?;
        counters.add_statistics("scorr", &solver.statistics())?;
        match found {
            Shown::Holds(text) => Ok((Some(text), budget.left())),
            Shown::Unknown(_) => Ok((None, budget.left())),
        }
    }
}
