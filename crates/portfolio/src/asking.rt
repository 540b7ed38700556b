//! Asking the engines about a property.

ghost use Rattle.std.specs.Prelude.{◌≡◌, ◌≤◌, ◌-◌, ◌⊎◌, IfOk};
ghost use Rattle.portfolio.specs.Conclusions.{IsConcluded, IsMeantIn, IsMeantWith, IsTold, IsWithoutRounds, status_in};
ghost use Rattle.verdict.specs.Verdicts.{IsBacked, status_of};
ghost use Rattle.verdict.specs.declared.verdict.Verdict.TheVariants.{Unsafe};

use crate::conclusion::Conclusion;
use arguments::EngineKind;
use base::{Budget, Refused, Seq};
use cdcl::Cdcl;
use engine::Counters;
use graph::{Lit, Model, Property};
use ic3::Ic3;
use std::alloc::Global;
use stimulus::Stimulus;
use strategies::{Deadline, Timed, Timing};
use verdict::{DecideError, Verdict, decide_by};

/// Bounded search and IC3 are asked first with one of so many parts of the budget.
const FIRST_PARTS: u64 = 8;

/// How many steps they may take at most then.
const FIRST_STEPS: u64 = 500_000;

/// A shorter run that violates a justice property may cost so many times the steps that were spent before.
const SHORTER_STEPS: u64 = 4;

/// How many steps of a budget of its own `is_shown_safe` may cost.
const OWN_STEPS: u64 = 100_000_000;

/// A property of a circuit, and how it is looked at.
#[derive(Clone, Copy)]
pub struct Question<'a> {
    /// the circuit
    pub circuit: &'a Model,
    /// the property
    pub property: Property,
    /// how the search is to go
    pub timing: Timing,
    /// whether the text of a certificate of version 3 may be the answer for a bad literal or an output
    pub by_text: bool,
}

/// The same clauses.
pub(crate) fn copied(alloc: Global, clauses: &[Seq<Lit>]) -> Result<Seq<Seq<Lit>>, Refused> {
    let mut copied = Seq::new(alloc);
    for clause in clauses {
        copied.push(clause.copy(alloc)?)?;
    }
    Ok(copied)
}

/// What a search ended in.
#[derive(Drop)]
pub struct Answered {
    /// what is known
    pub conclusion: Conclusion,
    /// how many steps of the budget are spent
    pub steps: u64,
    /// what the engines counted
    pub counters: Counters,
}

impl Question<'_> {
    /// What bounded search and IC3 say with few steps, and else what stands behind them.
    fn staged(
        self,
        rt: &HostRuntime,
        candidates: Seq<Seq<Lit>>,
        counters: &mut Counters,
    ) -> Result<(Conclusion, u64), DecideError>
        ensures concluded { IfOk result (λ r. IsConcluded self.entry.circuit.now self.entry.property r.0) }
        ensures meant { IfOk result (λ r. IsMeantIn self.entry.circuit.now self.entry.property r.1 r.0) }
        ensures left { IfOk result (λ r. r.1 ≤ self.entry.timing.search.budget) }
    {
        let all = self.timing.search.budget;
        let few = (all / FIRST_PARTS).min(FIRST_STEPS);
        let first = copied(rt.alloc(), candidates.as_slice())?;
        let (verdict, left) = self.begun(
            rt,
            first,
            self.timing.search.depth,
            self.last_depth(),
            few,
            counters,
        )?;
        let rest = all.saturating_sub(few.saturating_sub(left));
        match verdict {
            Verdict::Unknown(_) => self.simulated_first(rt, candidates, rest, counters),
            found => Ok((Conclusion::Decided(found), rest)),
        }
    }

    /// How many steps a run has at most that violates the property at fewer times than this one, where the property is a justice
    /// property and the first bounded search did not look through all of them.
    fn steps_of_shorter(self, stimulus: &Stimulus) -> Option<u8> {
        match (self.property, stimulus) {
            (Property::Justice(_), Stimulus::Violated { inputs, .. }) => {
                let times = u8::try_from(inputs.len()).ok()?;
                let depth = times.checked_sub(1)?;
                if self.timing.search.depth < depth {
                    Some(depth)
                } else {
                    None
                }
            }
            _ => None,
        }
    }

    /// A shortest run that violates the property, where bounded search finds it with at most four times the steps that were spent so
    /// far, and else this one.
    fn shortest(
        self,
        rt: &HostRuntime,
        stimulus: Stimulus,
        steps: u64,
        counters: &mut Counters,
    ) -> Result<(Verdict, u64), DecideError>
        requires backed { IsBacked self.circuit.now self.property (Unsafe stimulus) }
        ensures violated { IfOk result (λ r. status_of r.0 ≡ 1) }
        ensures backed { IfOk result (λ r. IsBacked self.entry.circuit.now self.entry.property r.0) }
        ensures meant { IfOk result (λ r. IsMeantWith self.entry.circuit.now self.entry.property r.1 r.0) }
        ensures left { IfOk result (λ r. r.1 ≤ steps) }
    {
        let Some(depth) = self.steps_of_shorter(&stimulus) else {
            return Ok((Verdict::Unsafe(stimulus), steps));
        };
        let spent = self.timing.search.budget.saturating_sub(steps);
        let part = steps.min(spent.saturating_mul(SHORTER_STEPS));
        let (found, left) = self.bounded_to(rt, depth, part, counters)?;
        let rest = steps.saturating_sub(part.saturating_sub(left));
        match found {
            Verdict::Unsafe(_) => Ok((found, rest)),
            _ => Ok((Verdict::Unsafe(stimulus), rest)),
        }
    }

    /// The same conclusion, with a shortest run that violates the property where one is found.
    fn with_shortest(
        self,
        rt: &HostRuntime,
        conclusion: Conclusion,
        steps: u64,
        counters: &mut Counters,
    ) -> Result<(Conclusion, u64), DecideError>
        requires concluded { IsConcluded self.circuit.now self.property conclusion }
        requires meant { IsMeantIn self.circuit.now self.property steps conclusion }
        ensures same { IfOk result (λ r. status_in r.0 ≡ status_in conclusion) }
        ensures concluded { IfOk result (λ r. IsConcluded self.entry.circuit.now self.entry.property r.0) }
        ensures meant { IfOk result (λ r. IsMeantIn self.entry.circuit.now self.entry.property r.1 r.0) }
        ensures left { IfOk result (λ r. r.1 ≤ steps) }
    {
        match conclusion {
            Conclusion::Decided(Verdict::Unsafe(stimulus)) => {
                let (verdict, left) = self.shortest(rt, stimulus, steps, counters)?;
                Ok((Conclusion::Decided(verdict), left))
            }
            other => Ok((other, steps)),
        }
    }

    /// What the counting of rounds comes to. Of another property than a justice property nothing is known so.
    fn rounds_alone(
        self,
        rt: &HostRuntime,
        counters: &mut Counters,
    ) -> Result<(Conclusion, u64), DecideError>
        ensures concluded { IfOk result (λ r. IsConcluded self.entry.circuit.now self.entry.property r.0) }
        ensures meant { IfOk result (λ r. IsMeantIn self.entry.circuit.now self.entry.property r.1 r.0 ⊎ IsWithoutRounds self.entry.property r.0) }
        ensures left { IfOk result (λ r. r.1 ≤ self.entry.timing.search.budget) }
    {
        let steps = self.timing.search.budget;
        let Property::Justice(position) = self.property else {
            let verdict = self.decided_by_none(rt)?;
            return Ok((Conclusion::Decided(verdict), steps));
        };
        let (counted, left) = self.counted(rt, position, steps, counters)?;
        Ok((Conclusion::Counted(counted), left))
    }

    /// What the engines come to that are asked for. Answers how many steps are left too.
    fn concluded(
        self,
        rt: &HostRuntime,
        candidates: Seq<Seq<Lit>>,
        counters: &mut Counters,
    ) -> Result<(Conclusion, u64), DecideError>
        ensures concluded { IfOk result (λ r. IsConcluded self.entry.circuit.now self.entry.property r.0) }
        ensures meant { IfOk result (λ r. IsTold self.entry.timing.search.engine self.entry.circuit.now self.entry.property r.1 r.0) }
        ensures left { IfOk result (λ r. r.1 ≤ self.entry.timing.search.budget) }
    {
        let budget = self.timing.search.budget;
        let (verdict, left) = match self.timing.search.engine {
            EngineKind::All => {
                let (conclusion, left) = self.staged(rt, candidates, counters)?;
                return self.with_shortest(rt, conclusion, left, counters);
            }
            EngineKind::Rounds => return self.rounds_alone(rt, counters),
            EngineKind::KInduction => return self.bounded_or_induced(rt, budget, counters),
            EngineKind::Corresponding => return self.corresponding(rt, budget, counters),
            EngineKind::Bounded => self.bounded(rt, budget, counters)?,
            EngineKind::Inductive => self.inductive(rt, candidates, budget, counters)?,
            EngineKind::Random => self.simulated(rt, budget, counters)?,
        };
        Ok((Conclusion::Decided(verdict), left))
    }

    /// What is answered where so many steps are left.
    fn answered(self, conclusion: Conclusion, left: u64, counters: Counters) -> Answered
        requires few { left ≤ self.timing.search.budget }
        requires concluded { IsConcluded self.circuit.now self.property conclusion }
        requires meant { IsTold self.timing.search.engine self.circuit.now self.property left conclusion }
        ensures same { result.conclusion ≡ conclusion }
        ensures steps { result.steps ≡ self.entry.timing.search.budget - left }
        ensures counters { result.counters ≡ counters }
        ensures concluded { IsConcluded self.entry.circuit.now self.entry.property result.conclusion }
        ensures meant { IsTold self.entry.timing.search.engine self.entry.circuit.now self.entry.property (self.entry.timing.search.budget - result.steps) result.conclusion }
        ensures few { result.steps ≤ self.entry.timing.search.budget }
    {
        Answered {
            conclusion,
            steps: self.timing.search.budget.saturating_sub(left),
            counters,
        }
    }

    /// Asks the engines for evidence about the property. IC3 tries these clauses first. Where it is asked for, or standard
    /// error is a terminal, that says how far they are.
    pub fn ask(self, rt: &HostRuntime, candidates: Seq<Seq<Lit>>) -> Result<Answered, DecideError>
        // Whatever the engines answered, what is known has its evidence.
        ensures concluded { IfOk result (λ a. IsConcluded self.entry.circuit.now self.entry.property a.conclusion) }
        // Where nothing is known, the reason stands: the budget is spent, or nothing violates the property so far.
        ensures meant { IfOk result (λ a. IsTold self.entry.timing.search.engine self.entry.circuit.now self.entry.property (self.entry.timing.search.budget - a.steps) a.conclusion) }
        ensures few { IfOk result (λ a. a.steps ≤ self.entry.timing.search.budget) }
    {
        let mut counters = Counters::new(rt.alloc());
        let answer = self.concluded(rt, candidates, &mut counters);
        self.timing.shown.wipe(rt);
        let (conclusion, left) = answer?;
        Ok(self.answered(conclusion, left, counters))
    }
}

/// Whether a certificate that IC3 finds before the deadline shows the circuit's first bad literal to be never set.
pub fn is_shown_safe(
    alloc: Global,
    circuit: &Model,
    deadline: Deadline,
) -> Result<bool, DecideError> {
    let solver = Timed::new(Cdcl::new(alloc), deadline);
    let mut engine = Ic3::new(solver);
    let mut budget = Budget::new(OWN_STEPS);
    let verdict = decide_by(alloc, circuit, Property::Bad(0), &mut engine, &mut budget)?;
    Ok(matches!(verdict, Verdict::Safe(_)))
}
