//! What is asked of a property behind the first engines.

ghost use Rattle.std.specs.Prelude.{◌≤◌, IfOk, IfSome};
ghost use Rattle.portfolio.specs.Conclusions.{IsConcluded, IsGiven, IsMeantIn, IsMeantWith};
ghost use Rattle.portfolio.specs.declared.conclusion.Conclusion.TheVariants as conclusion;
ghost use Rattle.verdict.specs.Verdicts.{IsBacked};

use crate::asking::{Question, copied};
use crate::conclusion::Conclusion;
use base::Seq;
use engine::Counters;
use graph::{Lit, Property};
use rounds::Counted;
use verdict::{DecideError, Verdict};

/// Guesses of equal registers have one of so many parts of what is left.
const GUESS_PARTS: u64 = 4;

/// How many steps they may take at most.
const GUESS_STEPS: u64 = 20_000_000;

/// Random simulation of long runs has one of so many parts of what is left.
const SIMULATION_PARTS: u64 = 16;

/// How many steps it may take at first.
const FIRST_SIMULATION_STEPS: u64 = 250_000;

/// How many it may take once more, where equal registers and signals say nothing.
const SIMULATION_STEPS: u64 = 4_000_000;

/// Of a circuit with so many variables at most, equal registers alone are looked for before equal signals are.
const FEW_VARIABLES: u32 = 4_000;

/// A circuit has many variables where it has more than these.
const MANY_VARIABLES: u32 = 30_000;

/// Register correspondence and the engines behind it have so many steps at most before equal signals are looked for.
const MERGED_STEPS: u64 = 3_000_000;

/// They have so many at most where the circuit has many variables.
const MOST_MERGED_STEPS: u64 = 40_000_000;

/// Signal correspondence is asked then with one of so many parts of what is left.
const SIGNALS_PARTS: u64 = 8;

/// How many steps it may take at most.
const SIGNALS_STEPS: u64 = 10_000_000;

/// Where bounded search alone stands behind it, signal correspondence has one of so many parts of what is left.
const HALVES: u64 = 2;

/// The rounds of a justice property are counted then with one of so many parts of what is left.
const ROUNDS_PARTS: u64 = 16;

impl Question<'_> {
    /// The bound that counting the rounds comes to with a part of so many steps, where the property is a justice property. Answers
    /// how many steps are left too.
    fn rounds_bound(
        self,
        rt: &HostRuntime,
        steps: u64,
        counters: &mut Counters,
    ) -> Result<(Option<Counted>, u64), DecideError>
        ensures concluded { IfOk result (λ r. IfSome r.0 (λ c. IsConcluded self.entry.circuit.now self.entry.property (conclusion.Counted c))) }
        ensures meant { IfOk result (λ r. IfSome r.0 (λ c. IsMeantIn self.entry.circuit.now self.entry.property r.1 (conclusion.Counted c))) }
        ensures left { IfOk result (λ r. r.1 ≤ steps) }
    {
        let Property::Justice(position) = self.property else {
            return Ok((None, steps));
        };
        let part = steps / ROUNDS_PARTS;
        let (counted, left) = self.counted(rt, position, part, counters)?;
        let rest = steps.saturating_sub(part.saturating_sub(left));
        match counted {
            Counted::Bounded { .. } => Ok((Some(counted), rest)),
            Counted::Unknown { .. } => Ok((None, rest)),
        }
    }

    /// What signal correspondence comes to with at most so many of the steps.
    fn signals_with(
        self,
        rt: &HostRuntime,
        part: u64,
        steps: u64,
        counters: &mut Counters,
    ) -> Result<(Option<Conclusion>, u64), DecideError>
        ensures concluded { IfOk result (λ r. IfSome r.0 (IsConcluded self.entry.circuit.now self.entry.property)) }
        ensures meant { IfOk result (λ r. IfSome r.0 (IsMeantIn self.entry.circuit.now self.entry.property r.1)) }
        ensures left { IfOk result (λ r. r.1 ≤ steps) }
    {
        let (text, left) = self.signalled(rt, part, counters)?;
        let rest = steps.saturating_sub(part.saturating_sub(left));
        match text {
            Some(text) => Ok((Some(Conclusion::Shown(text)), rest)),
            None => Ok((None, rest)),
        }
    }

    /// What is decided so far, and where nothing is, what signal correspondence comes to with at most so many of the steps.
    fn signals_unless(
        self,
        rt: &HostRuntime,
        verdict: Verdict,
        part: u64,
        steps: u64,
        counters: &mut Counters,
    ) -> Result<(Option<Conclusion>, u64), DecideError>
        requires backed { IsBacked self.circuit.now self.property verdict }
        ensures given { IfOk result (λ r. IsGiven verdict r.0) }
        ensures concluded { IfOk result (λ r. IfSome r.0 (IsConcluded self.entry.circuit.now self.entry.property)) }
        ensures meant { IfOk result (λ r. IfSome r.0 (IsMeantIn self.entry.circuit.now self.entry.property r.1)) }
        ensures left { IfOk result (λ r. r.1 ≤ steps) }
    {
        match verdict {
            Verdict::Unknown(_) => self.signals_with(rt, part, steps, counters),
            found => Ok((Some(Conclusion::Decided(found)), steps)),
        }
    }

    /// What register correspondence says of runs without a step, and else signal correspondence with half of what is left.
    fn both_corresponded(
        self,
        rt: &HostRuntime,
        steps: u64,
        counters: &mut Counters,
    ) -> Result<(Option<Conclusion>, u64), DecideError>
        ensures concluded { IfOk result (λ r. IfSome r.0 (IsConcluded self.entry.circuit.now self.entry.property)) }
        ensures meant { IfOk result (λ r. IfSome r.0 (IsMeantIn self.entry.circuit.now self.entry.property r.1)) }
        ensures left { IfOk result (λ r. r.1 ≤ steps) }
    {
        let (verdict, left) = self.corresponded(rt, 0, steps, counters)?;
        self.signals_unless(rt, verdict, left / HALVES, left, counters)
    }

    /// What both correspondences say, and else bounded search behind equal registers.
    pub(crate) fn corresponding(
        self,
        rt: &HostRuntime,
        steps: u64,
        counters: &mut Counters,
    ) -> Result<(Conclusion, u64), DecideError>
        ensures concluded { IfOk result (λ r. IsConcluded self.entry.circuit.now self.entry.property r.0) }
        ensures meant { IfOk result (λ r. IsMeantIn self.entry.circuit.now self.entry.property r.1 r.0) }
        ensures left { IfOk result (λ r. r.1 ≤ steps) }
    {
        let (found, rest) = self.both_corresponded(rt, steps, counters)?;
        if let Some(conclusion) = found {
            return Ok((conclusion, rest));
        }
        let depth = self.timing.search.depth;
        let (verdict, left) = self.corresponded(rt, depth, rest, counters)?;
        Ok((Conclusion::Decided(verdict), left))
    }

    /// What bounded search says, and else k-induction.
    #[tactic(auto, using(crate::proofs::Told::meant_less))]
    pub(crate) fn bounded_or_induced(
        self,
        rt: &HostRuntime,
        steps: u64,
        counters: &mut Counters,
    ) -> Result<(Conclusion, u64), DecideError>
        ensures concluded { IfOk result (λ r. IsConcluded self.entry.circuit.now self.entry.property r.0) }
        ensures meant { IfOk result (λ r. IsMeantIn self.entry.circuit.now self.entry.property r.1 r.0) }
        ensures left { IfOk result (λ r. r.1 ≤ steps) }
    {
        let (verdict, left) = self.bounded(rt, steps, counters)?;
        if !matches!(verdict, Verdict::Unknown(_)) {
            return Ok((Conclusion::Decided(verdict), left));
        }
        let (text, rest) = self.induced(rt, left, counters)?;
        match text {
            Some(text) => Ok((Conclusion::Shown(text), rest)),
            None => Ok((Conclusion::Decided(verdict), rest)),
        }
    }

    /// What counting the rounds comes to, where the property is a justice property and it comes to a bound, and else register
    /// correspondence and the engines behind it.
    fn counted_or_merged(
        self,
        rt: &HostRuntime,
        candidates: Seq<Seq<Lit>>,
        steps: u64,
        counters: &mut Counters,
    ) -> Result<(Conclusion, u64), DecideError>
        ensures concluded { IfOk result (λ r. IsConcluded self.entry.circuit.now self.entry.property r.0) }
        ensures meant { IfOk result (λ r. IsMeantIn self.entry.circuit.now self.entry.property r.1 r.0) }
        ensures left { IfOk result (λ r. r.1 ≤ steps) }
    {
        let (bound, rest) = self.rounds_bound(rt, steps, counters)?;
        if let Some(counted) = bound {
            return Ok((Conclusion::Counted(counted), rest));
        }
        let (verdict, left) = self.merged(rt, candidates, rest, counters)?;
        Ok((Conclusion::Decided(verdict), left))
    }

    /// How many steps are spent at most before equal signals are looked for.
    fn steps_before_signals(self) -> u64 {
        if self.circuit.max_var() > MANY_VARIABLES {
            MOST_MERGED_STEPS
        } else {
            MERGED_STEPS
        }
    }

    /// What is said before equal signals are looked for: of a circuit with few variables what register correspondence says of
    /// runs without a step, and of another one what the engines behind it say too.
    fn before_signals(
        self,
        rt: &HostRuntime,
        candidates: Seq<Seq<Lit>>,
        steps: u64,
        counters: &mut Counters,
    ) -> Result<(Verdict, u64), DecideError>
        ensures backed { IfOk result (λ r. IsBacked self.entry.circuit.now self.entry.property r.0) }
        ensures meant { IfOk result (λ r. IsMeantWith self.entry.circuit.now self.entry.property r.1 r.0) }
        ensures left { IfOk result (λ r. r.1 ≤ steps) }
    {
        if self.circuit.max_var() > FEW_VARIABLES {
            self.merged(rt, candidates, steps, counters)
        } else {
            self.corresponded(rt, 0, steps, counters)
        }
    }

    /// What is said with few steps before equal signals are looked for, and else signal correspondence.
    fn by_equals(
        self,
        rt: &HostRuntime,
        candidates: Seq<Seq<Lit>>,
        steps: u64,
        counters: &mut Counters,
    ) -> Result<(Option<Conclusion>, u64), DecideError>
        ensures concluded { IfOk result (λ r. IfSome r.0 (IsConcluded self.entry.circuit.now self.entry.property)) }
        ensures meant { IfOk result (λ r. IfSome r.0 (IsMeantIn self.entry.circuit.now self.entry.property r.1)) }
        ensures left { IfOk result (λ r. r.1 ≤ steps) }
    {
        let few = steps.min(self.steps_before_signals());
        let (verdict, left) = self.before_signals(rt, candidates, few, counters)?;
        let rest = steps.saturating_sub(few.saturating_sub(left));
        let part = (rest / SIGNALS_PARTS).min(SIGNALS_STEPS);
        self.signals_unless(rt, verdict, part, rest, counters)
    }

    /// Whether equal signals may show the property.
    fn is_for_signals(self) -> bool {
        self.by_text && !matches!(self.property, Property::Justice(_))
    }

    /// The run that random simulation of long runs finds from this seed, with a part of so many steps and so many at most, where the
    /// property is no justice property. Answers how many steps are left too.
    fn long_run(
        self,
        rt: &HostRuntime,
        seed: u64,
        most: u64,
        steps: u64,
        counters: &mut Counters,
    ) -> Result<(Option<Conclusion>, u64), DecideError>
        ensures concluded { IfOk result (λ r. IfSome r.0 (IsConcluded self.entry.circuit.now self.entry.property)) }
        ensures meant { IfOk result (λ r. IfSome r.0 (IsMeantIn self.entry.circuit.now self.entry.property r.1)) }
        ensures left { IfOk result (λ r. r.1 ≤ steps) }
    {
        if let Property::Justice(_) = self.property {
            return Ok((None, steps));
        }
        let part = (steps / SIMULATION_PARTS).min(most);
        let (verdict, left) = self.simulated_long(rt, seed, part, counters)?;
        let rest = steps.saturating_sub(part.saturating_sub(left));
        match verdict {
            Verdict::Unknown(_) => Ok((None, rest)),
            found => Ok((Some(Conclusion::Decided(found)), rest)),
        }
    }

    /// What guesses of equal registers say, where the property is no justice property and they show it. Answers how many steps are
    /// left too.
    fn guess(
        self,
        rt: &HostRuntime,
        steps: u64,
        counters: &mut Counters,
    ) -> Result<(Option<Conclusion>, u64), DecideError>
        ensures concluded { IfOk result (λ r. IfSome r.0 (IsConcluded self.entry.circuit.now self.entry.property)) }
        ensures meant { IfOk result (λ r. IfSome r.0 (IsMeantIn self.entry.circuit.now self.entry.property r.1)) }
        ensures left { IfOk result (λ r. r.1 ≤ steps) }
    {
        if let Property::Justice(_) = self.property {
            return Ok((None, steps));
        }
        let part = (steps / GUESS_PARTS).min(GUESS_STEPS);
        let (verdict, left) = self.guessed(rt, part, counters)?;
        let rest = steps.saturating_sub(part.saturating_sub(left));
        match verdict {
            Verdict::Unknown(_) => Ok((None, rest)),
            found => Ok((Some(Conclusion::Decided(found)), rest)),
        }
    }

    /// What guesses of equal registers say, and else what stands behind them.
    fn guessed_first(
        self,
        rt: &HostRuntime,
        candidates: Seq<Seq<Lit>>,
        steps: u64,
        counters: &mut Counters,
    ) -> Result<(Conclusion, u64), DecideError>
        ensures concluded { IfOk result (λ r. IsConcluded self.entry.circuit.now self.entry.property r.0) }
        ensures meant { IfOk result (λ r. IsMeantIn self.entry.circuit.now self.entry.property r.1 r.0) }
        ensures left { IfOk result (λ r. r.1 ≤ steps) }
    {
        let (found, rest) = self.guess(rt, steps, counters)?;
        match found {
            Some(conclusion) => Ok((conclusion, rest)),
            None => self.behind(rt, candidates, rest, counters),
        }
    }

    /// What random simulation of long runs says with few steps, and else what stands behind it.
    pub(crate) fn simulated_first(
        self,
        rt: &HostRuntime,
        candidates: Seq<Seq<Lit>>,
        steps: u64,
        counters: &mut Counters,
    ) -> Result<(Conclusion, u64), DecideError>
        ensures concluded { IfOk result (λ r. IsConcluded self.entry.circuit.now self.entry.property r.0) }
        ensures meant { IfOk result (λ r. IsMeantIn self.entry.circuit.now self.entry.property r.1 r.0) }
        ensures left { IfOk result (λ r. r.1 ≤ steps) }
    {
        let seed = self.timing.search.seed;
        let (found, rest) = self.long_run(rt, seed, FIRST_SIMULATION_STEPS, steps, counters)?;
        match found {
            Some(conclusion) => Ok((conclusion, rest)),
            None => self.guessed_first(rt, candidates, rest, counters),
        }
    }

    /// What it says with more steps from another seed; else what the counting of rounds comes to, else register correspondence and
    /// the engines behind it.
    fn simulated_again(
        self,
        rt: &HostRuntime,
        candidates: Seq<Seq<Lit>>,
        steps: u64,
        counters: &mut Counters,
    ) -> Result<(Conclusion, u64), DecideError>
        ensures concluded { IfOk result (λ r. IsConcluded self.entry.circuit.now self.entry.property r.0) }
        ensures meant { IfOk result (λ r. IsMeantIn self.entry.circuit.now self.entry.property r.1 r.0) }
        ensures left { IfOk result (λ r. r.1 ≤ steps) }
    {
        let seed = !self.timing.search.seed;
        let (found, rest) = self.long_run(rt, seed, SIMULATION_STEPS, steps, counters)?;
        match found {
            Some(conclusion) => Ok((conclusion, rest)),
            None => self.counted_or_merged(rt, candidates, rest, counters),
        }
    }

    /// What equal registers and signals come to, where signals may show the property, and else what stands behind them.
    fn behind(
        self,
        rt: &HostRuntime,
        candidates: Seq<Seq<Lit>>,
        steps: u64,
        counters: &mut Counters,
    ) -> Result<(Conclusion, u64), DecideError>
        ensures concluded { IfOk result (λ r. IsConcluded self.entry.circuit.now self.entry.property r.0) }
        ensures meant { IfOk result (λ r. IsMeantIn self.entry.circuit.now self.entry.property r.1 r.0) }
        ensures left { IfOk result (λ r. r.1 ≤ steps) }
    {
        if !self.is_for_signals() {
            return self.simulated_again(rt, candidates, steps, counters);
        }
        let first = copied(rt.alloc(), candidates.as_slice())?;
        let (found, rest) = self.by_equals(rt, first, steps, counters)?;
        match found {
            Some(conclusion) => Ok((conclusion, rest)),
            None => self.simulated_again(rt, candidates, rest, counters),
        }
    }
}
