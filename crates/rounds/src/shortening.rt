//! Shorter certificates of the same number of rounds.

ghost use Rattle.std.specs.Prelude.{◌≡◌, ◌≤◌, ◌⊎◌, Some, IfOk, IfSome, length};
ghost use Rattle.base.specs.Budget.{Spends};
ghost use Rattle.engine.specs.Findings.{IsForBad};
ghost use Rattle.rounds.specs.Asked.{IsTried};
ghost use Rattle.rounds.specs.declared.asking.Tried.TheVariants.{Bounded};

use base::{Budget, Lists, Refused, Seq, push};
use certificate3::Claim;
use certify3::{Certified, CertifyError, Effort, Extension, certify};
use extension::{accepted_law, accepted_rounds_law};
use graph::{Gate, Lit, Model, Property};
use round_clauses::{needed, spared, strengthened, with_gates, with_own_gates};
use std::alloc::Global;

/// Shorter certificates are looked for with so many steps at most.
const MOST_STEPS: u64 = 5_000_000;

/// The half of a number that is a clause's place.
const PLACES: u64 = 0xffff_ffff;

/// A justice property, and the circuit that counts so many rounds of it.
#[derive(Clone, Copy)]
pub(crate) struct Counting<'a> {
    /// the circuit of the property
    pub circuit: &'a Model,
    /// the circuit that counts
    pub counter: &'a Model,
    /// the property
    pub position: u32,
    /// how many rounds
    pub rounds: u32,
}

/// The clauses, in one list.
pub(crate) fn listed(alloc: Global, clauses: &[Seq<Lit>]) -> Result<Lists<Lit>, Refused>
    ensures { IfOk result (λ l. l ≡ clauses.now) }
{
    let mut listed = Lists::new(alloc);
    for clause in clauses {
        listed.push(clause.as_slice())?;
    }
    Ok(listed)
}

/// The lengths of the clauses, negated where the longest ones are to be first, with the clauses' places behind them, in order.
fn lengths_of(alloc: Global, clauses: &[Seq<Lit>], is_turned: bool) -> Result<Vec<u64>, Refused> {
    let mut lengths = Vec::new(alloc);
    for place in 0..clauses.len() {
        let length = u32::try_from(clauses[place].as_slice().len()).unwrap_or(u32::MAX);
        let rank = if is_turned { !length } else { length };
        push(&mut lengths, u64::from(rank) << 32 | place as u64)?;
    }
    lengths.as_mut_slice().sort_unstable();
    Ok(lengths)
}

/// The clauses, the shortest ones first, or the longest ones.
fn by_length(
    alloc: Global,
    clauses: &[Seq<Lit>],
    is_turned: bool,
) -> Result<Seq<Seq<Lit>>, Refused> {
    let lengths = lengths_of(alloc, clauses, is_turned)?;
    let mut ordered = Seq::new(alloc);
    for length in lengths.as_slice() {
        if let Some(clause) = clauses.get((*length & PLACES) as usize) {
            ordered.push(clause.copy(alloc)?)?;
        }
    }
    Ok(ordered)
}

/// The clauses, the last ones first.
fn backwards(alloc: Global, clauses: &[Seq<Lit>]) -> Result<Seq<Seq<Lit>>, Refused> {
    let mut turned = Seq::new(alloc);
    for place in 0..clauses.len() {
        turned.push(clauses[clauses.len() - 1 - place].copy(alloc)?)?;
    }
    Ok(turned)
}

/// The shorter one of two texts.
fn shorter_of(text: Seq<u8>, other: Option<Seq<u8>>) -> Seq<u8>
    ensures one { (result ≡ text) ⊎ (other ≡ Some result) }
    ensures short { length result ≤ length text }
    ensures shorter { IfSome other (λ t. length result ≤ length t) }
{
    match other {
        Some(found) => {
            if found.len() < text.len() {
                found
            } else {
                text
            }
        }
        None => text,
    }
}

impl Counting<'_> {
    /// The certificate that comes of clauses over the circuit with these gates, where it is accepted.
    fn shown_with(
        self,
        alloc: Global,
        clauses: &[Seq<Lit>],
        gates: &[Gate],
        budget: &mut Budget,
    ) -> Result<Option<Seq<u8>>, Refused>
        ensures spends { Spends budget.old budget.new }
        ensures tried { IfOk result (λ r. IfSome r (λ t. IsTried self.entry.circuit.now self.entry.position self.entry.rounds (Bounded t))) }
    {
        self.circuit.well_formed();
        accepted_law();
        accepted_rounds_law();
        let claim = Claim {
            property: Property::Justice(self.position),
            rounds: self.rounds,
        };
        let latches = &[];
        let extension = Extension { latches, gates };
        let invariant = listed(alloc, clauses)?;
        let effort = Effort::Thorough;
        match certify(
            alloc,
            self.circuit,
            claim,
            extension,
            invariant,
            effort,
            budget,
        ) {
            Ok(Certified::Certificate(text)) => Ok(Some(text)),
            Err(CertifyError::OutOfMemory(refused)) => Err(refused),
            _ => Ok(None),
        }
    }

    /// The text, or a shorter one of these clauses.
    fn or_shown_with(
        self,
        alloc: Global,
        text: Seq<u8>,
        clauses: &[Seq<Lit>],
        gates: &[Gate],
        budget: &mut Budget,
    ) -> Result<Seq<u8>, Refused>
        requires tried { IsTried self.circuit.now self.position self.rounds (Bounded text) }
        ensures spends { Spends budget.old budget.new }
        ensures tried { IfOk result (λ t. IsTried self.entry.circuit.now self.entry.position self.entry.rounds (Bounded t)) }
        ensures short { IfOk result (λ t. length t ≤ length text) }
    {
        let found = self.shown_with(alloc, clauses, gates, budget)?;
        Ok(shorter_of(text, found))
    }

    /// Those of the clauses that the others need, behind the order of the latches that count.
    fn few(
        self,
        alloc: Global,
        clauses: &[Seq<Lit>],
        budget: &mut Budget,
    ) -> Result<Seq<Seq<Lit>>, Refused>
        requires { IsForBad self.counter.now }
        ensures { Spends budget.old budget.new }
    {
        let fewer = spared(alloc, self.counter, self.rounds, clauses, budget)?;
        needed(alloc, self.counter, fewer, budget)
    }

    /// The text, or a shorter one of the clauses with gates in place of literals that many share.
    fn or_shared(
        self,
        alloc: Global,
        text: Seq<u8>,
        clauses: &[Seq<Lit>],
        budget: &mut Budget,
    ) -> Result<Seq<u8>, Refused>
        requires tried { IsTried self.circuit.now self.position self.rounds (Bounded text) }
        ensures spends { Spends budget.old budget.new }
        ensures tried { IfOk result (λ t. IsTried self.entry.circuit.now self.entry.position self.entry.rounds (Bounded t)) }
        ensures short { IfOk result (λ t. length t ≤ length text) }
    {
        self.counter.well_formed();
        let longest = by_length(alloc, clauses, true)?;
        let first = self.counter.max_var() + 1;
        let shared = with_gates(alloc, longest, first, budget)?;
        let (clauses, gates) = (shared.clauses.as_slice(), shared.gates.as_slice());
        self.or_shown_with(alloc, text, clauses, gates, budget)
    }

    /// The text, or a shorter one of clauses with fewer literals, and of gates in place of what they share.
    fn or_strengthened(
        self,
        alloc: Global,
        text: Seq<u8>,
        clauses: Seq<Seq<Lit>>,
        budget: &mut Budget,
    ) -> Result<Seq<u8>, Refused>
        requires for_bad { IsForBad self.counter.now }
        requires tried { IsTried self.circuit.now self.position self.rounds (Bounded text) }
        ensures spends { Spends budget.old budget.new }
        ensures tried { IfOk result (λ t. IsTried self.entry.circuit.now self.entry.position self.entry.rounds (Bounded t)) }
        ensures short { IfOk result (λ t. length t ≤ length text) }
    {
        let stronger = strengthened(alloc, self.counter, clauses, budget)?;
        let few = self.few(alloc, stronger.as_slice(), budget)?;
        let shortest = by_length(alloc, few.as_slice(), false)?;
        let text = self.or_shown_with(alloc, text, shortest.as_slice(), &[], budget)?;
        let joined = with_own_gates(alloc, self.counter, few.as_slice(), budget)?;
        let text = self.or_shown_with(alloc, text, joined.as_slice(), &[], budget)?;
        let text = self.or_shared(alloc, text, few.as_slice(), budget)?;
        self.or_shared(alloc, text, joined.as_slice(), budget)
    }

    /// The text, or a shorter one by fewer clauses.
    fn or_fewer(
        self,
        alloc: Global,
        text: Seq<u8>,
        clauses: &[Seq<Lit>],
        budget: &mut Budget,
    ) -> Result<Seq<u8>, Refused>
        requires for_bad { IsForBad self.counter.now }
        requires tried { IsTried self.circuit.now self.position self.rounds (Bounded text) }
        ensures spends { Spends budget.old budget.new }
        ensures tried { IfOk result (λ t. IsTried self.entry.circuit.now self.entry.position self.entry.rounds (Bounded t)) }
        ensures short { IfOk result (λ t. length t ≤ length text) }
    {
        let few = self.few(alloc, clauses, budget)?;
        let turned = backwards(alloc, few.as_slice())?;
        let text = self.or_shown_with(alloc, text, turned.as_slice(), &[], budget)?;
        self.or_strengthened(alloc, text, few, budget)
    }

    /// The text, or a shorter one, which a part of the budget is spent on.
    pub(crate) fn shortest(
        self,
        alloc: Global,
        text: Seq<u8>,
        clauses: &[Seq<Lit>],
        budget: &mut Budget,
    ) -> Result<Seq<u8>, Refused>
        requires for_bad { IsForBad self.counter.now }
        requires tried { IsTried self.circuit.now self.position self.rounds (Bounded text) }
        ensures spends { Spends budget.old budget.new }
        ensures tried { IfOk result (λ t. IsTried self.entry.circuit.now self.entry.position self.entry.rounds (Bounded t)) }
        ensures short { IfOk result (λ t. length t ≤ length text) }
    {
        let mut part = Budget::new(budget.left().min(MOST_STEPS));
        let found = self.or_fewer(alloc, text, clauses, &mut part);
        budget.spend(part.spent());
        found
    }
}
