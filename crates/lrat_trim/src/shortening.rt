//! Proofs with fewer lines and fewer hints.

ghost use Rattle.base.specs.Budget.{Spends};

use crate::derivation::{Derivation, Role};
use crate::inlining::inlined_chains;
use crate::occurrences::Occurrences;
use crate::pairing::paired;
use crate::renumbering::trimmed;
use base::{Budget, Lists, Refused, Seq, push};
use lrat::{Clause, Formula, Line, LratError, Proof};
use std::alloc::Global;

/// Lines behind a formula's clauses, and behind them for each clause of others the hints that show it.
#[derive(Drop)]
pub struct Derived {
    /// the lines
    pub lines: Proof,
    /// the hints of each clause
    pub hints: Lists<u32>,
}

/// The derivation by fewer hints, found by unit propagation over all clauses.
fn by_fewer_hints(
    alloc: Global,
    derivation: Derivation,
    budget: &mut Budget,
) -> Result<Derivation, Refused>
    ensures { Spends budget.old budget.new }
{
    let occurrences = Occurrences::new(alloc, &derivation)?;
    let chains = occurrences.shortest_chains(alloc, &derivation, budget)?;
    trimmed(alloc, &derivation.with_chains(chains))
}

/// The derivation without the lines on which one other clause rests.
fn by_fewer_lines(
    alloc: Global,
    derivation: Derivation,
    budget: &mut Budget,
) -> Result<Derivation, Refused>
    ensures { Spends budget.old budget.new }
{
    let chains = inlined_chains(alloc, &derivation, budget)?;
    trimmed(alloc, &derivation.with_chains(chains))
}

/// The same goals by fewer lines and fewer hints.
fn shorter(
    alloc: Global,
    derivation: Derivation,
    budget: &mut Budget,
) -> Result<Derivation, Refused>
    ensures { Spends budget.old budget.new }
{
    let derivation = by_fewer_hints(alloc, derivation, budget)?;
    let derivation = paired(alloc, derivation, budget)?;
    let derivation = by_fewer_lines(alloc, derivation, budget)?;
    let derivation = by_fewer_hints(alloc, derivation, budget)?;
    by_fewer_lines(alloc, derivation, budget)
}

/// The lines and, as goals, the clauses by the hints behind the lines.
fn derivation_of(
    alloc: Global,
    formula: &Formula,
    clauses: &Lists<i32>,
    derived: &Derived,
) -> Result<Derivation, Refused> {
    let mut derivation = Derivation::new(alloc, formula)?;
    derivation.add_lines(alloc, derived.lines.lines())?;
    for place in 0..clauses.len().min(derived.hints.len()) {
        derivation.add(Role::Goal, clauses.list(place), derived.hints.list(place))?;
    }
    Ok(derivation)
}

/// The line that derives the clause at a place.
fn line_of(alloc: Global, derivation: &Derivation, place: usize) -> Result<Line, Refused> {
    let mut hints = Vec::new(alloc);
    for hint in derivation.hints(place) {
        push(&mut hints, i64::from(*hint))?;
    }
    let id = derivation.id(place);
    Ok(Line::Add {
        id,
        clause: Clause::from_slice(alloc, derivation.clause(id))?,
        hints: Seq::from_vec(hints),
    })
}

/// The lines that derive the clauses up to a place. One that is over a limit is left out.
fn lines_up_to(alloc: Global, derivation: &Derivation, end: usize) -> Result<Proof, Refused> {
    let mut proof = Proof::new(alloc);
    for place in 0..end {
        match proof.push(line_of(alloc, derivation, place)?) {
            Ok(()) => {}
            Err(LratError::OutOfMemory(refused)) => return Err(refused),
            Err(_) => {}
        }
    }
    Ok(proof)
}

/// The lines, and the hints of the goals behind them.
fn derived_of(alloc: Global, derivation: &Derivation) -> Result<Derived, Refused> {
    let lines = lines_up_to(alloc, derivation, derivation.lines())?;
    let mut hints = Lists::new(alloc);
    for place in derivation.lines()..derivation.derived() {
        hints.push(derivation.hints(place))?;
    }
    Ok(Derived { lines, hints })
}

/// What shows the clauses from the formula, by fewer lines and fewer hints. Where the budget is spent, what is left stays as
/// it is. What is answered is judged by `checker3` before it is an answer.
pub fn shorter_derived(
    alloc: Global,
    formula: &Formula,
    clauses: &Lists<i32>,
    derived: &Derived,
    budget: &mut Budget,
) -> Result<Derived, Refused>
    ensures { Spends budget.old budget.new }
{
    let derivation = derivation_of(alloc, formula, clauses, derived)?;
    let derivation = shorter(alloc, derivation, budget)?;
    derived_of(alloc, &derivation)
}

/// The refutation of the formula by fewer lines and fewer hints. Its last line is the goal. Where the budget is spent, what is
/// left stays as it is. What is answered is judged by `checker3` before it is an answer.
pub fn shorter_refutation(
    alloc: Global,
    formula: &Formula,
    proof: &Proof,
    budget: &mut Budget,
) -> Result<Proof, Refused>
    ensures { Spends budget.old budget.new }
{
    let mut derivation = Derivation::new(alloc, formula)?;
    derivation.add_lines(alloc, proof.lines())?;
    let derivation = shorter(alloc, derivation.with_goal(), budget)?;
    lines_up_to(alloc, &derivation, derivation.derived())
}
