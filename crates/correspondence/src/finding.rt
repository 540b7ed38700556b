//! The clauses of equal latches.

ghost use Rattle.std.specs.Prelude.{◌≡◌, None, IfOk, IfSome};
ghost use Rattle.base.specs.Budget.{Spends};
ghost use Rattle.engine.specs.Findings.{IsForBad};
ghost use Rattle.correspondence.specs.Found.{IsCorrespondence};
ghost use Rattle.correspondence.specs.Rounds.{IsEnd, IsGivenUp, IsLast};

use crate::equal_latches::Correspondence;
use crate::rounds::{Induction, Round};
use base::Budget;
use engine::Progress;
use graph::Model;
use latch_classes::Search;
use random_runs::opened;
use solver::{PartSat, SatError};
use std::alloc::Global;

/// Classes that don't exclude the bad literal may take one of so many parts of what is left of the budget.
const OPEN_PARTS: u64 = 4;

/// What rounds of induction end in: with classes that stay, with the first ones that don't exclude the bad literal, or where
/// the budget is exhausted. Once classes did not exclude it, it is not asked again.
fn induce<S: PartSat, P: Progress>(
    solver: &mut S,
    alloc: Global,
    circuit: &Model,
    induction: &mut Induction,
    is_open: bool,
    progress: &mut P,
    budget: &mut Budget,
) -> Result<Round, SatError>
    requires { IsForBad circuit.now }
    ensures spends { Spends budget.old budget.new }
    ensures round { IfOk result (IsEnd circuit.now is_open budget.new) }
{
    'inducing: while budget.tick() {
        match induction.round(solver, alloc, circuit, is_open, progress, budget)? {
            Round::Split => induction.search.shake(alloc, budget)?,
            ended => return Ok(ended),
        }
    }
    Ok(Round::Over)
}

/// What further rounds end in, where classes don't exclude the bad literal.
fn induce_open<S: PartSat, P: Progress>(
    solver: &mut S,
    alloc: Global,
    circuit: &Model,
    induction: &mut Induction,
    progress: &mut P,
    budget: &mut Budget,
) -> Result<Round, SatError>
    requires { IsForBad circuit.now }
    ensures spends { Spends budget.old budget.new }
    ensures last { IfOk result (IsLast circuit.now budget.old budget.new) }
{
    let mut piece = Budget::new(budget.left() / OPEN_PARTS);
    let ended = induce(
        solver, alloc, circuit, induction, true, progress, &mut piece,
    )?;
    budget.spend(piece.spent());
    Ok(ended)
}

/// What rounds end in, with classes or without.
fn ended<S: PartSat, P: Progress>(
    solver: &mut S,
    alloc: Global,
    circuit: &Model,
    induction: &mut Induction,
    progress: &mut P,
    budget: &mut Budget,
) -> Result<Round, SatError>
    requires { IsForBad circuit.now }
    ensures spends { Spends budget.old budget.new }
    ensures last { IfOk result (IsLast circuit.now budget.old budget.new) }
{
    match induce(solver, alloc, circuit, induction, false, progress, budget)? {
        Round::Open => induce_open(solver, alloc, circuit, induction, progress, budget),
        ended => Ok(ended),
    }
}

/// What `correspond` finds, by rounds that begin with all latches that are reset in one class.
fn correspond_by<S: PartSat, P: Progress>(
    solver: &mut S,
    alloc: Global,
    circuit: &Model,
    induction: &mut Induction,
    progress: &mut P,
    budget: &mut Budget,
) -> Result<Option<Correspondence>, SatError>
    requires { IsForBad circuit.now }
    ensures spends { Spends budget.old budget.new }
    ensures found { IfOk result (λ r. IfSome r (IsCorrespondence circuit.now)) }
    ensures none { IfOk result (λ r. r ≡ None → IsGivenUp circuit.now budget.old budget.new) }
{
    induction.search.simulate(alloc, budget)?;
    induction.search.shake(alloc, budget)?;
    match ended(solver, alloc, circuit, induction, progress, budget)? {
        Round::Fixed(found) => Ok(Some(found)),
        _ => Ok(None),
    }
}

/// Clauses that say which latches are equal, and that are inductive: an invariant where they exclude the bad literal. None
/// only where the budget is exhausted before they are found, or the part of it that clauses which don't exclude it may take,
/// or where the latches are too many. Each round is told to `progress`, and counted.
pub fn correspond<S: PartSat, P: Progress>(
    solver: &mut S,
    alloc: Global,
    circuit: &Model,
    rounds: &mut u64,
    progress: &mut P,
    budget: &mut Budget,
) -> Result<Option<Correspondence>, SatError>
    requires { IsForBad circuit.now }
    ensures spends { Spends budget.old budget.new }
    ensures found { IfOk result (λ r. IfSome r (IsCorrespondence circuit.now)) }
    ensures none { IfOk result (λ r. r ≡ None → IsGivenUp circuit.now budget.old budget.new) }
{
    let opened = opened(alloc, circuit)?;
    let search = Search::new(alloc, circuit, opened.as_ref().unwrap_or(circuit))?;
    let mut induction = Induction::new(search);
    let found = correspond_by(solver, alloc, circuit, &mut induction, progress, budget);
    *rounds = rounds.saturating_add(induction.count);
    found
}
