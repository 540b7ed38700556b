//! What a refuter learns of signals.

ghost use Rattle.std.specs.Prelude.{◌≡◌, ◌+◌, ◌≤◌, All};
ghost use Rattle.base.specs.Budget.{Spends};
ghost use Rattle.lrat.specs.Literals.{IsLiteral};

use base::{Budget, Lists, Seq};
use cdcl::Refuter;
use graph::{Lit, Model};
use solver::SatError;
use std::alloc::Global;
use sweep::{Question, STEPS, Sweep};

/// Whether a few steps show that the signals of a question do not differ in its direction.
fn is_shown(
    alloc: Global,
    question: &Question,
    refuter: &mut Refuter,
    budget: &mut Budget,
) -> Result<bool, SatError>
    requires { All (IsLiteral refuter.old.formula.vars) question.now.units.items }
    ensures same { refuter.new ≡ refuter.old }
    ensures spends { Spends budget.old budget.new }
{
    let mut piece = Budget::new(budget.left().min(STEPS));
    let units = question.units.as_slice();
    let is_shown = refuter.learn(alloc, &question.part, units, &mut piece)?;
    budget.spend(piece.spent());
    Ok(is_shown)
}

/// Asks whether the signal at an index can differ from an earlier one, and notes that it cannot where that is shown in both
/// directions.
fn sweep_signal(
    alloc: Global,
    sweep: &mut Sweep,
    index: usize,
    refuter: &mut Refuter,
    budget: &mut Budget,
) -> Result<(), SatError>
    requires { sweep.old ≤ refuter.old.formula.vars }
    ensures sweep { sweep.new ≡ sweep.old }
    ensures same { refuter.new ≡ refuter.old }
    ensures spends { Spends budget.old budget.new }
{
    let Some(question) = sweep.question(alloc, index)? else {
        return Ok(());
    };
    if !is_shown(alloc, &question, refuter, budget)? {
        return Ok(());
    }
    let Some(turned) = sweep.turned(alloc)? else {
        return Ok(());
    };
    if is_shown(alloc, &turned, refuter, budget)? {
        sweep.merge();
    }
    Ok(())
}

/// Whether two clauses say that two literals are equal.
fn are_equality(one: &[Lit], other: &[Lit]) -> bool {
    match (one, other) {
        ([a, b], [c, d]) => {
            (a.0 ^ 1 == c.0 && b.0 ^ 1 == d.0) || (a.0 ^ 1 == d.0 && b.0 ^ 1 == c.0)
        }
        _ => false,
    }
}

/// Whether two clauses, one behind the other, say that literals are equal.
fn has_equality(invariant: &Lists<Lit>) -> bool {
    for place in 1..invariant.len() {
        if are_equality(invariant.list(place - 1), invariant.list(place)) {
            return true;
        }
    }
    false
}

/// The clauses, each in a list of its own.
fn copied(alloc: Global, invariant: &Lists<Lit>) -> Result<Seq<Seq<Lit>>, SatError> {
    let mut clauses = Seq::new(alloc);
    for k in 0..invariant.len() {
        clauses.push(Seq::from_slice(alloc, invariant.list(k))?)?;
    }
    Ok(clauses)
}

/// Asks of signals at the first time whether they can differ, for what the refuter learns of it: the lemmas of
/// which short proofs are made. Where no literals are equal it asks nothing: of latches that are constant, constant signals
/// follow at once.
pub fn sweep_pairs(
    alloc: Global,
    circuit: &Model,
    invariant: &Lists<Lit>,
    refuter: &mut Refuter,
    budget: &mut Budget,
) -> Result<(), SatError>
    requires { circuit.now.max_var + 1 ≤ refuter.old.formula.vars }
    ensures same { refuter.new ≡ refuter.old }
    ensures spends { Spends budget.old budget.new }
{
    if !has_equality(invariant) {
        return Ok(());
    }
    let clauses = copied(alloc, invariant)?;
    let mut sweep = Sweep::new(alloc, circuit, clauses.as_slice())?;
    'sweeping: for index in 0..sweep.len() {
        if budget.left() == 0 {
            return Ok(());
        }
        sweep_signal(alloc, &mut sweep, index, refuter, budget)?;
    }
    Ok(())
}
