//! What a refuter learns of signals.

ghost use Rattle.std.specs.Prelude.{◌≡◌, ◌+◌, All, IfSome};
ghost use Rattle.base.specs.Budget.{Spends};
ghost use Rattle.lrat.specs.Literals.{IsLiteral};

use base::{Budget, Seq};
use cdcl::Refuter;
use graph::{Lit, Model};
use solver::SatError;
use std::alloc::Global;
use sweep::{Question, STEPS, Sweep};

/// Whether a few steps show that the signals of a question do not differ in its direction.
fn is_shown(
    alloc: Global,
    question: Option<Question>,
    refuter: &mut Refuter,
    budget: &mut Budget,
) -> Result<bool, SatError>
    requires { IfSome question (λ q. All (IsLiteral refuter.old.formula.vars) q.units.items) }
    ensures same { refuter.new ≡ refuter.old }
    ensures spends { Spends budget.old budget.new }
{
    let Some(question) = question else {
        return Ok(false);
    };
    let mut piece = Budget::new(budget.left().min(STEPS));
    let units = question.units.as_slice();
    let is_shown = refuter.learn(alloc, &question.part, units, &mut piece)?;
    budget.spend(piece.spent());
    Ok(is_shown)
}

/// Asks whether the signal at an index can differ from an earlier one, and notes that it cannot where that is shown in both
/// directions.
fn sweep_signal(
    alloc: Global,
    sweep: &mut Sweep,
    index: usize,
    refuter: &mut Refuter,
    budget: &mut Budget,
) -> Result<(), SatError>
    requires { refuter.old.formula.vars ≡ sweep.old }
    ensures sweep { sweep.new ≡ sweep.old }
    ensures same { refuter.new ≡ refuter.old }
    ensures spends { Spends budget.old budget.new }
{
    let question = sweep.question(alloc, index)?;
    if is_shown(alloc, question, refuter, budget)? {
        let turned = sweep.turned(alloc)?;
        if is_shown(alloc, turned, refuter, budget)? {
            sweep.merge();
        }
    }
    Ok(())
}

/// Whether two clauses say that two literals are equal.
fn are_equality(one: &[Lit], other: &[Lit]) -> bool {
    match (one, other) {
        ([a, b], [c, d]) => {
            (a.0 ^ 1 == c.0 && b.0 ^ 1 == d.0) || (a.0 ^ 1 == d.0 && b.0 ^ 1 == c.0)
        }
        _ => false,
    }
}

/// Whether two clauses, one behind the other, say that latches are equal.
fn has_equality(invariant: &[Seq<Lit>]) -> bool {
    (1..invariant.len()).any(|place| are_equality(
        invariant[place - 1].as_slice(),
        invariant[place].as_slice(),
    ))
}

/// Asks of signals whether they can differ, for what the refuter learns of it: the lemmas of which short proofs are
/// made. Where no latches are equal it asks nothing: of latches that are constant, constant signals follow at once.
pub(crate) fn sweep_pairs(
    alloc: Global,
    circuit: &Model,
    invariant: &[Seq<Lit>],
    refuter: &mut Refuter,
    budget: &mut Budget,
) -> Result<(), SatError>
    requires { refuter.old.formula.vars ≡ circuit.now.max_var + 1 }
    ensures same { refuter.new ≡ refuter.old }
    ensures spends { Spends budget.old budget.new }
{
    if !has_equality(invariant) {
        return Ok(());
    }
    let mut sweep = Sweep::new(alloc, circuit, invariant)?;
    'sweeping: for index in 0..sweep.len() {
        if budget.left() == 0 {
            return Ok(());
        }
        sweep_signal(alloc, &mut sweep, index, refuter, budget)?;
    }
    Ok(())
}
