//! What a solver learns of signals.

ghost use Rattle.std.specs.Prelude.{◌≡◌, ◌+◌, All, IfSome};
ghost use Rattle.base.specs.Budget.{Spends};
ghost use Rattle.lrat.specs.Literals.{IsLiteral};

use base::{Budget, Seq};
use graph::{Lit, Model};
use solver::{Answer, PartSat, SatError};
use std::alloc::Global;
use sweep::{Question, STEPS, Sweep};

/// Whether a few steps show that the signals of a question do not differ in its direction.
fn is_shown<S: PartSat>(
    solver: &mut S,
    alloc: Global,
    question: Option<Question>,
    budget: &mut Budget,
) -> Result<bool, SatError>
    requires units { IfSome question (λ q. All (IsLiteral (S.vars solver.old)) q.units.items) }
    ensures vars { S.vars solver.new ≡ S.vars solver.old }
    ensures spends { Spends budget.old budget.new }
{
    let Some(question) = question else {
        return Ok(false);
    };
    let mut piece = Budget::new(budget.left().min(STEPS));
    let units = question.units.as_slice();
    let answer = solver.solve_part(alloc, &question.part, units, &mut piece)?;
    budget.spend(piece.spent());
    Ok(matches!(answer, Answer::Core(_)))
}

/// Asks whether the signal at an index can differ from an earlier one, and notes that it cannot where that is shown in both directions.
fn sweep_signal<S: PartSat>(
    solver: &mut S,
    alloc: Global,
    sweep: &mut Sweep,
    index: usize,
    budget: &mut Budget,
) -> Result<(), SatError>
    requires vars { S.vars solver.old ≡ sweep.old }
    ensures same { sweep.new ≡ sweep.old }
    ensures vars { S.vars solver.new ≡ S.vars solver.old }
    ensures spends { Spends budget.old budget.new }
{
    let question = sweep.question(alloc, index)?;
    if is_shown(solver, alloc, question, budget)? {
        let turned = sweep.turned(alloc)?;
        if is_shown(solver, alloc, turned, budget)? {
            sweep.merge();
        }
    }
    Ok(())
}

/// Asks of the circuit's signals whether they can differ, for what the solver learns of it.
pub(crate) fn sweep_pairs<S: PartSat>(
    solver: &mut S,
    alloc: Global,
    circuit: &Model,
    budget: &mut Budget,
) -> Result<(), SatError>
    requires vars { S.vars solver.old ≡ circuit.now.max_var + 1 }
    ensures vars { S.vars solver.new ≡ S.vars solver.old }
    ensures spends { Spends budget.old budget.new }
{
    let none: &[Seq<Lit>] = &[];
    let mut sweep = Sweep::new(alloc, circuit, none)?;
    'sweeping: for index in 0..sweep.len() {
        if budget.left() == 0 {
            return Ok(());
        }
        sweep_signal(solver, alloc, &mut sweep, index, budget)?;
    }
    Ok(())
}
