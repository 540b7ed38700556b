//! The three proofs with fewer lines and fewer hints.

ghost use Rattle.std.specs.Prelude.{◌+◌, ◌<◌, ◌^◌, ◌≤◌, All, length};
ghost use Rattle.base.specs.Budget.{Spends};
ghost use Rattle.cnf.specs.Formulas.{IsInRange};
ghost use Rattle.extension.specs.Inductive.{IsOverAll};

use crate::formulas::{bad_formula, begin_formula, pair_formula};
use crate::proving::Proofs;
use crate::subject::Subject;
use base::{Budget, Lists, Refused};
use cnf::{TimeFrame, clause_into};
use graph::Lit;
use lrat::Formula;
use lrat_trim::{Derived, shorter_derived, shorter_refutation};
use std::alloc::Global;

/// The clauses at a time.
fn clauses_at(alloc: Global, time: TimeFrame, clauses: &Lists<Lit>) -> Result<Lists<i32>, Refused>
    requires fits { time.offset + time.max_var + 1 < 2 ^ 31 }
    requires over { All (All (IsInRange time.max_var)) clauses.now }
{
    let mut literals = Vec::new(alloc);
    let mut at = Lists::new(alloc);
    for place in 0..clauses.len() {
        clause_into(&mut literals, time, clauses.list(place))?;
        at.push(literals.as_slice())?;
    }
    Ok(at)
}

/// What shows the clauses at a time, by fewer lines and fewer hints.
fn shorter_at(
    alloc: Global,
    formula: &Formula,
    time: TimeFrame,
    clauses: &Lists<Lit>,
    derived: &Derived,
    budget: &mut Budget,
) -> Result<Derived, Refused>
    requires fits { time.offset + time.max_var + 1 < 2 ^ 31 }
    requires over { All (All (IsInRange time.max_var)) clauses.now }
    ensures { Spends budget.old budget.new }
{
    let clauses = clauses_at(alloc, time, clauses)?;
    shorter_derived(alloc, formula, &clauses, derived, budget)
}

/// The proofs of the clauses over the circuit, by fewer lines and fewer hints. One formula is held at a time. Where the budget
/// is spent, what is left stays as it is.
pub fn shortened(
    alloc: Global,
    subject: &Subject,
    invariant: &Lists<Lit>,
    proofs: Proofs,
    budget: &mut Budget,
) -> Result<Proofs, Refused>
    requires over { All (IsOverAll subject.now.circuit) invariant.now }
    requires few { length invariant.now ≤ 4194303 }
    requires bad { IsInRange subject.now.circuit.max_var subject.now.bad }
    ensures spends { Spends budget.old budget.new }
{
    let circuit = &subject.circuit;
    circuit.well_formed();
    let formula = begin_formula(alloc, circuit)?;
    let time = TimeFrame::first(circuit);
    let first = shorter_at(alloc, &formula, time, invariant, &proofs.first, budget)?;
    let formula = pair_formula(alloc, circuit, invariant)?;
    let time = TimeFrame::after(circuit, 1);
    let step = shorter_at(alloc, &formula, time, invariant, &proofs.step, budget)?;
    let formula = bad_formula(alloc, circuit, invariant, subject.bad)?;
    let last = shorter_refutation(alloc, &formula, &proofs.last, budget)?;
    Ok(Proofs { first, step, last })
}
