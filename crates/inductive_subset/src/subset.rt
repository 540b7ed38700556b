//! The clauses that are needed, by a work list.

ghost use Rattle.std.specs.Prelude.{◌≡◌, ◌≤◌, ◌+◌, ◌⊎◌, ℕ, false, IsTrue, None, length, All, Contains, IfOk, IfSome};
ghost use Rattle.base.specs.Budget.{Spends};
ghost use Rattle.graph.specs.WellFormed.{used};
ghost use Rattle.cnf.specs.Formulas.{IsOverLatches};
ghost use Rattle.cnf.specs.Invariants.{IsInductive};
ghost use Rattle.inductive_subset.specs.Guards.{IsLoaded, IsMarked, IsFor};
ghost use Rattle.inductive_subset.specs.Subsets.{IsHeld, AreMarked, AreUnkept, HoldAtFirst, IsLeft};

use crate::asking::ask;
use crate::loading::load;
use crate::needed::Needed;
use base::{Budget, Refused, Seq};
use cnf::{NextTable, bad_unit, step_units};
use graph::{Lit, Model};
use solver::{Sat, SatError};
use std::alloc::Global;

/// The greatest number of variables.
const GREATEST: u32 = 2_147_483_647;

/// The clauses that are marked, in their order.
fn marked(alloc: Global, invariant: &[Seq<Lit>], marks: &[bool]) -> Result<Seq<Seq<Lit>>, Refused>
    requires { length marks.now ≡ length invariant.now }
    ensures { IfOk result (AreMarked invariant.now marks.now) }
{
    let mut clauses = Seq::new(alloc);
    'collecting: for place in 0..invariant.len() {
        if marks[place] {
            clauses.push(invariant[place].copy(alloc)?)?;
        }
    }
    Ok(clauses)
}

/// Asks the step case of each needed clause, until no more are needed. False only where all clauses leave a case possible, or the
/// budget is exhausted.
fn close<S: Sat>(
    solver: &mut S,
    alloc: Global,
    circuit: &Model,
    invariant: &[Seq<Lit>],
    needed: &mut Needed,
    budget: &mut Budget,
) -> Result<bool, SatError>
    requires fits { circuit.now.max_var + 1 + length invariant.now ≤ 2147483647 }
    requires over { All (IsOverLatches circuit.now) invariant.now }
    requires loaded { IsLoaded circuit.now invariant.now (S.vars solver.old) (S.clauses solver.old) }
    requires well { IsFor (length invariant.now) needed.old }
    ensures spends { Spends budget.old budget.new }
    ensures well { IfOk result (λ _. IsFor (length invariant.now) needed.new) }
    ensures kept { (i : ℕ) → IsMarked needed.old.marks.items i → IfOk result (λ _. IsMarked needed.new.marks.items i) }
    ensures held { IfOk result (λ yes. IsTrue yes → All (IsHeld circuit.now invariant.now needed.new.marks.items) needed.new.order.items) }
    ensures left { IfOk result (λ yes. yes ≡ false → IsLeft circuit.now invariant.now ⊎ (budget.new.left ≡ 0)) }
{
    let table = NextTable::new(alloc, circuit)?;
    let mut asked = 0;
    'closing: while budget.tick() {
        if asked == needed.order.len() {
            return Ok(true);
        }
        let clause = invariant[needed.order[asked] as usize].as_slice();
        let units = step_units(alloc, circuit, &table, clause)?;
        if !ask(solver, alloc, circuit, needed, units.as_slice(), budget)? {
            return Ok(false);
        }
        asked += 1;
    }
    Ok(false)
}

/// Clauses of the invariant, in their order, that are inductive and exclude the bad literal by themselves, where each
/// clause of the invariant holds in every first state, which is not asked here. None only where the clauses are no
/// such invariant, where the budget is exhausted, or where the solver has not as many variables as they need.
pub fn safe_inductive_subset<S: Sat>(
    solver: &mut S,
    alloc: Global,
    circuit: &Model,
    invariant: &[Seq<Lit>],
    bad: Lit,
    budget: &mut Budget,
) -> Result<Option<Seq<Seq<Lit>>>, SatError>
    requires over { All (IsOverLatches circuit.now) invariant.now }
    requires bad { Contains (used circuit.now) bad }
    ensures spends { Spends budget.old budget.new }
    ensures among { IfOk result (λ r. IfSome r (λ cs. All (Contains invariant.now) cs)) }
    ensures shown { IfOk result (λ r. IfSome r (λ cs. HoldAtFirst circuit.now invariant.now → IsInductive circuit.now cs bad)) }
    ensures inductive { IfOk result (λ r. IfSome r (λ cs. IsInductive circuit.now invariant.now bad → IsInductive circuit.now cs bad)) }
    ensures none { IfOk result (λ r. r ≡ None → AreUnkept circuit.now invariant.now bad budget.new) }
{
    circuit.well_formed();
    if invariant.len() > (GREATEST - circuit.max_var() - 1) as usize {
        return Ok(None);
    }
    load(solver, alloc, circuit, invariant)?;
    let mut needed = Needed::none(alloc, invariant.len())?;
    let units = [bad_unit(circuit, bad)];
    if !ask(solver, alloc, circuit, &mut needed, &units, budget)? {
        return Ok(None);
    }
    if !close(solver, alloc, circuit, invariant, &mut needed, budget)? {
        return Ok(None);
    }
    Ok(Some(marked(alloc, invariant, needed.marks.as_slice())?))
}
