//! A case that is asked, and the clauses that its core needs.

ghost use Rattle.std.specs.Prelude.{◌≡◌, ◌<◌, ◌≤◌, ◌+◌, ◌⊎◌, ℕ, false, IsTrue, ℤ, List, length, slice_index_or, All, Contains, IfOk, OnOk};
ghost use Rattle.base.specs.Budget.{Spends};
ghost use Rattle.graph.specs.declared.circuit.Lit.{Lit as Literal};
ghost use Rattle.lrat.specs.Literals.{IsLiteral};
ghost use Rattle.cnf.specs.Formulas.{IsOverLatches};
ghost use Rattle.inductive_subset.specs.Guards.{guard_of, IsLoaded, IsMarked, IsFor, IsAssumed, IsOfCore, IsLonger};
ghost use Rattle.inductive_subset.specs.Subsets.{IsExcluded, IsPossible};

use crate::loading::guard;
use crate::needed::Needed;
use base::{Budget, Refused, extend, push};
use graph::Model;
use solver::{Answer, Sat, SatError};
use std::alloc::Global;

/// Adds the guards of the clauses that are needed.
fn push_needed(literals: &mut Vec<i32>, circuit: &Model, needed: &Needed) -> Result<(), Refused>
    requires well { IsFor (length needed.now.marks.items) needed.now }
    requires fits { circuit.now.max_var + 1 + length needed.now.marks.items ≤ 2147483647 }
    ensures guards { (i : ℕ) → Contains needed.now.order.items i → OnOk result (Contains literals.new.items (guard_of circuit.now i)) }
    ensures assumed { (units : List ℤ) → All (IsAssumed circuit.now (length needed.now.marks.items) units) literals.old.items →
        OnOk result (All (IsAssumed circuit.now (length needed.now.marks.items) units) literals.new.items) }
{
    'pushing: for place in needed.order.as_slice() {
        push(literals, guard(circuit, *place as usize))?;
    }
    Ok(())
}

/// Adds the guards of the other clauses.
fn push_others(literals: &mut Vec<i32>, circuit: &Model, needed: &Needed) -> Result<(), Refused>
    requires { circuit.now.max_var + 1 + length needed.now.marks.items ≤ 2147483647 }
    ensures kept { (l : ℤ) → Contains literals.old.items l → OnOk result (Contains literals.new.items l) }
    ensures others { (i : ℕ) → i < length needed.now.marks.items → slice_index_or needed.now.marks.items i false ≡ false → OnOk result (Contains literals.new.items (guard_of circuit.now i)) }
    ensures assumed { (units : List ℤ) → All (IsAssumed circuit.now (length needed.now.marks.items) units) literals.old.items →
        OnOk result (All (IsAssumed circuit.now (length needed.now.marks.items) units) literals.new.items) }
{
    'pushing: for place in 0..needed.marks.len() {
        if !needed.marks[place] {
            push(literals, guard(circuit, place))?;
        }
    }
    Ok(())
}

/// What is assumed: the guards of all clauses, those that are needed first, so that cores prefer them; and the
/// units of the case.
fn assumptions(
    alloc: Global,
    circuit: &Model,
    needed: &Needed,
    units: &[i32],
) -> Result<Vec<i32>, Refused>
    requires well { IsFor (length needed.now.marks.items) needed.now }
    requires fits { circuit.now.max_var + 1 + length needed.now.marks.items ≤ 2147483647 }
    ensures assumed { IfOk result (λ v. All (IsAssumed circuit.now (length needed.now.marks.items) units.now) v.items) }
    ensures guards { IfOk result (λ v. (i : ℕ) → i < length needed.now.marks.items → Contains v.items (guard_of circuit.now i)) }
    ensures units { IfOk result (λ v. All (Contains v.items) units.now) }
{
    let mut literals = Vec::new(alloc);
    push_needed(&mut literals, circuit, needed)?;
    push_others(&mut literals, circuit, needed)?;
    extend(&mut literals, units)?;
    Ok(literals)
}

/// The clauses of a core's guards are needed.
fn mark_core(circuit: &Model, needed: &mut Needed, core: &[i32]) -> Result<(), Refused>
    requires fits { circuit.now.max_var + 1 + length needed.old.marks.items ≤ 2147483647 }
    requires guards { All (IsOfCore circuit.now (length needed.old.marks.items)) core.now }
    ensures well { (n : ℕ) → IsFor n needed.old → OnOk result (IsFor n needed.new) }
    ensures kept { (i : ℕ) → IsMarked needed.old.marks.items i → OnOk result (IsMarked needed.new.marks.items i) }
    ensures longer { OnOk result (IsLonger needed.old.order.items needed.new.order.items) }
    ensures marked { OnOk result (All (λ l. (i : ℕ) → l ≡ guard_of circuit.now i → IsMarked needed.new.marks.items i) core.now) }
{
    circuit.well_formed();
    let first = circuit.max_var() + 2;
    'marking: for literal in core {
        let variable = literal.unsigned_abs();
        if first <= variable {
            needed.mark((variable - first) as usize)?;
        }
    }
    Ok(())
}

/// Asks a case, and marks the clauses that exclude it. False only where all clauses leave it possible, or the budget is exhausted.
pub(crate) fn ask<S: Sat>(
    solver: &mut S,
    alloc: Global,
    circuit: &Model,
    needed: &mut Needed,
    units: &[i32],
    budget: &mut Budget,
) -> Result<bool, SatError>
    requires fits { circuit.now.max_var + 1 + length needed.old.marks.items ≤ 2147483647 }
    requires vars { S.vars solver.old ≡ circuit.now.max_var + 1 + length needed.old.marks.items }
    requires well { IsFor (length needed.old.marks.items) needed.old }
    requires units { All (IsLiteral (circuit.now.max_var + 1)) units.now }
    ensures vars { S.vars solver.new ≡ S.vars solver.old }
    ensures clauses { S.clauses solver.new ≡ S.clauses solver.old }
    ensures spends { Spends budget.old budget.new }
    ensures well { IfOk result (λ _. IsFor (length needed.old.marks.items) needed.new) }
    ensures kept { (i : ℕ) → IsMarked needed.old.marks.items i → IfOk result (λ _. IsMarked needed.new.marks.items i) }
    ensures longer { IfOk result (λ _. IsLonger needed.old.order.items needed.new.order.items) }
    ensures excluded { (inv : List (List Literal)) → All (IsOverLatches circuit.now) inv → IsLoaded circuit.now inv (S.vars solver.old) (S.clauses solver.old) →
        IfOk result (λ yes. IsTrue yes → IsExcluded circuit.now inv needed.new.marks.items units.now) }
    ensures possible { (inv : List (List Literal)) → IsLoaded circuit.now inv (S.vars solver.old) (S.clauses solver.old) →
        IfOk result (λ yes. yes ≡ false → IsPossible circuit.now inv units.now ⊎ (budget.new.left ≡ 0)) }
{
    circuit.well_formed();
    let assumed = assumptions(alloc, circuit, needed, units)?;
    match solver.solve(alloc, assumed.as_slice(), budget)? {
        Answer::Core(core) => {
            mark_core(circuit, needed, core.as_slice())?;
            Ok(true)
        }
        Answer::Model(_) => Ok(false),
        Answer::Spent => Ok(false),
    }
}
