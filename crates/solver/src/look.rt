//! Looks at clauses and assumptions under values of the first variables.

ghost use Rattle.std.specs.Prelude.{◌≢◌, [], pos, ◌↔◌, IsTrue, MatchOption, IfOk, All, Contains};
ghost use Rattle.base.specs.Budget.{Spends};
ghost use Rattle.solver.specs.Branches.{IsFalse, IsDenied, Finds};

use base::{Budget, Refused, push};
use lrat::Clause;

/// What is known of the values that agree with the first ones.
pub enum Seen {
    /// no clause and no assumption is false yet
    Open,
    /// a clause or an assumption is false, whatever the other variables are
    Closed,
    /// the budget is exhausted
    Spent,
}

/// Whether the literal is false: its variable has a value, and it is not the literal's.
fn is_false(values: &[bool], literal: i32) -> bool
    requires { literal ≢ pos 0 }
    ensures { IsTrue result ↔ IsFalse values.now literal }
{
    match values.get(literal.unsigned_abs() as usize) {
        Some(value) => *value != (literal > 0),
        None => false,
    }
}

/// Whether each literal of the clause is false.
fn is_denied(values: &[bool], clause: &[i32]) -> bool
    requires { All (λ l. l ≢ pos 0) clause.now }
    ensures { IsTrue result ↔ IsDenied values.now clause.now }
{
    for literal in clause {
        if !is_false(values, *literal) {
            return false;
        }
    }
    true
}

/// Looks for a clause that is denied. Each clause looked at is a step of the budget.
fn look_at_clauses(values: &[bool], clauses: &[Clause], budget: &mut Budget) -> Seen
    requires { All (λ c. All (λ l. l ≢ pos 0) c) clauses.now }
    ensures spends { Spends budget.old budget.new }
    ensures finds { Finds values.now clauses.now [] [] budget.new result }
{
    for clause in clauses {
        if !budget.tick() {
            return Seen::Spent;
        }
        if is_denied(values, clause.as_slice()) {
            return Seen::Closed;
        }
    }
    Seen::Open
}

/// The first assumption that is false.
fn false_assumption(values: &[bool], assume: &[i32]) -> Option<i32>
    requires { All (λ l. l ≢ pos 0) assume.now }
    ensures { MatchOption result (All (λ l. IsFalse values.now l → ⊥) assume.now) (λ l. Contains assume.now l × IsFalse values.now l) }
{
    for literal in assume {
        if is_false(values, *literal) {
            return Some(*literal);
        }
    }
    None
}

/// Looks at the clauses and the assumptions. An assumption that is found false joins the core.
/// Each clause looked at is a step of the budget.
pub fn look(
    values: &[bool],
    clauses: &[Clause],
    assume: &[i32],
    core: &mut Vec<i32>,
    budget: &mut Budget,
) -> Result<Seen, Refused>
    requires clauses { All (λ c. All (λ l. l ≢ pos 0) c) clauses.now }
    requires assumed { All (λ l. l ≢ pos 0) assume.now }
    requires among { All (Contains assume.now) core.old.items }
    ensures among { All (Contains assume.now) core.new.items }
    ensures more { All (Contains core.new.items) core.old.items }
    ensures spends { Spends budget.old budget.new }
    ensures finds { IfOk result (Finds values.now clauses.now assume.now core.new.items budget.new) }
{
    match look_at_clauses(values, clauses, budget) {
        Seen::Spent => Ok(Seen::Spent),
        Seen::Closed => Ok(Seen::Closed),
        Seen::Open => match false_assumption(values, assume) {
            None => Ok(Seen::Open),
            Some(literal) => {
                if !core.contains(&literal) {
                    push(core, literal)?;
                }
                Ok(Seen::Closed)
            }
        },
    }
}
