//! What follows from the literals on the trail.
//!
//! For each literal that came on the trail the clauses that watch its negation are visited. One
//! with a replacement watch is watched there; of one with a single literal left, that
//! literal comes on the trail; one that is false is a conflict. Clauses of two or three literals come
//! first, since their watches tell which of them need not be visited. Each clause visited is a step of the
//! budget; a clause whose blocker is true is not visited.

ghost use Rattle.base.specs.Budget.{Spends};

use crate::guide::Guide;
use crate::long_clauses::WatchVisit;
use crate::short_lists::Short;
use crate::values::{Value, Values, code_of, literal_of};
use crate::watches::Watch;
use base::{Budget, Refused};
use cdcl_kernel::Kernel;
use solver::count;

/// How a propagation ended.
#[derive(Clone, Copy)]
pub enum Propagated {
    /// nothing more follows, and no clause is false
    NoConflict,
    /// the clause is false
    Conflict(u32),
    /// the budget is exhausted
    Spent,
}

/// What becomes of a watch whose clause was visited.
#[derive(Clone, Copy)]
enum WatchUpdate {
    /// the clause goes on watching the literal, beside this blocker
    Keep(u32),
    /// the clause watches another literal
    Move,
    /// the clause is false, and goes on watching the literal, beside this blocker
    Conflict(u32),
}

/// What the values leave of a short clause beside a literal that is false.
#[derive(Clone, Copy)]
enum ShortStatus {
    /// it need not be visited
    Skip,
    /// the unassigned literal with this code alone
    Unit(u32),
    /// nothing
    Conflict,
}

/// Visits the clauses of which a watched literal became false, until nothing more follows.
pub fn propagate(
    kernel: &Kernel,
    guide: &mut Guide,
    budget: &mut Budget,
) -> Result<Propagated, Refused>
    ensures { Spends budget.old budget.new }
{
    for _ in 0..kernel.vars() as u64 + 1 {
        let Some(literal) = guide.assignment.next_to_propagate() else {
            return Ok(Propagated::NoConflict);
        };
        count(&mut guide.statistics.propagations);
        match propagate_literal(guide, budget, literal.wrapping_neg())? {
            Propagated::NoConflict => guide.assignment.mark_propagated(),
            Propagated::Conflict(id) => return Ok(Propagated::Conflict(id)),
            Propagated::Spent => return Ok(Propagated::Spent),
        }
    }
    Ok(Propagated::NoConflict)
}

/// Visits the clauses that watch a literal, which is false.
fn propagate_literal(
    guide: &mut Guide,
    budget: &mut Budget,
    false_literal: i32,
) -> Result<Propagated, Refused>
    ensures { Spends budget.old budget.new }
{
    match visit_short_watches(guide, budget, false_literal)? {
        Propagated::NoConflict => {}
        outcome => return Ok(outcome),
    }
    let Some(mut list) = guide.watches.take(false_literal) else {
        return Ok(Propagated::NoConflict);
    };
    let outcome = visit_long_watches(guide, budget, code_of(false_literal), &mut list);
    guide.watches.put(false_literal, list);
    outcome
}

/// Whether a clause with this blocker need not be visited: the blocker is true; or it has no value and is not of the
/// part in question, above level 0, so that the clause may stay as it is.
#[inline]
fn can_skip(guide: &Guide, blocker: u32) -> bool {
    match guide.assignment.values.of(blocker) {
        Value::True => true,
        Value::False => false,
        Value::Unassigned => guide
            .decisions
            .parts
            .is_outside(&guide.assignment.levels, blocker),
    }
}

/// What is left of a short clause. It need not be visited where it has a true literal, or two unassigned ones.
#[inline]
fn short_status(values: &Values, clause: Short) -> ShortStatus {
    let first = values.of(clause.first);
    let second = values.of(clause.second);
    let chances = first.chance() + second.chance();
    if chances > 1 {
        ShortStatus::Skip
    } else if chances == 0 {
        ShortStatus::Conflict
    } else if first == Value::Unassigned {
        ShortStatus::Unit(clause.first)
    } else {
        ShortStatus::Unit(clause.second)
    }
}

/// Visits the clauses of two or three literals that have this one. What one of them leaves comes on the trail without a
/// look at the clause itself; where that is not of the part in question, above level 0, the clause is passed over.
fn visit_short_watches(
    guide: &mut Guide,
    budget: &mut Budget,
    false_literal: i32,
) -> Result<Propagated, Refused>
    ensures { Spends budget.old budget.new }
{
    for clause in guide.watches.shorts(false_literal) {
        let status = short_status(&guide.assignment.values, *clause);
        let is_skipped = match status {
            ShortStatus::Skip => true,
            ShortStatus::Unit(unit) => {
                guide
                    .decisions
                    .parts
                    .is_outside(&guide.assignment.levels, unit)
            }
            ShortStatus::Conflict => false,
        };
        if is_skipped {
            continue;
        }
        if !budget.tick() {
            return Ok(Propagated::Spent);
        }
        let ShortStatus::Unit(unit) = status else {
            return Ok(Propagated::Conflict(clause.id));
        };
        guide.assignment.enqueue(literal_of(unit), Some(clause.id))?;
    }
    Ok(Propagated::NoConflict)
}

/// Visits the longer clauses that watch the literal with this code. Those that go on watching it stay in the
/// list, in order.
fn visit_long_watches(
    guide: &mut Guide,
    budget: &mut Budget,
    false_code: u32,
    list: &mut Vec<Watch>,
) -> Result<Propagated, Refused>
    ensures { Spends budget.old budget.new }
{
    let mut kept = 0;
    for at in 0..list.len() {
        let watch = list[at];
        if can_skip(guide, watch.blocker) {
            list[kept] = watch;
            kept += 1;
            continue;
        }
        if !budget.tick() {
            close_gap(list, kept, at);
            return Ok(Propagated::Spent);
        }
        match visit_clause(guide, watch.clause_ref, false_code)? {
            WatchUpdate::Move => {}
            WatchUpdate::Keep(blocker) => {
                list[kept] = Watch { blocker, ..watch };
                kept += 1;
            }
            WatchUpdate::Conflict(blocker) => {
                list[at] = Watch { blocker, ..watch };
                close_gap(list, kept, at);
                return Ok(Propagated::Conflict(guide.watches.id(watch.clause_ref)));
            }
        }
    }
    list.truncate(kept);
    Ok(Propagated::NoConflict)
}

/// Moves the items from `from` on down to `to`.
fn close_gap(list: &mut Vec<Watch>, to: usize, from: usize) {
    if to == from {
        return;
    }
    let mut kept = to;
    for at in from..list.len() {
        let watch = list[at];
        if kept < list.len() {
            list[kept] = watch;
            kept += 1;
        }
    }
    list.truncate(kept);
}

/// Visits the long clause, of which a watched literal is false. What it leaves comes on the trail.
#[inline]
fn visit_clause(
    guide: &mut Guide,
    clause_ref: u32,
    false_code: u32,
) -> Result<WatchUpdate, Refused> {
    match guide
        .watches
        .visit(&guide.assignment.values, clause_ref, false_code)?
    {
        WatchVisit::Satisfied(literal) => Ok(WatchUpdate::Keep(literal)),
        WatchVisit::Moved { .. } | WatchVisit::Missing => Ok(WatchUpdate::Move),
        WatchVisit::Unit(other) => {
            let id = guide.watches.id(clause_ref);
            guide.assignment.enqueue(literal_of(other), Some(id))?;
            Ok(WatchUpdate::Keep(other))
        }
        WatchVisit::Conflict(other) => Ok(WatchUpdate::Conflict(other)),
    }
}
