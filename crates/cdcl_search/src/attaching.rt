//! Clauses that were added since the last call.
//!
//! They are gone through twice: once for their variables and for how many short ones each literal gets, so
//! that there is room for all of them, and then each of them is watched.

use crate::clause_status::{ClauseStatus, replacement_watch};
use crate::guide::Guide;
use crate::levels::backtrack;
use crate::units::propagate_unit;
use base::{Refused, push};
use cdcl_kernel::Kernel;

/// Watches the clauses that were added since the last call. For a clause with fewer than two literals that
/// are not false the search backtracks to level 0, but for clauses of a single literal: those are
/// propagated in each call, until one begins at level 0. There is room for all first.
pub fn attach_new_clauses(kernel: &Kernel, guide: &mut Guide) -> Result<(), Refused> {
    let first = guide.watches.attached();
    let last = kernel.clauses();
    guide.watches.reach(last);
    for index in first..last {
        reserve_for(kernel, guide, index as u32 + 1)?;
    }
    guide.watches.reserve()?;
    for index in first..last {
        attach(kernel, guide, index as u32 + 1)?;
    }
    guide.watches.compact()?;
    propagate_pending_units(kernel, guide)
}

/// Makes room for a clause's variables, and counts it where it is short.
fn reserve_for(kernel: &Kernel, guide: &mut Guide, id: u32) -> Result<(), Refused> {
    if let Some(clause) = kernel.clause(id) {
        guide.add_variables(clause)?;
        guide.watches.count(clause)?;
    }
    Ok(())
}

/// Watches a clause. One of a single literal is kept to be propagated in each call; any other that can't be
/// watched is propagated at level 0.
fn attach(kernel: &Kernel, guide: &mut Guide, id: u32) -> Result<(), Refused> {
    if attach_watches(kernel, guide, id)? {
        return Ok(());
    }
    if let Some([_]) = kernel.clause(id) {
        push(&mut guide.pending_units, id)?;
        return Ok(());
    }
    backtrack(guide, 0)?;
    if attach_watches(kernel, guide, id)? {
        return Ok(());
    }
    propagate_attached(kernel, guide, id)
}

/// Watches a clause that has two literals which are not false, and answers whether it has.
fn attach_watches(kernel: &Kernel, guide: &mut Guide, id: u32) -> Result<bool, Refused> {
    let Some(clause) = kernel.clause(id) else {
        return Ok(false);
    };
    let Some((first, second)) = two_watches(kernel, guide, id) else {
        return Ok(false);
    };
    guide.watches.attach(id, first, second, clause)?;
    Ok(true)
}

/// Propagates the literal that a clause leaves. A clause that is false is a pending conflict.
fn propagate_attached(kernel: &Kernel, guide: &mut Guide, id: u32) -> Result<(), Refused> {
    if let ClauseStatus::Conflict = propagate_unit(kernel, &mut guide.assignment, id)? {
        guide.pending_conflict = Some(id);
    }
    Ok(())
}

/// Propagates the pending unit clause at an index.
fn propagate_pending_unit(kernel: &Kernel, guide: &mut Guide, at: usize) -> Result<(), Refused> {
    match guide.pending_units.get(at).copied() {
        Some(id) => propagate_attached(kernel, guide, id),
        None => Ok(()),
    }
}

/// Propagates the pending unit clauses. At level 0 their literals stay on the trail.
fn propagate_pending_units(kernel: &Kernel, guide: &mut Guide) -> Result<(), Refused> {
    for at in 0..guide.pending_units.len() {
        propagate_pending_unit(kernel, guide, at)?;
    }
    if guide.assignment.levels.current() == 0 {
        guide.pending_units.clear();
    }
    Ok(())
}

/// Two distinct literals of the clause that are not false, to be watched.
fn two_watches(kernel: &Kernel, guide: &Guide, id: u32) -> Option<(i32, i32)> {
    let first = replacement_watch(kernel, &guide.assignment.values, id, 0)?;
    let second = replacement_watch(kernel, &guide.assignment.values, id, first)?;
    Some((first, second))
}

/// Drops the pending conflict where that clause is no longer false.
pub fn recheck_pending_conflict(kernel: &Kernel, guide: &mut Guide) -> Result<(), Refused> {
    if let Some(id) = guide.pending_conflict {
        guide.pending_conflict = match propagate_unit(kernel, &mut guide.assignment, id)? {
            ClauseStatus::Conflict => Some(id),
            _ => None,
        };
    }
    Ok(())
}
