//! What the values leave of a clause.

use crate::values::Values;
use cdcl_kernel::Kernel;

/// What the values leave of a clause.
#[derive(Clone, Copy)]
pub enum ClauseStatus {
    /// no clause has the id
    Missing,
    /// each of its literals is false
    Conflict,
    /// the one literal that is left is true already
    Satisfied,
    /// this one literal is left, and is unassigned
    Unit(i32),
    /// two or more distinct literals are not false
    Several,
}

/// A literal of the clause that is not false, besides one: it can be watched in place of another.
#[inline]
pub fn replacement_watch(kernel: &Kernel, values: &Values, id: u32, other: i32) -> Option<i32> {
    for literal in kernel.clause(id)? {
        if *literal != other && !values.is_false(*literal) {
            return Some(*literal);
        }
    }
    None
}

/// What the values leave of the clause with this id.
pub fn clause_status(kernel: &Kernel, values: &Values, id: u32) -> ClauseStatus {
    if kernel.clause(id).is_none() {
        return ClauseStatus::Missing;
    }
    let Some(literal) = replacement_watch(kernel, values, id, 0) else {
        return ClauseStatus::Conflict;
    };
    if replacement_watch(kernel, values, id, literal).is_some() {
        return ClauseStatus::Several;
    }
    if values.is_true(literal) {
        return ClauseStatus::Satisfied;
    }
    ClauseStatus::Unit(literal)
}
