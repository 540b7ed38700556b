//! Decisions by justification.
//!
//! A false gate of the part in question needs a false side. Where one has none yet, the search decides such a
//! side: so it decides little that the question does not rest on (as the J-frontier of test generation does;
//! Kuehlmann, Ganai, Paruthi 2001). First come the part's gates that were false when the question began, then those
//! that came on the trail since, in its order. Those before `Decisions::justified` have what they need; backtracking
//! to a level brings that number back to what it was there.

use crate::assignment::Assignment;
use crate::decisions::Decisions;
use solver::AndGate;

/// The literal that gives the first false gate a false side that has none: of two unassigned sides the first
/// is made false.
pub fn unjustified(assignment: &Assignment, decisions: &mut Decisions) -> Option<i32> {
    let come_since = assignment.trail.len().saturating_sub(decisions.root_trail);
    let end = decisions.parts.false_gates.len().saturating_add(come_since);
    for index in decisions.justified..end {
        if let Some(literal) = justification_at(assignment, decisions, index) {
            decisions.justified = index;
            return Some(literal);
        }
    }
    decisions.justified = end;
    None
}

/// The false gate of the part with this index: one from before, or one that came on the trail since.
#[inline]
fn false_gate_at(assignment: &Assignment, decisions: &Decisions, index: usize) -> Option<AndGate> {
    let parts = &decisions.parts;
    if let Some(gate) = parts.false_gates.get(index) {
        return Some(*gate);
    }
    let behind = index.saturating_sub(parts.false_gates.len());
    let trail_index = decisions.root_trail.saturating_add(behind);
    parts.false_gate_of(assignment.trail.literal(trail_index)?)
}

/// What the false gate with this index needs, where it has no false side.
#[inline]
fn justification_at(assignment: &Assignment, decisions: &Decisions, index: usize) -> Option<i32> {
    let gate = false_gate_at(assignment, decisions, index)?;
    if assignment.values.is_false(gate.rhs0) || assignment.values.is_false(gate.rhs1) {
        return None;
    }
    if assignment.values.is_unassigned(gate.rhs0) {
        return Some(gate.rhs0.wrapping_neg());
    }
    if assignment.values.is_unassigned(gate.rhs1) {
        return Some(gate.rhs1.wrapping_neg());
    }
    None
}
