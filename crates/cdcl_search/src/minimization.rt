//! Clause minimization: literals of a learned clause that are redundant, since the others imply them.
//!
//! A literal is left out where its reason, the reasons of that reason's literals and so on lead
//! only to literals of the clause and of level 0 (Sörensson and Biere 2009). What is still to be
//! followed stands in a list and not on the machine's stack. As in MiniSat a literal whose level
//! has none of the clause's literals ends the search at once, and what led there is marked, so that it ends the next
//! literals' searches too.
//!
//! Of a clause that is still short those go as well whose negation a binary clause has beside the first literal
//! (Audemard and Simon 2009), but for questions about a part, which learn little.

use crate::analysis::Analysis;
use crate::assignment::Assignment;
use crate::guide::Guide;
use crate::short_lists::Short;
use crate::values::literal_of;
use base::{Refused, push};
use cdcl_kernel::Kernel;

/// The most literals of a clause that is minimized by binary clauses.
const MOST_BY_BINARY: usize = 30;

/// Leaves the redundant literals out, and notes the antecedents that show it. The first
/// literal stays.
pub fn minimize(
    kernel: &Kernel,
    assignment: &Assignment,
    analysis: &mut Analysis,
) -> Result<(), Refused> {
    let levels = levels_of(assignment, analysis);
    let mut kept = 1;
    for at in 1..analysis.clause.len() {
        let Some(literal) = analysis.clause.get(at).copied() else {
            break;
        };
        let before = analysis.seen_literals.len();
        if is_redundant(kernel, assignment, analysis, literal, levels)? {
            push_reasons(kernel, assignment, analysis, literal, before)?;
        } else {
            analysis.clear_seen(before);
            if kept < analysis.clause.len() {
                analysis.clause[kept] = literal;
                kept += 1;
            }
        }
    }
    analysis.clause.truncate(kept);
    analysis.clear_failed();
    Ok(())
}

/// Leaves the literals out whose negation a binary clause has beside the first literal, where the clause is
/// short enough and the question is about all clauses.
pub fn minimize_by_binary(guide: &mut Guide) -> Result<(), Refused> {
    if guide.decisions.parts.is_part || guide.analysis.clause.len() > MOST_BY_BINARY {
        return Ok(());
    }
    let Some(first) = guide.analysis.clause.first().copied() else {
        return Ok(());
    };
    let span = guide.watches.short_span(first);
    for at in 0..span.len {
        let short = guide.watches.short_at(span, at);
        if short.is_binary() {
            resolve_binary(guide, short)?;
        }
    }
    Ok(())
}

/// Leaves the negation of the binary clause's other literal out, where the clause in progress has it, and
/// hints the binary clause.
fn resolve_binary(guide: &mut Guide, binary: Short) -> Result<(), Refused> {
    let implied = literal_of(binary.first).wrapping_neg();
    if !guide.analysis.is_seen(implied) {
        return Ok(());
    }
    let Some(index) = guide
        .analysis
        .clause
        .iter()
        .position(|literal| *literal == implied)
    else {
        return Ok(());
    };
    guide.analysis.clause.swap_remove(index);
    guide.analysis.hint(binary.id)
}

/// One of 64 bits for the literal's level.
fn level_bit(assignment: &Assignment, literal: i32) -> u64 {
    1u64 << (assignment.level_of(literal) % 64)
}

/// The bits of the levels of the clause's literals but the first.
fn levels_of(assignment: &Assignment, analysis: &Analysis) -> u64 {
    let mut levels = 0;
    for at in 1..analysis.clause.len() {
        levels |= level_bit(assignment, analysis.clause[at]);
    }
    levels
}

/// Whether the literal is redundant: the reasons behind it lead only to what is seen. The literals between
/// are seen from then on, and have numbers from 1 on; the literal itself has 0. Where they lead elsewhere
/// those on the way there are marked as failed.
fn is_redundant(
    kernel: &Kernel,
    assignment: &Assignment,
    analysis: &mut Analysis,
    literal: i32,
    levels: u64,
) -> Result<bool, Refused> {
    let first = analysis.seen_literals.len();
    analysis.parents.clear();
    if !mark_reason_seen(kernel, assignment, analysis, literal, levels, 0)? {
        analysis.mark_failed(literal)?;
        return Ok(false);
    }
    for at in 0..assignment.trail.len() {
        let Some(between) = analysis
            .seen_literals
            .get(first.saturating_add(at))
            .copied()
        else {
            return Ok(true);
        };
        let number = at.saturating_add(1);
        if !mark_reason_seen(kernel, assignment, analysis, between, levels, number)? {
            analysis.mark_failed(literal)?;
            mark_path_failed(analysis, first, number)?;
            return Ok(false);
        }
    }
    Ok(true)
}

/// Marks the literals as failed that were seen from the index `first` on and lead to the one with this
/// number, counted from 1 on: it, the one to whose reason it belongs, and so on.
fn mark_path_failed(analysis: &mut Analysis, first: usize, number: usize) -> Result<(), Refused> {
    let mut number = number;
    for _ in 0..analysis.parents.len() {
        let index = number.wrapping_sub(1);
        let Some(parent) = analysis.parents.get(index).copied() else {
            return Ok(());
        };
        if let Some(literal) = analysis
            .seen_literals
            .get(first.saturating_add(index))
            .copied()
        {
            analysis.mark_failed(literal)?;
        }
        number = parent;
    }
    Ok(())
}

/// Marks the literals of the literal's reason as seen that are above level 0, and notes that they belong to
/// the reason of the literal with this number. Answers false where there is no reason, or one of them has
/// none, or is of a level that has none of the clause's literals, or has failed.
fn mark_reason_seen(
    kernel: &Kernel,
    assignment: &Assignment,
    analysis: &mut Analysis,
    literal: i32,
    levels: u64,
    number: usize,
) -> Result<bool, Refused> {
    let Some(reason) = assignment.reason_of(literal) else {
        return Ok(false);
    };
    let Some(clause) = kernel.clause(reason) else {
        return Ok(false);
    };
    for other in clause {
        if analysis.is_seen(*other) || assignment.level_of(*other) == 0 {
            continue;
        }
        if analysis.is_failed(*other) || level_bit(assignment, *other) & levels == 0 {
            return Ok(false);
        }
        if assignment.reason_of(*other).is_none() {
            return Ok(false);
        }
        analysis.mark_seen(*other)?;
        push(&mut analysis.parents, number)?;
    }
    Ok(true)
}

/// Notes the reasons of the literal and of those that were seen since as antecedents.
fn push_reasons(
    kernel: &Kernel,
    assignment: &Assignment,
    analysis: &mut Analysis,
    literal: i32,
    before: usize,
) -> Result<(), Refused> {
    let end = analysis.seen_literals.len();
    push_reason(kernel, assignment, analysis, literal)?;
    for at in before..end {
        if let Some(between) = analysis.seen_literals.get(at).copied() {
            push_reason(kernel, assignment, analysis, between)?;
        }
    }
    Ok(())
}

/// Notes the literal's reason as an antecedent, and hints what that needs of level 0.
fn push_reason(
    kernel: &Kernel,
    assignment: &Assignment,
    analysis: &mut Analysis,
    literal: i32,
) -> Result<(), Refused> {
    let trail_index = assignment.levels.trail_index_of(literal);
    let Some(reason) = assignment.trail.reason(trail_index) else {
        return Ok(());
    };
    analysis.push_antecedent(trail_index, reason)?;
    let Some(clause) = kernel.clause(reason) else {
        return Ok(());
    };
    for other in clause {
        if assignment.level_of(*other) == 0 && !analysis.is_seen(*other) {
            analysis.mark_seen(*other)?;
            analysis.hint(assignment.unit_id(*other))?;
        }
    }
    Ok(())
}
