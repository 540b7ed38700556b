//! What a conflict teaches.
//!
//! From the false clause the reasons are resolved away, the last literal of the trail first, until
//! one literal of the conflict's level is left, the first unique implication point. The clause of
//! its negation and of the literals of lower levels follows, and after backtracking it leaves that
//! one literal (Marques-Silva and Sakallah 1996; Zhang, Madigan, Moskewicz, Malik 2001).
//!
//! The reasons in the order of the trail, and the false clause last, are the hints by which the
//! kernel checks the clause before it is learned.

use crate::assignment::Assignment;
use crate::guide::Guide;
use crate::minimization::{minimize, minimize_by_binary};
use crate::table::Table;
use base::{Refused, push};
use cdcl_kernel::Kernel;
use std::alloc::Global;

/// A clause from which the clause in progress is derived, and the trail index of the literal that it is the reason of.
#[derive(Clone, Copy)]
struct Antecedent {
    trail_index: u32,
    id: u32,
}

/// The clause in progress, and what was met on the way to it.
#[derive(Drop)]
pub struct Analysis {
    /// which variables were seen
    seen: Table<bool>,
    /// literals of the variables that are seen
    pub seen_literals: Vec<i32>,
    /// which variables lead to a decision, or to a level without a literal of the clause in progress
    failed: Table<bool>,
    /// literals of the variables that failed
    failed_literals: Vec<i32>,
    /// of each literal that the minimization saw the number of the one to whose reason it belongs
    pub parents: Vec<usize>,
    /// the clause in progress
    pub clause: Vec<i32>,
    /// the clauses from which it is derived
    antecedents: Vec<Antecedent>,
    /// the ids of the clauses that show it, in order
    pub hints: Vec<u32>,
}

impl Analysis {
    /// No variables, which take no memory.
    pub fn new(alloc: Global) -> Analysis {
        Analysis {
            seen: Table::new(alloc),
            seen_literals: Vec::new(alloc),
            failed: Table::new(alloc),
            failed_literals: Vec::new(alloc),
            parents: Vec::new(alloc),
            clause: Vec::new(alloc),
            antecedents: Vec::new(alloc),
            hints: Vec::new(alloc),
        }
    }

    /// Makes room for the next variable, from 0 on.
    pub fn grow(&mut self) -> Result<(), Refused> {
        self.failed.push(false)?;
        self.seen.push(false)
    }

    /// For how many variables there is room, variable 0 too.
    #[inline]
    pub fn variables(&self) -> usize {
        self.seen.len()
    }

    /// Begins with an empty clause.
    pub fn begin(&mut self) {
        self.clear_seen(0);
        self.clause.clear();
        self.antecedents.clear();
        self.hints.clear();
    }

    /// Whether the literal's variable was seen.
    #[inline]
    pub fn is_seen(&self, literal: i32) -> bool {
        self.seen.at(literal.unsigned_abs() as usize, true)
    }

    /// Marks the literal's variable as seen.
    #[inline]
    pub fn mark_seen(&mut self, literal: i32) -> Result<(), Refused> {
        push(&mut self.seen_literals, literal)?;
        self.seen.put(literal.unsigned_abs() as usize, true);
        Ok(())
    }

    /// Only the first `len` of the variables that are seen stay so.
    pub fn clear_seen(&mut self, len: usize) {
        for index in len..self.seen_literals.len() {
            if let Some(literal) = self.seen_literals.get(index) {
                self.seen.put(literal.unsigned_abs() as usize, false);
            }
        }
        self.seen_literals.truncate(len);
    }

    /// Whether the literal's variable leads to a decision, or to a level without a literal of the clause in progress.
    #[inline]
    pub fn is_failed(&self, literal: i32) -> bool {
        self.failed.at(literal.unsigned_abs() as usize, false)
    }

    /// Marks the literal's variable as failed.
    pub fn mark_failed(&mut self, literal: i32) -> Result<(), Refused> {
        push(&mut self.failed_literals, literal)?;
        self.failed.put(literal.unsigned_abs() as usize, true);
        Ok(())
    }

    /// No variable is failed any more.
    pub fn clear_failed(&mut self) {
        for literal in self.failed_literals.iter() {
            self.failed.put(literal.unsigned_abs() as usize, false);
        }
        self.failed_literals.clear();
    }

    /// Hints the clause with this id next.
    #[inline]
    pub fn hint(&mut self, id: u32) -> Result<(), Refused> {
        push(&mut self.hints, id)
    }

    /// Notes an antecedent of the clause in progress.
    pub fn push_antecedent(&mut self, trail_index: usize, id: u32) -> Result<(), Refused> {
        if trail_index < 4_294_967_296 {
            push(
                &mut self.antecedents,
                Antecedent {
                    trail_index: trail_index as u32,
                    id,
                },
            )?;
        }
        Ok(())
    }

    /// Hints the antecedents in the order of the trail, and then the clause that is false.
    pub fn finish(&mut self, conflict: u32) -> Result<(), Refused> {
        self.antecedents
            .as_mut_slice()
            .sort_unstable_by_key(|antecedent| antecedent.trail_index);
        for antecedent in &self.antecedents {
            push(&mut self.hints, antecedent.id)?;
        }
        self.hint(conflict)
    }
}

/// The greatest level of the clause's literals.
pub fn conflict_level(kernel: &Kernel, assignment: &Assignment, id: u32) -> usize {
    let mut top = 0;
    if let Some(clause) = kernel.clause(id) {
        for literal in clause {
            top = top.max(assignment.level_of(*literal));
        }
    }
    top
}

/// Puts the clause of the first unique implication point of the level, and its hints, into the
/// guide.
pub fn analyse(
    kernel: &Kernel,
    guide: &mut Guide,
    conflict: u32,
    level: usize,
) -> Result<(), Refused> {
    guide.analysis.begin();
    push(&mut guide.analysis.clause, 0)?;
    let point = resolve(kernel, guide, conflict, level)?;
    if let Some(first) = guide.analysis.clause.first_mut() {
        *first = point.wrapping_neg();
    }
    minimize(kernel, &guide.assignment, &mut guide.analysis)?;
    minimize_by_binary(guide)?;
    guide.analysis.finish(conflict)
}

/// Resolves the reasons away from the end of the trail on, and answers the literal that is left.
fn resolve(
    kernel: &Kernel,
    guide: &mut Guide,
    conflict: u32,
    level: usize,
) -> Result<i32, Refused> {
    let mut unresolved = analyse_reason(kernel, guide, conflict, 0, level)?;
    let mut trail_index = guide.assignment.trail.len();
    for _ in 0..guide.assignment.trail.len() {
        trail_index = trail_index.saturating_sub(1);
        let Some(literal) = guide.assignment.trail.literal(trail_index) else {
            break;
        };
        if !guide.analysis.is_seen(literal) || guide.assignment.level_of(literal) < level {
            continue;
        }
        if unresolved <= 1 {
            return Ok(literal);
        }
        unresolved -= 1;
        let Some(reason) = guide.assignment.trail.reason(trail_index) else {
            break;
        };
        guide.analysis.push_antecedent(trail_index, reason)?;
        let more = analyse_reason(kernel, guide, reason, literal, level)?;
        unresolved = unresolved.saturating_add(more);
    }
    Ok(0)
}

/// Marks the clause's literals but one as seen. Those of lower levels join the clause in progress; the
/// others are counted. What holds without decisions is hinted.
fn analyse_reason(
    kernel: &Kernel,
    guide: &mut Guide,
    id: u32,
    skipped: i32,
    level: usize,
) -> Result<u64, Refused> {
    let mut count = 0u64;
    let Some(clause) = kernel.clause(id) else {
        return Ok(0);
    };
    for literal in clause {
        if *literal == skipped || guide.analysis.is_seen(*literal) {
            continue;
        }
        guide.analysis.mark_seen(*literal)?;
        let at = guide.assignment.level_of(*literal);
        if at == 0 {
            guide.analysis.hint(guide.assignment.unit_id(*literal))?;
            continue;
        }
        guide.decisions.heap.bump(*literal);
        if at >= level {
            count = count.saturating_add(1);
        } else {
            push(&mut guide.analysis.clause, *literal)?;
        }
    }
    Ok(count)
}
