//! Literals that clauses leave, and those that hold without decisions.
//!
//! A literal that comes on the trail at level 0 holds for good. It is learned as a unit clause before
//! anything else is learned, so that a later proof hints that clause in place of all the reasons behind it.

ghost use Rattle.std.specs.Prelude.{◌≡◌, IfErr};
ghost use Rattle.cdcl_log.specs.Keeping.{Keeps};
ghost use Rattle.solver.specs.declared.sat_error.SatError.TheVariants.{Limit};
ghost use Rattle.solver.specs.Full.{full};
ghost use Rattle.cdcl_log.specs.Logged.{IsFull};

use crate::analysis::Analysis;
use crate::assignment::Assignment;
use crate::clause_status::{ClauseStatus, clause_status};
use crate::guide::Guide;
use base::Refused;
use cdcl_kernel::Kernel;
use cdcl_log::{LoggedKernel, last_id};
use solver::SatError;

/// Puts the literal on the trail that a clause leaves, where it is unit.
pub fn propagate_unit(
    kernel: &Kernel,
    assignment: &mut Assignment,
    id: u32,
) -> Result<ClauseStatus, Refused> {
    let status = clause_status(kernel, &assignment.values, id);
    if let ClauseStatus::Unit(literal) = status {
        assignment.enqueue(literal, Some(id))?;
    }
    Ok(status)
}

/// Learns the literals that came at level 0 since the last time as unit clauses. Above level 0 there are none.
pub fn learn_root_units(kernel: &mut LoggedKernel, guide: &mut Guide) -> Result<(), SatError>
    ensures keeps { Keeps kernel.old kernel.new }
    ensures limit { IfErr result (λ e. e ≡ Limit full → IsFull kernel.new) }
{
    if guide.assignment.levels.current() > 0 {
        return Ok(());
    }
    for trail_index in guide.assignment.root_units..guide.assignment.trail.len() {
        learn_root_unit(kernel, guide, trail_index)?;
    }
    guide.assignment.root_units = guide.assignment.trail.len();
    Ok(())
}

/// Learns the literal of level 0 at a trail index as a unit clause.
fn learn_root_unit(
    kernel: &mut LoggedKernel,
    guide: &mut Guide,
    trail_index: usize,
) -> Result<(), SatError>
    ensures keeps { Keeps kernel.old kernel.new }
    ensures limit { IfErr result (λ e. e ≡ Limit full → IsFull kernel.new) }
{
    let Some(literal) = guide.assignment.trail.literal(trail_index) else {
        return Ok(());
    };
    let Some(id) = guide.assignment.trail.reason(trail_index) else {
        return Ok(());
    };
    let variable = literal.unsigned_abs() as usize;
    let Some(clause) = kernel.known().clause(id) else {
        return Ok(());
    };
    if clause.len() == 1 {
        guide.assignment.unit_ids.put(variable, id);
        return Ok(());
    }
    hint_units(&guide.assignment, &mut guide.analysis, clause, literal)?;
    guide.analysis.hint(id)?;
    let is_kept = kernel.learn(guide.alloc, &[literal], guide.analysis.hints.as_slice())?;
    guide.statistics.count_learned(is_kept);
    if is_kept {
        let unit = last_id(kernel.known());
        guide.watches.reach(kernel.known().clauses());
        guide.assignment.unit_ids.put(variable, unit);
    }
    Ok(())
}

/// Hints the unit clauses of the other literals, each once.
fn hint_units(
    assignment: &Assignment,
    analysis: &mut Analysis,
    clause: &[i32],
    literal: i32,
) -> Result<(), Refused> {
    analysis.hints.clear();
    for other in clause {
        if *other != literal {
            analysis.hint(assignment.unit_id(*other))?;
        }
    }
    let hints = analysis.hints.as_mut_slice();
    hints.sort_unstable();
    let kept = remove_duplicates(hints);
    analysis.hints.truncate(kept);
    Ok(())
}

/// Moves the first of each run of equal ids to the front, and answers how many there are.
fn remove_duplicates(ids: &mut [u32]) -> usize {
    let mut kept = 0;
    for at in 0..ids.len() {
        let id = ids[at];
        if kept == 0 || ids[kept - 1] != id {
            ids[kept] = id;
            kept += 1;
        }
    }
    kept
}
