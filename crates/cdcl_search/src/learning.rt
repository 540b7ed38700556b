//! What is done with a conflict: a clause is learned from it, and the search backtracks to where
//! that clause leaves one literal.
//!
//! The kernel refuses a clause that its hints do not show. Then nothing is learned, and the search begins anew.

ghost use Rattle.std.specs.Prelude.{◌≡◌, IfErr};
ghost use Rattle.cdcl_log.specs.Keeping.{Keeps};
ghost use Rattle.solver.specs.declared.sat_error.SatError.TheVariants.{Limit};
ghost use Rattle.solver.specs.Full.{full};
ghost use Rattle.cdcl_log.specs.Logged.{IsFull};

use crate::analysis::analyse;
use crate::guide::Guide;
use crate::levels::{Levels, backtrack};
use crate::units::propagate_unit;
use base::Refused;
use cdcl_log::{LoggedKernel, last_id};
use solver::SatError;

/// Learns from a clause that is false, whose greatest level is `level` and not 0, and backtracks.
pub fn learn(
    kernel: &mut LoggedKernel,
    guide: &mut Guide,
    conflict: u32,
    level: usize,
) -> Result<(), SatError>
    ensures keeps { Keeps kernel.old kernel.new }
    ensures limit { IfErr result (λ e. e ≡ Limit full → IsFull kernel.new) }
{
    backtrack(guide, level)?;
    analyse(kernel.known(), guide, conflict, level)?;
    let is_kept = kernel.learn(
        guide.alloc,
        guide.analysis.clause.as_slice(),
        guide.analysis.hints.as_slice(),
    )?;
    guide.statistics.count_learned(is_kept);
    if !is_kept {
        return Ok(backtrack(guide, 0)?);
    }
    let id = last_id(kernel.known());
    let clause = guide.analysis.clause.as_mut_slice();
    let back = order_watches(&guide.assignment.levels, clause);
    backtrack(guide, back)?;
    attach(guide, id)?;
    propagate_unit(kernel.known(), &mut guide.assignment, id)?;
    guide.decisions.heap.decay();
    Ok(())
}

/// Puts the literal of the greatest level first and that of the next one second, and answers the
/// second one's level.
fn order_watches(levels: &Levels, clause: &mut [i32]) -> usize {
    move_highest_level_to(levels, clause, 0);
    move_highest_level_to(levels, clause, 1)
}

/// Swaps the literal of the greatest level from an index on to that index, and answers its level.
fn move_highest_level_to(levels: &Levels, clause: &mut [i32], index: usize) -> usize {
    let mut best = index;
    let mut level = 0;
    for at in index..clause.len() {
        let here = levels.level_of(clause[at]);
        if here > level {
            best = at;
            level = here;
        }
    }
    if index < best && best < clause.len() {
        clause.swap(index, best);
    }
    level
}

/// Watches the first two literals of the clause in progress.
pub fn attach(guide: &mut Guide, id: u32) -> Result<(), Refused> {
    let len = guide.analysis.clause.len();
    guide.watches.reach(id as usize);
    if let [first, second, ..] = guide.analysis.clause.as_slice() {
        guide
            .watches
            .attach(id, *first, *second, guide.analysis.clause.as_slice())?;
    }
    if len > 2 {
        let glue = guide
            .assignment
            .levels
            .glue(guide.analysis.clause.as_slice());
        guide.learned.add(id, glue)?;
    }
    Ok(())
}
