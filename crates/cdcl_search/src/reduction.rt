//! Forgetting learned clauses.
//!
//! Each clause costs time in propagation, and most learned ones are of use for a short while. So after some
//! conflicts that taught clauses of more than two literals the worse half of these goes, but for the reasons of
//! literals on the trail. The worse ones are those whose literals were of more levels when they were learned (the glue, or
//! literal block distance, Audemard and Simon 2009); of two alike the longer, and then the older one.
//!
//! Where there are many clauses, a conflict propagates through many of them, and a few thousand learned ones
//! cost little beside those. So the conflicts from one reduction to the next are at least a tenth of all
//! clauses that were added or learned, forgotten ones too, and some thousand where something is assumed,
//! since what one question teaches serves the next ones too; but for questions about a part, which see a
//! small share of the clauses.

ghost use Rattle.std.specs.Prelude.{◌≡◌, IfErr};
ghost use Rattle.cdcl_log.specs.Keeping.{Keeps};
ghost use Rattle.solver.specs.declared.sat_error.SatError.TheVariants.{OutOfMemory};
ghost use Rattle.base.specs.Witness.{witness};

use crate::guide::Guide;
use crate::learned::LearnedClause;
use base::{Refused, push};
use cdcl_kernel::Kernel;
use cdcl_log::LoggedKernel;
use solver::SatError;

/// The fewest conflicts before the first reduction.
const FIRST: u64 = 500;

/// By this number of conflicts the interval grows from one reduction to the next.
const MORE: u64 = 50;

/// There are at least as many conflicts as this share of the clauses.
const SHARE: u64 = 10;

/// There are at least as many conflicts where something is assumed.
const ASSUMING: u64 = 3000;

/// When learned clauses are to be taken out.
#[derive(Drop)]
pub struct Reductions {
    /// the fewest conflicts from the last reduction to the next
    interval: u64,
    /// how many conflicts there were since the last
    since: u64,
}

impl Reductions {
    /// Before the first conflict.
    pub fn new() -> Reductions {
        Reductions {
            interval: FIRST,
            since: 0,
        }
    }

    /// Counts a conflict that taught more than two literals, and tells whether a reduction is due, where there are at least so many conflicts
    /// from one to the next.
    pub fn is_due(&mut self, least: u64) -> bool {
        self.since = self.since.saturating_add(1);
        if self.since < self.interval.max(least) {
            return false;
        }
        self.interval = self.interval.saturating_add(MORE);
        self.since = 0;
        true
    }
}

/// How many conflicts there are at least from one reduction to the next, in a question about a part or about
/// all clauses, of which so many were added or learned.
pub fn least_between(clauses: usize, is_part: bool, assume: &[i32]) -> u64 {
    let share = clauses as u64 / SHARE;
    if is_part {
        0
    } else if assume.is_empty() {
        share
    } else {
        share.max(ASSUMING)
    }
}

/// Takes the worse half of the learned clauses out.
pub fn reduce(kernel: &mut LoggedKernel, guide: &mut Guide) -> Result<(), SatError>
    ensures keeps { Keeps kernel.old kernel.new }
    ensures refused { IfErr result (λ e. e ≡ OutOfMemory witness) }
{
    guide
        .learned
        .clauses
        .as_mut_slice()
        .sort_unstable_by_key(|learned| rank(kernel.known(), *learned));
    let worse = worse_half(kernel.known(), guide)?;
    kernel.forget(worse.as_slice());
    guide
        .learned
        .clauses
        .retain(|learned| kernel.known().clause(learned.id).is_some());
    guide.watches.flush(kernel.known())?;
    Ok(())
}

/// The ids of the second half of the clauses, but for reasons.
fn worse_half(kernel: &Kernel, guide: &Guide) -> Result<Vec<u32>, Refused> {
    let mut ids = Vec::new(guide.alloc);
    for index in guide.learned.clauses.len() / 2..guide.learned.clauses.len() {
        let id = guide.learned.clauses[index].id;
        if !is_reason(kernel, guide, id) {
            push(&mut ids, id)?;
        }
    }
    Ok(ids)
}

/// Whether a literal came on the trail by the clause with this id.
fn is_reason(kernel: &Kernel, guide: &Guide, id: u32) -> bool {
    let Some(clause) = kernel.clause(id) else {
        return false;
    };
    clause.iter().any(|literal| {
        guide.assignment.values.is_true(*literal)
            && guide.assignment.reason_of(*literal) == Some(id)
    })
}

/// What makes a clause worse than another: how many levels its literals were of, its length, and how old it is.
fn rank(kernel: &Kernel, learned: LearnedClause) -> (u32, usize, u32) {
    let len = match kernel.clause(learned.id) {
        Some(clause) => clause.len(),
        None => 0,
    };
    (learned.glue, len, u32::MAX - learned.id)
}
