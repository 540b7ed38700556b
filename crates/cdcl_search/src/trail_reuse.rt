//! Trail reuse: the levels that a call shares with the call before.
//!
//! The assumptions have the first levels of the trail, in order. A call whose first assumptions are
//! those of the call before keeps their levels, with all that follows from them, and so costs
//! nothing for them.

use crate::guide::Guide;
use crate::levels::backtrack_after_call;
use base::{Refused, extend};

/// The most clauses of one literal that wait for level 0.
const MOST_PENDING_UNITS: usize = 32;

/// Backtracks to where the assumptions are no longer those of the call before, and takes note of them. It
/// backtracks to level 0 where many clauses of one literal wait for that, and where either call is about a
/// part: what follows outside of a part is not on the trail.
pub fn reuse_trail(guide: &mut Guide, is_part: bool, assume: &[i32]) -> Result<(), Refused> {
    let is_new = is_part || guide.decisions.parts.is_part;
    if is_new {
        guide.decisions.empty_heap();
    }
    let level = if is_new || guide.pending_units.len() > MOST_PENDING_UNITS {
        0
    } else {
        shared_levels(guide, assume)
    };
    backtrack_after_call(guide, level)?;
    guide.assumptions.clear();
    extend(&mut guide.assumptions, assume)
}

/// How many of the first assumptions have their levels already.
fn shared_levels(guide: &Guide, assume: &[i32]) -> usize {
    let current = guide.assignment.levels.current();
    let most = current.min(guide.assumptions.len()).min(assume.len());
    for level in 0..most {
        if guide.assumptions[level] != assume[level] {
            return level;
        }
    }
    most
}
