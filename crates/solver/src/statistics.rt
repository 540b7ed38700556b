//! What a solver counts.

/// How often a search did what, over all calls. A count that would be over the greatest number stays there.
#[derive(Clone, Copy)]
pub struct Statistics {
    /// literals that were decided, assumptions among them
    pub decisions: u64,
    /// literals whose negations' watches were visited
    pub propagations: u64,
    /// conflicts, those at level 0 among them
    pub conflicts: u64,
    /// restarts
    pub restarts: u64,
    /// how often learned clauses were forgotten
    pub reductions: u64,
    /// learned clauses that were kept, those that were forgotten later among them
    pub kept_learned: u64,
    /// learned clauses that were refused, since their hints do not show them
    pub refused_learned: u64,
    /// cores that were refused, since their hints do not show them or they are not all assumed
    pub refused_cores: u64,
}

/// Counts one more.
#[inline]
pub fn count(counter: &mut u64) {
    *counter = counter.saturating_add(1);
}

impl Statistics {
    /// Before the first call.
    pub fn new() -> Statistics {
        Statistics {
            decisions: 0,
            propagations: 0,
            conflicts: 0,
            restarts: 0,
            reductions: 0,
            kept_learned: 0,
            refused_learned: 0,
            refused_cores: 0,
        }
    }

    /// Counts a learned clause that was kept, or refused.
    pub fn count_learned(&mut self, is_kept: bool) {
        if is_kept {
            count(&mut self.kept_learned);
        } else {
            count(&mut self.refused_learned);
        }
    }

    /// Counts a core that was refused.
    pub fn count_core(&mut self, is_kept: bool) {
        if !is_kept {
            count(&mut self.refused_cores);
        }
    }
}
