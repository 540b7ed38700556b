//! A search with its end in time.

ghost use Rattle.std.specs.Prelude.{◌≤◌};

use crate::reporter::Shown;
use crate::timed::{Deadline, Timed};
use arguments::Search;
use base::Budget;
use cdcl::Cdcl;
use std::alloc::Global;

/// A search, when its time is over, and how it is shown.
#[derive(Clone, Copy)]
pub struct Timing {
    /// how the search is to go
    pub search: Search,
    /// when its time is over
    pub deadline: Deadline,
    /// how it is shown on standard error
    pub shown: Shown,
}

impl Timing {
    /// A solver that is asked until then.
    pub fn solver(self, alloc: Global) -> Timed<Cdcl> {
        Timed::new(Cdcl::new(alloc), self.deadline)
    }

    /// So many steps: none where the time is over.
    pub fn budget(self, steps: u64) -> Budget
        ensures { result.left ≤ steps }
    {
        Budget::new(if self.deadline.is_over() { 0 } else { steps })
    }
}
