//! Which clauses are needed.

ghost use Rattle.std.specs.Prelude.{◌≡◌, ◌<◌, ◌≤◌, ℕ, length, IfOk, OnOk};
ghost use Rattle.inductive_subset.specs.Guards.{IsMarked, IsFor, IsLonger};

use base::{Refused, filled, push};
use std::alloc::Global;

/// The clauses that are needed.
#[derive(Drop)]
pub(crate) struct Needed {
    /// whether the clause at a place is needed
    pub marks: Vec<bool>,
    /// the places of those that are, in the order in which that was found
    pub order: Vec<u32>,
}

impl Needed {
    /// None of this number of clauses.
    pub(crate) fn none(alloc: Global, count: usize) -> Result<Needed, Refused>
        requires { count ≤ 2147483647 }
        ensures { IfOk result (IsFor count) }
    {
        Ok(Needed {
            marks: filled(alloc, false, count)?,
            order: Vec::new(alloc),
        })
    }

    /// The clause at a place is needed.
    pub(crate) fn mark(&mut self, place: usize) -> Result<(), Refused>
        requires place { place < length self.old.marks.items }
        requires fits { length self.old.marks.items ≤ 2147483647 }
        ensures well { (n : ℕ) → IsFor n self.old → OnOk result (IsFor n self.new) }
        ensures kept { (i : ℕ) → IsMarked self.old.marks.items i → OnOk result (IsMarked self.new.marks.items i) }
        ensures marked { OnOk result (IsMarked self.new.marks.items place) }
        ensures longer { OnOk result (IsLonger self.old.order.items self.new.order.items) }
        ensures places { OnOk result (length self.new.marks.items ≡ length self.old.marks.items) }
    {
        if self.marks[place] {
            return Ok(());
        }
        push(&mut self.order, place as u32)?;
        self.marks[place] = true;
        Ok(())
    }
}
