//! How far a search has come.

use base::Budget;

/// What is told how far a search has come, with the budget as it is then. It answers nothing, and no search depends
/// on it.
pub trait Progress: Drop {
    /// IC3 opened a frame, the first of them frame 0: its number, and how many clauses the frames have.
    fn frame_opened(&mut self, frame: u32, clauses: usize, budget: &Budget);

    /// A bounded search begins with the runs of this number of steps: how many variables the clauses of the runs before have.
    fn depth_begun(&mut self, steps: u32, variables: u32, budget: &Budget);

    /// IC3 asks about the bad literal in the last frame, or takes an obligation from the queue.
    fn query_asked(&mut self, budget: &Budget);

    /// Register correspondence begins a round of induction, the first of them round 1: with so many clauses that say which
    /// latches are equal.
    fn round_begun(&mut self, round: u64, clauses: usize, budget: &Budget);
}

/// Progress that is not shown.
#[derive(Drop)]
pub struct Silent;

impl Progress for Silent {
    fn frame_opened(&mut self, _frame: u32, _clauses: usize, _budget: &Budget) {}

    fn depth_begun(&mut self, _steps: u32, _variables: u32, _budget: &Budget) {}

    fn query_asked(&mut self, _budget: &Budget) {}

    fn round_begun(&mut self, _round: u64, _clauses: usize, _budget: &Budget) {}
}
