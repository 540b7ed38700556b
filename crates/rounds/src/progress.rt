//! How far the counting has come.

use base::Budget;

/// What is told how far the counting has come, with the budget as it is then. It answers nothing, and no answer depends on it.
pub trait RoundsProgress: Drop {
    /// The engine is asked next whether a run holds more rounds than this number.
    fn rounds_begun(&mut self, rounds: u32, budget: &Budget);
}
