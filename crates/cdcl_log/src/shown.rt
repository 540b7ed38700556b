//! What a search that is to be written down later comes to.

use base::Seq;

/// What shows that nothing satisfies a formula with some units, beside the log of the refuter that
/// found it: small, since nothing of the log is copied.
#[derive(Drop)]
pub struct Closing {
    /// the indices of units, whose ids a section's line hints first, in this order
    pub denied: Seq<u64>,
    /// the ids in the log of the clauses that then show the conflict, in this order
    pub hints: Seq<i64>,
}

/// What a search comes to.
#[derive(Drop)]
pub enum Shown {
    /// what shows that nothing satisfies the formula with the units
    Closing(Closing),
    /// values that satisfy both: index `v` is the variable `v`, and index 0 is false
    Model(Vec<bool>),
    /// the budget is exhausted
    Spent,
}
