//! What a refutation comes to.

use lrat::Proof;

/// What a refutation comes to.
#[derive(Drop)]
pub enum Refuted {
    /// an accepted proof that nothing satisfies the formula
    Proof(Proof),
    /// values that satisfy the formula: index `v` is the variable `v`, and index 0 is false
    Model(Vec<bool>),
    /// the budget is exhausted
    Spent,
}
