//! What a solver answers.

/// What a solver answers.
#[derive(Drop)]
pub enum Answer {
    /// Values that satisfy the clauses and the assumptions: place `v` is the variable `v`, and
    /// place 0 is false.
    Model(Vec<bool>),
    /// Part of the assumptions. Nothing satisfies it together with the clauses.
    Core(Vec<i32>),
    /// The budget is exhausted.
    Spent,
}
