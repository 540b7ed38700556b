//! What is found of equal latches.

use base::Seq;
use graph::Lit;

/// What is found of latches that are equal: clauses that hold in every first state, and after each step from a state that
/// satisfies all of them and keeps the constraints. Each says that a latch keeps its first value, or that it does where
/// another one does.
#[derive(Drop)]
pub enum Correspondence {
    /// Such clauses that exclude the bad literal.
    Invariant(Seq<Seq<Lit>>),
    /// Such clauses, which don't exclude it as far as is known.
    Inductive(Seq<Seq<Lit>>),
}
