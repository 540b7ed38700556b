//! What an engine finds.

use base::Seq;
use graph::Lit;

/// Why nothing is known.
#[derive(Clone, Copy, PartialEq, Eq)]
pub enum Reason {
    /// The budget is exhausted.
    Budget,
    /// No run of at most one time more than this that keeps the constraints sets the bad literal.
    Depth(u32),
    /// No engine had evidence.
    NoEvidence,
}

/// What an engine finds of a circuit with one bad literal.
#[derive(Drop)]
pub enum Finding {
    /// Clauses over literals of latches, which hold in every state that is reached and exclude the
    /// bad literal.
    Invariant(Seq<Seq<Lit>>),
    /// A run that keeps the constraints and sets the bad literal at its last time.
    Run {
        /// the first values of the latches, in their order
        initial: Seq<bool>,
        /// the values of the inputs, in their order, for each time
        inputs: Seq<Seq<bool>>,
    },
    /// Nothing is known.
    Unknown(Reason),
}
