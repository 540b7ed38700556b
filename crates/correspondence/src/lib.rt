//! Register correspondence (van Eijk 2000): latches that are equal, opposite or constant in every state that is
//! reached while the constraints are kept.
//!
//! - `correspond` answers clauses over such latches, two for a pair and one for a constant, that are inductive, and
//!   whether they are an invariant that excludes the bad literal.
//! - `Corresponding` is an engine that asks for them first. Where they don't exclude the bad literal, it asks another
//!   engine about the circuit in which equal latches are merged (`merged`), and gives its finding back: a run as it is,
//!   an invariant behind the clauses.
//!
//! Simulation splits the latches into classes (`latch_classes`). Then come rounds of induction: a solver has the circuit at one time
//! and the clauses of all classes, and is asked of each clause whether it holds after a step. A state in which it
//! does not splits classes. A round that splits none ends this. Where the classes of a round don't exclude the bad literal,
//! no later ones do: then the rounds go on for what can be merged, with a part of what is left of the budget.
//!
//! Before a round asks, SAT sweeping (`sweep`) has the solver learn which signals are equal at one time. That each clause holds
//! at first is seen by the resets; that it holds after a step, and that all exclude the bad literal, by the last round's answers.
//!
//! A round costs a pass and a query for each clause, which takes what the solver spends.
#![tactic(auto)]

mod corresponding;
mod equal_latches;
mod equalities;
mod finding;
mod merging;
mod rounds;
mod sweeping;

pub use corresponding::Corresponding;
pub use equal_latches::Correspondence;
pub use finding::correspond;
