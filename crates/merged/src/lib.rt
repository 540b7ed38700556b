//! Circuits in which latches are read as others that are equal to them, or as constants.
//!
//! `merge` answers the circuit in which each read of a latch, of which clauses say that it is equal to another one or
//! constant, is a read of that. The latches stay, with their next literals: what nothing reads any more is for an
//! engine's cone to leave out. A pair of latches is said to be equal by two clauses of two literals, one behind the other,
//! of which the second has the first one's negations in the other order; a clause of one literal says that a latch is
//! constant.
//!
//! Where the clauses are inductive, both circuits have the same runs that keep the constraints. So a run that shows the bad
//! literal is one of the circuit, and an invariant is one of it behind the clauses.
//!
//! It costs a pass over the clauses and one over the circuit.
#![tactic(auto)]

mod equal;
mod merging;
mod reading;
mod table;

pub use merging::merge;
