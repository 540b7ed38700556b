//! Which latches of two circuits are equal in all runs, by the clauses of a certificate of their miter.
//!
//! `latch_map` answers a line for each latch: the latch of the other circuit, or the constant, that it is equal or opposite to
//! at each time of each run that keeps the constraints. Two clauses of two literals of which one has the negations of the other's say that
//! latches are equal, a clause of one literal that one is constant; and what is equal to the same is equal. Nothing else
//! of the certificate counts, so a latch without a line may still be equal to another.
//!
//! It costs a look-up by hash for each clause, and a pass over the latches.
#![tactic(auto)]

mod equality;
mod mapping;
mod noting;
mod table;

pub use mapping::{Line, latch_map};
