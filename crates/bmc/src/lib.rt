//! Bounded search, which is bounded model checking (Biere, Cimatti, Clarke, Zhu 1999).
//!
//! `Bmc` asks a solver for runs of 0 steps, of 1 step, and so on up to a depth, that keep the
//! constraints and set the bad literal at their last time. So the first run that it finds has the
//! least number of times; where it finds none, no run of up to the depth sets the bad literal.
//!
//! The bad literal of each time is what is assumed. The times are encoded one after the other (`unrolling`): the cone of
//! the bad literal and the constraints alone. What satisfies the clauses is completed to a run, by proof. Any solver that
//! keeps to `Sat` will do.
#![tactic(auto)]

mod reading;
mod search;

pub use search::Bmc;
