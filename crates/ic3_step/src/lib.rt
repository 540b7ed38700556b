//! One time of a circuit in an incremental solver, with guarded clauses over its state.
//!
//! - `Transition` has the circuit's gates and constraints, and clauses over the latches that were
//!   added, each of which holds where its guard is assumed. It is asked for a time in a state where
//!   the clauses of some guards hold, at which some literals of the circuit are true: it answers
//!   one (`Reply::Found`), or which of the literals exclude each other there (`Reply::Core`).
//! - `holds_after` asks whether a clause over the latches holds after each step from such states,
//!   and finds a part of it that does (Bradley 2011).
//!
//! Clauses of solvers stay inside: the contracts speak of states and times. A solver has the
//! constraints, and of the gates only those that some query needed: each query adds first what
//! its literals are made of and the solver lacks (`cones`). So a query costs its guards and
//! literals, what it adds, the time that it answers, and what the solver does; no pass over the
//! circuit.
#![tactic(auto)]

mod asking;
mod assignment;
mod cone;
mod costs;
mod counts;
mod encoding;
mod lookup;
mod order;
mod part_gates;
mod query;
mod reading;
mod reply;
mod step;
mod transition;

pub use assignment::Assignment;
pub use counts::Counted;
pub use reply::Reply;
pub use step::{Consecution, denials, holds_after};
pub use transition::Transition;
