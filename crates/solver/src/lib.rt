//! Solvers of clauses.
//!
//! - `Sat` is what every solver keeps to: a model satisfies the clauses that were added since the
//!   last `reset` and the assumptions; a core is part of the assumptions, and nothing satisfies
//!   it together with the clauses; `Spent` is answered only where the budget is exhausted.
//!   A refusal, for lack of memory or of ids, leaves the clauses as they were.
//! - `PartSat` is what a solver keeps to that answers a question about part of a circuit at the cost of that part.
//! - `Full` is the witness that all ids of clauses are taken, and `Taken` makes it.
//! - `Statistics` is what a solver counts.
//! - `Plain` is a solver by backtracking, short rather than fast.
//!
//! Literals are integers: `n` is the variable `n`, and `-n` says that it is false. What is said
//! of all assignments is said of all tests that tell which variables are true.
#![tactic(auto)]

mod answer;
mod free;
mod full;
mod look;
mod part;
mod part_sat;
mod plain;
mod sat;
mod sat_error;
mod search;
mod statistics;
mod values;

pub use answer::Answer;
pub use full::{Full, Taken};
pub use part::{AndGate, Part};
pub use part_sat::PartSat;
pub use plain::Plain;
pub use sat::Sat;
pub use sat_error::SatError;
pub use statistics::{Statistics, count};
pub use values::{are_true, fits_gates, is_true};
