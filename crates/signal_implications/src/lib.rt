//! Signals of a circuit of which one may be true wherever another one is, at every time.
//!
//! - `Implication` is one of them: its clause says that the first signal is false, or the second one true.
//! - `Samples` are values of signals in simulated runs.
//! - `Implications` are those that no sample violates, as many as a limit allows.
//! - `near` lists the literals of which a literal is made, the nearest first.
//!
//! Nothing that these answer is believed. What is found with them is clauses over the circuit, which are proved anew and judged.
#![tactic(auto)]

mod candidates;
mod implication;
mod implications;
mod marks;
mod nearby;
mod samples;

pub use implication::Implication;
pub use implications::Implications;
pub use nearby::near;
pub use samples::Samples;
