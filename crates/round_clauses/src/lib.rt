//! Clauses of circuits that count rounds, and fewer or shorter ones in place of an invariant's.
//!
//! - `order_of_counts` are clauses that say the order of the latches that count, which an engine may try first.
//! - `spared` leaves out what this order says.
//! - `strengthened` leaves out literals that a clause does not need, `needed` clauses that the others do not.
//! - `with_own_gates` and `with_gates` put one literal in place of two, by the circuit's gates or by new ones (`Shared`).
//!
//! No contract says that what is answered is an invariant: `certify3` proves it anew before it is an answer (`rounds`).
#![tactic(auto)]

mod sharing;
mod sparing;
mod strengthening;

pub use sharing::{Shared, with_gates, with_own_gates};
pub use sparing::{order_of_counts, spared};
pub use strengthening::{needed, strengthened};
