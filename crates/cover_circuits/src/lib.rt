//! Circuits with a bad literal that says how long a run is.
//!
//! `always_bad` is violated by each run that keeps the constraints, and `bad_behind` by each of more than so many steps.
//! `no_bad` is a property that a circuit does not have.
#![tactic(auto)]

mod covering;

pub use covering::{always_bad, bad_behind, no_bad};
