//! Circuits that are made of circuits.
//!
//! - `extracted` is the circuit of one property, `shadow_file` and `rounds_file` those of the shadow circuit and of the one that counts
//!   rounds, with names. `add_name` adds one.
//! - `always_bad`, `bad_behind` and `no_bad` are those of `cover_circuits`.
//! - `relevant_clauses` are those over latches on which a property rests.
#![tactic(auto)]

mod counting;
mod error;
mod extracting;
mod relevant;
mod shadow;
mod symbols;

pub use counting::rounds_file;
pub use cover_circuits::{always_bad, bad_behind, no_bad};
pub use error::TransformError;
pub use extracting::extracted;
pub use relevant::relevant_clauses;
pub use shadow::shadow_file;
pub use symbols::add_name;
