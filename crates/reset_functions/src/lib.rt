//! Circuits whose latches begin with the values of functions: the reset of a latch is then any literal, over inputs, gates
//! and other latches, and no reset depends on itself.
//!
//! - `read` takes a text with such latches apart: into a circuit that has the latch's own literal in place of each such
//!   reset, and those resets.
//! - `resets_as_gates` makes a circuit of both that has no such reset, and each run of which is one with them (`RunsAs`).
#![tactic(auto)]

mod latch_lines;
mod making;
mod plain;
mod reading;

pub use making::resets_as_gates;
pub use reading::{Begun, read};
