//! Random runs of a circuit, 256 at once, from any states.
//!
//! - `opened` is the circuit without its resets, which begins in any state.
//! - `Runs` are 256 runs of it from given states. A run is in until it breaks a constraint.
//! - `uniform` and `rare` draw a value for each run, and `draw_biases` and `draw_row` the inputs of a step.
//!
//! A step costs a pass over the gates and latches, and takes no memory.
#![tactic(auto)]

mod drawing;
mod opening;
mod runs;

pub use drawing::{Bias, draw_biases, draw_row, rare, uniform};
pub use opening::opened;
pub use runs::Runs;
