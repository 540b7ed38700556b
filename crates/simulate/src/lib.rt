//! Replaying a circuit: its values, time after time, under given inputs.
//!
//! - `Replay::new` answers `Ok` exactly where the initial state gives each latch that is reset to 0
//!   or to 1 that value; otherwise the first latch that is against its reset is reported.
//! - After each `step` every `value` is that of the one valuation that agrees with the circuit, the
//!   state and the inputs of that time, and `state` is the state of the next time.
//!
//! `Wide` is the same for 256 runs at once, a bit each: each run is what a `Replay` of its own would be.
//!
//! A step touches each gate once and takes no memory.
#![tactic(auto)]

mod evaluation;
mod initial;
pub mod lanes;
mod replay;
mod replay_error;
mod wide;

pub use replay::Replay;
pub use replay_error::ReplayError;
pub use wide::Wide;
