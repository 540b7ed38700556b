//! States of a circuit, and clauses over them (Bradley 2011).
//!
//! A clause holds in a state where one of its literals is set there (`Holds`). No function and no solver is here: `ic3_frames`
//! keeps such clauses, `ic3_step` asks about them.
#![tactic(auto)]

mod state_lit;

pub use state_lit::StateLit;
