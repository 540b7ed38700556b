//! Miters: a circuit made of two, whose bad literal is set where they differ.
//!
//! `miter_of` pairs inputs, outputs and bad literals by their names, where both files name all of them alike, and else by their
//! positions. No contract says what the circuit is.
#![tactic(auto)]

mod matching;
mod mitering;

pub use mitering::miter_of;
