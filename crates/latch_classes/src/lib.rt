//! Classes of latches that may be equal, opposite or constant, and their splitting by simulation.
//!
//! Each latch that has a reset is taken as it is or negated, so that it begins with false. At first all are one class with the
//! constant (`Classes`). 256 runs at once split the classes, from the first states (`Search::simulate`) and from random states in
//! which the latches of each class are equal (`Search::shake`). A situation that a solver found is simulated with its neighbours,
//! and again from the state that split a class last, which splits many classes at once (`Search::chase`).
//!
//! A simulated step costs a pass over the gates and latches, and takes one step of the budget for 64 of them and one more. No
//! contract says which latches are in a class: `correspondence` asks a solver.
#![tactic(auto)]

mod classes;
mod search;

pub use classes::Classes;
pub use search::{Search, Situation};
