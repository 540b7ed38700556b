//! What IC3 keeps of a circuit: frames (Bradley 2011; Een, Mishchenko, Brayton 2011).
//!
//! `Frames` are clauses over the latches, each with the level up to which it holds: frame k is the
//! states in which the clauses of level k and above hold. Every run of k steps that keeps the
//! constraints ends in frame k. Where no clause ends at a level, the frame is the same as the next,
//! and its clauses are an invariant.
//!
//! No solver is asked here: the contracts say what a solver has to have answered before. Which latches are active or often
//! used is kept beside the clauses: it steers a search, and no contract speaks of it. The clauses that could not be pushed are
//! kept too: a step leads to where each of them is false.
#![tactic(auto)]

mod activities;
mod failed_pushes;
mod frames;
mod invariant;
mod marks;
mod resets;
mod signature;
mod subsumption;
mod uses;

pub use frames::{Entry, Frames};
