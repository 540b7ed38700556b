//! The IC3 engine (Bradley 2011; Een, Mishchenko, Brayton 2011): invariants by induction, one
//! clause at a time.
//!
//! `Ic3` keeps frames (`ic3_frames`), of which the first is the initial states, and asks a solver about
//! one step from them (`ic3_step`). Four laws hold of the frames throughout: each clause holds at
//! first; each frame is within the next, by how its clauses are kept; a step from a frame ends in
//! the next; and all frames but the last exclude the bad literal. They are the fields of
//! `AreFrames`, which stands in `IsSound`, and every call keeps that.
//!
//! A time of the last frame at which the bad literal is true is blocked, with what leads to it (`ic3_blocking`). Where the
//! last frame excludes the bad literal, the next is opened, and clauses that hold one step longer are propagated to it
//! (`ic3_propagation`). A frame that is the same as the next is an invariant, of which the clauses that the proof needs
//! are kept (`inductive_subset`).
//!
//! Candidates are clauses that are tried first. Once the bad literal is excluded from the initial states, each
//! that holds after each step from those is a clause of the first frame, and is propagated like any other.
#![tactic(auto)]

mod ic3;
mod search;

pub use ic3::Ic3;
