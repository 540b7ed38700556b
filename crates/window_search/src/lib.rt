//! The search for a window of induction over several times, and what its refutations rest on.
//!
//! A window is so many times one behind the other, none of which sets the bad literal, that the next time doesn't set it either. Times
//! are counted by their delay: 0 is the last one. So a longer window has one time more, and the solver keeps what it has.
//!
//! - `Frames` has what the bad literal and the constraints rest on (`Fact`), as clauses of each time have it.
//! - `find_window` looks for the shortest window. That a budget is exhausted it says only where it is.
//! - `Resting` notes the facts that refutations of a window and of the first times need, and how long ago.
//!
//! No contract says that a window is one: whoever wants to believe it proves it (`certify3`).
#![tactic(auto)]

mod fact;
mod frames;
mod resting;
mod window;

pub use fact::{Fact, When, negated};
pub use frames::Frames;
pub use resting::{Noted, Resting};
pub use window::{Window, find_window};
