//! What a witness circuit adds to the model.
//!
//! - `addition_of` names its variables: by literals of the model, or new ones of latches and gates.
//! - `Wanted` are clauses that are true exactly where its bad literal is 0 and its constraints are 1 (`AreWanted`).
//! - `trim` leaves out what clauses do not need (`IsTrimmed`).
#![tactic(auto)]

mod agreeing;
mod arranging;
mod conjunctions;
mod naming;
mod places;
mod sizes;
mod spreading;
mod trimming;
mod wanted;

pub use naming::{Addition, addition_of};
pub use trimming::{Trimmed, trim};
pub use wanted::Wanted;
