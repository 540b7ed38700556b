//! Rounds of induction over a circuit's signals (van Eijk 2000).
//!
//! - `find_equal_signals` looks for classes of latches, gates, inputs and constants that are equal up to a negation: by
//!   simulation first, and then by induction over two times. Where the classes exclude a literal, it answers clauses that say
//!   so. Where they don't, it looks for signals that are true wherever others are, too. It is not believed: whoever asks proves
//!   the clauses.
#![tactic(auto)]

mod asking;
mod finding;
mod implied;
mod parts;
mod search;

pub use finding::{Found, find_equal_signals};
