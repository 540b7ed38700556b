//! Windows of induction over several times (k-induction; Sheeran, Singh, Stålmarck 2000), and clauses of them over latches that say
//! what the circuit was like before.
//!
//! `find_clauses` looks for the shortest window (`window_search`), and answers clauses of what its refutations rest on, each for as
//! many times as it is needed at. They are over the circuit with a latch for each variable and delay of it, and one that says
//! whether there was such a time. Nothing rests on them: whoever wants to believe them proves them (`certify3`).
#![tactic(auto)]

mod clauses;
mod finding;
mod history;

pub use finding::{Extended, Found, find_clauses};
