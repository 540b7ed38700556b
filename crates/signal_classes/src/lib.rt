//! Signals of a circuit that may be equal at every time, up to a negation (van Eijk 2000).
//!
//! - `Pair` is a circuit at two times, one step apart, as one circuit. `Signal` is a literal with what it is one step later.
//! - `Classes` are signals that may be equal: simulated runs split them.
//! - `Reduced` looks at the gates of a pair as what they are known to be equal to (structural hashing).
//!
//! Nothing that these answer is believed. What is found with them is clauses over the circuit, which are proved anew and judged.
#![tactic(auto)]

mod classes;
mod numbering;
mod pairing;
mod reduced;
mod signal;

pub use classes::Classes;
pub use numbering::unit;
pub use pairing::Pair;
pub use reduced::Reduced;
pub use signal::{Equal, Signal, negated_as};
