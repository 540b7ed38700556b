//! Circuits made smaller by structural hashing.
//!
//! `shrink` answers a circuit with the same inputs, latches and properties by position, in which no
//! gate has a constant or one variable twice on its right and no two gates have the same right
//! sides. For equal states and inputs every literal that the circuit shows has the same value. The
//! result has the numbering of the binary layout. `ready` makes a file whose circuit has that
//! numbering: where it has not, the circuit is shrunk, and names and comment stay.
//!
//! One pass over the gates, each after those that it reads, with a table of the pairs of right
//! sides that were made.
#![tactic(auto)]

mod carrying;
mod hashing;
mod making;
mod numbering;
mod ordered;
mod renaming;
mod shrink_error;

pub use hashing::shrink;
pub use ordered::ready;
pub use shrink_error::ShrinkError;
