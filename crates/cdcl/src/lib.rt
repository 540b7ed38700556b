//! A conflict-driven solver.
//!
//! `Cdcl` keeps to `solver`'s `Sat`: a model satisfies the clauses and the assumptions, a core is
//! part of the assumptions that nothing satisfies with the clauses, and `Spent` is answered only
//! where the budget is exhausted.
//!
//! `Refuter` gives proofs of a formula with units that nothing satisfies, for one list of units after
//! the other, and `refute` one of a formula alone. lrat's `refutes` accepts them. Where many proofs share
//! lines, `Refuter::show` finds what shows each, `Refuter::lemmas` the lines that they share, and `section` what
//! is then left of each, one line.
//!
//! All of that is `cdcl_kernel`'s and `cdcl_log`'s: the kernel keeps the clauses, checks each clause before it is
//! learned, looks through a model and checks a core before either is answered, and the log has a line
//! for each clause that was learned. `cdcl_search` only steers them, and no proof rests on it.
#![tactic(auto)]

mod cdcl;
mod refutation;
mod refuted;
mod refuter;

pub use cdcl::Cdcl;
pub use cdcl_log::{Closing, Lemmas, Shown, section};
pub use refutation::refute;
pub use refuted::Refuted;
pub use refuter::Refuter;
