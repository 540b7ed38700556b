//! Shorter derivations of the same clauses from those of a formula, by lines with hints. Nothing is known of a circuit here.
//!
//! - `Numbering` gives the lines of a solver's log the ids behind the formula's clauses, without gaps.
//! - `Known` has of a clause's hints those that do something.
//! - `shorter_derived` and `shorter_refutation` answer fewer hints, lines in place of what many chains of hints have in common,
//!   and no lines on which one other clause rests.
//!
//! No contract says that what is answered derives the clauses: `checker3` judges it before it is an answer (`certify3`).
#![tactic(auto)]

mod derivation;
mod hinting;
mod inlining;
mod numbering;
mod occurrences;
mod pairing;
mod renumbering;
mod resting;
mod shortening;

pub use hinting::Known;
pub use numbering::Numbering;
pub use shortening::{Derived, shorter_derived, shorter_refutation};
