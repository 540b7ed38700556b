//! Proofs that clauses over any literals of a circuit are an inductive invariant that excludes a literal.
//!
//! `prove` asks for three proofs: that the clauses hold at a first time, that they hold at a time
//! behind one at which they hold, and that they exclude the literal. For each a `cdcl::Refuter` loads one
//! formula, and asks about one clause after the other: what is learned for one serves the next. The
//! lines on which no clause rests are left out. With `Effort::Thorough` shorter proofs of the same clauses are made of these
//! (`lrat_trim`).
//!
//! That the clauses are no invariant is answered only with values that satisfy one of the cases. No contract says that the
//! proofs are accepted: `checker3` judges them before they are an answer (`certify3`).
#![tactic(auto)]

mod cone;
mod counterexample;
mod effort;
mod formulas;
mod near;
mod prove_error;
mod proving;
mod ranges;
mod shortening;
mod showing;
mod subject;
mod sweeping;
mod translating;

pub use counterexample::{Case, Counterexample};
pub use effort::Effort;
pub use prove_error::ProveError;
pub use proving::{Proofs, prove};
pub use ranges::is_over;
pub use subject::Subject;
