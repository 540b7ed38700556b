//! Signatures of variables: their values in random runs, by which functions may be equal (Kuehlmann 2004; Mishchenko, Chatterjee,
//! Brayton, Een 2006).
//!
//! - `Function` is what a variable is of at most four literals, by a truth table, or nothing.
//! - `Runs` are the values of all variables in 256 runs.
//! - `Leaders` are the first variables of the classes of those with equal signatures, by a number for each signature.
//! - `Near` lists the variables near two others.
//! - `Signatures` has all of these. It pairs a variable with the leader of its class, names the variables near both for a question
//!   about them, and has counterexamples split the classes: 16 of these, each with 15 runs near it, are 256 runs more. A leader
//!   with which three pairs in a row were not shown equal is not paired any more: most models of a part are no counterexamples,
//!   since the part is cut off, and the next question about the class ends likewise.
//!
//! Nothing of this is trusted: who asks a solver about a pair believes the solver alone. Four variables in 256 runs cost a step.
#![tactic(auto)]

mod function;
mod lanes;
mod leaders;
mod near;
mod runs;
mod signatures;

pub use signatures::Signatures;
