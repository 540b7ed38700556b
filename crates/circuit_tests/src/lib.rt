//! Tests of circuits and of what is made of them: parts, clauses, shadow circuits, proofs, verdicts, and of refusals.
//!
//! They stand over the public calls alone, in a crate of their own, so that no library is proved twice. A test
//! asserts small answers, and one function (`questions::asked`) has each circuit: so the proof of each is short.
#![tactic(auto)]

#[cfg(test)]
mod circuits;
#[cfg(test)]
mod encodings;
#[cfg(test)]
mod literals;
#[cfg(test)]
mod questions;
#[cfg(test)]
mod refusals;
#[cfg(test)]
mod shadow_circuits;
#[cfg(test)]
mod verdicts;
#[cfg(test)]
mod worked_proofs;
