//! Tests of the solvers and of the engines.
//!
//! They stand over the public calls alone, in a crate of their own, so that no library is proved twice.
#![tactic(auto)]

#[cfg(test)]
mod asked_again;
#[cfg(test)]
mod bounded;
#[cfg(test)]
mod equal_registers;
#[cfg(test)]
mod inductive;
#[cfg(test)]
mod literals;
#[cfg(test)]
mod random_engine;
#[cfg(test)]
mod solvers;
