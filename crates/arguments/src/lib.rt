//! The command line of `aigmc`: its commands, their words, and what they ask for.
//!
//! A crate of its own, so that it is proved beside the engines and not after them, and so that the
//! program itself handles plain values.
#![tactic(auto)]

mod adopting;
mod grammar;
mod layouts;
mod request;
mod usage_error;
mod witnessing;
mod words;

pub use adopting::{Adoption, Claim, Extraction, Recertification, Shadow, WitnessCircuit};
pub use layouts::AskedLayout;
pub use request::{Asked, EngineKind, Kept, Request, Search, parse};
pub use usage_error::UsageError;
pub use witnessing::Counterexample;
