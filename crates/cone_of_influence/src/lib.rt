//! The cone of influence of a bad literal: the circuit of the variables on which it and the constraints rest.
//!
//! - `reduce` marks what the bad literal and the constraints rest on at any time: of a gate its right sides, of a latch its
//!   next literal (`sequential_cones`). It answers the circuit of the marked inputs, latches and gates, whose variables are numbered
//!   in increasing order, and the tables by which a finding is carried back. Where all variables are marked there is none.
//! - `ConeOfInfluence` is an engine that asks another one about the reduced circuit. A run gets what latches and inputs that
//!   are left out begin with, an invariant the circuit's variables; an unknown is that of the other engine.
//!
//! A run of the circuit that keeps the constraints, at the variables that are kept, is one of the reduced circuit. So what is
//! found of the reduced circuit is so of the circuit.
//!
//! It costs the circuit, and then what the other engine takes for the reduced one.
#![tactic(auto)]

mod asking;
mod carrying;
mod lists;
mod numbering;
mod reducing;
mod tables;

pub use asking::ConeOfInfluence;
pub use reducing::{Reduced, reduce};
pub use tables::Tables;
