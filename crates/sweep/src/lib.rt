//! SAT sweeping (Kuehlmann and Krohm 1997; Mishchenko, Chatterjee, Jiang, Brayton 2005): signals of a circuit that may be equal,
//! and the questions by which a solver learns it.
//!
//! - `Sweep` has the signals of a circuit in which latches are equal that clauses say are so, each gate behind those that it
//!   reads. Each is paired with an earlier one: a gate with one that reads signals that were shown equal (structural hashing),
//!   else a signal with one that has equal or opposite values in random states. It asks of each pair, in both directions,
//!   whether the signals can differ, by their own two gates or by some hundred near them.
//! - `Near` is the part of a circuit that a question is about, and `ask` asks about it before all of the circuit.
//!
//! Nothing of this is trusted: who asks a solver these questions has it learn clauses, which make later questions easy. All
//! pairs cost a pass over the circuit for each 256 states.
#![tactic(auto)]

mod asking;
mod equal_latches;
mod equal_signals;
mod near;
mod pairs;
mod signals;
mod sweep;
mod unit;

pub use asking::ask;
pub use near::Near;
pub use sweep::{Question, STEPS, Sweep};
