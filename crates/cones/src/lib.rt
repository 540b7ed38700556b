//! Cones and justifications: parts of a circuit that say what the whole would.
//!
//! - A cone of literals has, with each gate, both right sides of it (the cone of influence). The
//!   clauses of a cone's gates answer a question about its literals as all clauses would
//!   (`clause_laws`), and `grow_cone` lists the gates that a question needs beyond earlier ones.
//! - A justification of literals at one time has, with each gate, what gives it its value there: both
//!   right sides of a true gate, one false right side of a false one. The values of its latches and
//!   inputs decide all of it (`value_laws`). So its latches are a cube of states that lead on in the
//!   same way (Een, Mishchenko, Brayton 2011).
//!
//! Both are marks over the circuit's variables, which `extend` closes by a work list. Nothing costs a
//! pass over the circuit but the tables and the marks themselves.
#![tactic(auto)]

mod gates;
mod growth;
mod laws;
mod reach;
mod table;

pub use gates::{gates_of, unmark};
pub use growth::grow_cone;
pub use laws::{clause_laws, value_laws};
pub use reach::{Reach, extend};
pub use table::GateTable;
