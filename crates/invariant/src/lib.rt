//! The clauses of an invariant, as other engines hand them over.
//!
//! - `read` answers the clauses that a text spells: a line for each, with the literals of the circuit's
//!   latches; or a certificate, of which the clauses alone are taken. It answers Ok exactly on the texts that spell
//!   clauses so (`SpellsInvariant`), with those; only refused memory can keep it from them. Every other
//!   text is refused at its first fault, by the byte.
//! - `read_pla` answers the clauses of the cubes of ABC's PLA, over the latches of a circuit. It answers Ok exactly on the texts that are such
//!   a PLA (`SpellsPla`), with those.
//!
//! Nothing is believed of the clauses: whether they are an inductive invariant of a circuit, and over its latches, is
//! for `certify::certify` to find out.
#![tactic(auto)]

mod columns;
mod invariant_error;
mod invariant_fault;
mod lines;
mod names;
mod pla;
mod reading;
mod rows;

pub use invariant_error::InvariantError;
pub use pla::read_pla;
pub use reading::read;
