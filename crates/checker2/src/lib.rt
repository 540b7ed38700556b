//! The judge of certificates of versions 1 and 2: clauses over the latches, and a case for each.
//!
//! - `check` answers Ok exactly where a certificate is accepted for a circuit, out of memory
//!   aside. Then no run of the circuit that keeps the constraints sets the bad literal, or the output
//!   that is taken as one, at any time or, for a justice property, holds more rounds of it than the
//!   circuit has states. A refusal has the first cause.
//! - `check_earlier` does so behind the first line of a certificate's text, while it is read, for a
//!   reader of any version (`certificate_text`): after a fault of the check the rest is only read, since
//!   a fault of the text, anywhere in it, goes first.
//!
//! A certificate of version 2 has lemmas: lines that are checked once, and whose clauses the step
//! cases and the bad case then begin with, beside those of the circuit and the invariant. The initial
//! cases have none of them.
//!
//! Nothing is assumed of whoever wrote the evidence. A certificate costs its own length and one
//! circuit: all sections of a kind are checked over one formula, and what a section adds is forgotten
//! after it.
#![tactic(auto)]

mod acceptance;
mod case_text;
mod certificate_text;
mod check_error;
mod clause_error;
mod invariant;
mod section_text;
mod sections;

pub use acceptance::check;
pub use certificate_text::{Outcome, check_earlier};
pub use check_error::CheckError;
pub use clause_error::ClauseError;
pub use invariant::check_clauses;
