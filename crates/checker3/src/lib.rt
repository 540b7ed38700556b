//! Certificates of version 3, checked while they are read.
//!
//! - `check_source` reads the certificate that a source's bytes spell, and answers what it claims,
//!   and the first cause where it is not accepted for a circuit (`IsJudged`, `specs/Judged.antt`).
//!   Where there is none, the certificate is accepted, and the circuit upholds the property; where
//!   there is one, it is not (`refused_law`). `check_behind` does so behind the first line, for a reader
//!   of any version.
//! - Lines and hints are checked one after the other, by a refuter for each of the three sections.
//!   Beside the circuit it holds the extended one, the clauses, those of one section, and one line.
#![tactic(auto)]

mod check_error;
mod clauses;
mod evidence;
mod growing;
mod laws;
mod lines;
mod sections;
mod text;

pub use check_error::CheckError;
pub use laws::refused_law;
pub use text::{Outcome, check_behind, check_source};
