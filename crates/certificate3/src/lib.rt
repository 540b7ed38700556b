//! The text of certificates of version 3: clauses over any literals of a circuit that is extended.
//!
//! - `SpellsCertificate` (`specs/Texts.antt`) says which text spells which certificate. A
//!   certificate has one text at most.
//! - `certificate_at` (`specs/Reading.antt`) is how a text is read, and `read_law` says that it reads
//!   just the certificates that are spelled.
//! - The lines are read by `certificate::Reader`, one after the other: those of this version by its
//!   `line`, of the kinds that stand here. No memory is taken ahead by a number that the text states.
//! - `AnyFirstLine` is the first line of any version, by which a reader goes on (`certified_law`).
//! - `write` puts the text of a certificate that has one, and nothing of any other.
#![tactic(auto)]

mod claim;
mod evidence;
mod first_line;
mod kinds;
mod laws;
mod limits;
mod sizes;
mod streaming;
mod write_error;
mod writing;

pub use claim::Claim;
pub use evidence::{Evidence, Shown};
pub use first_line::{AnyFirstLine, Format};
pub use kinds::{ClaimLine, FirstLine, GateLine, HintsLine, LatchLine, SizesLine};
pub use laws::{certified_law, read_law};
pub use sizes::Sizes;
pub use streaming::{
    read_gates, read_latches, skip_clauses, skip_evidence, skip_hints, skip_later, skip_proofs,
    skip_shown,
};
pub use write_error::WriteError;
pub use writing::write;
