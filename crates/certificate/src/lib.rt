//! Certificates: an invariant of a circuit, and a proof for each of its cases.
//!
//! A certificate names a property, gives clauses over the circuit's latches, and for each case of
//! that invariant a section: a proof that nothing satisfies the case. Whether the proofs are
//! accepted is the checker's matter; this crate has the value and its text, version 1 or 2. Version
//! 2 has one section more, `l`, with lemmas that the step cases and the bad case may use.
//!
//! - `SpellsCertificate` (`specs/Texts.antt`) says which text spells which certificate. A
//!   certificate has one text at most.
//! - `read` answers Ok exactly on the texts that spell one, with that certificate; only want of
//!   memory can keep it from one. A text that spells none is refused at its first fault, by the
//!   byte.
//! - `Reader` reads the same texts line by line, as a source gives their bytes, however it cuts them.
//!   `Reader::line` reads lines of other kinds, for texts that have some of these lines. A refusal is
//!   remembered, and answered again.
//! - `write` puts the text of a certificate that has one, and nothing of any other. `put_clause` and
//!   the like put some of its lines, for texts that have them.
#![tactic(auto)]

mod cert_error;
mod cert_fault;
mod cert_write_error;
mod certificate;
mod head;
mod kinds;
mod limits;
mod reader;
mod reader_error;
mod reading;
mod sections;
mod streaming;
mod writing;

pub use cert_error::CertError;
pub use cert_fault::{CertFault, IN_LINE, IN_PROPERTY, IN_VERSION};
pub use cert_write_error::CertWriteError;
pub use certificate::Certificate;
pub use head::{GREATEST, Version};
pub use kinds::SectionKind;
pub use reader::Reader;
pub use reader_error::ReaderError;
pub use reading::read;
pub use streaming::{read_clauses, skip_lines, skip_section, skip_sections};
pub use writing::{put_clause, put_number, put_property, put_section, write};
