//! Circuits as binary texts (AIGER 1.9).
//!
//! `read` answers the `AigerFile` that a text spells: a header of five to nine counts, a line for
//! each latch without its literal, the lists of used literals as in the ASCII layout, two
//! differences for each gate, a line for each symbol, and a comment. Inputs have no lines.
//!
//! - `SpellsBinary` (`specs/Binary.antt`) says which texts spell which files, as a relation between
//!   a whole text and a file. `read` answers `Ok` exactly on the texts that spell one, with that
//!   file; only running out of memory can keep it from one.
//! - A text that spells none is refused at its first fault, by the byte. There is one form for each
//!   difference. What is read is always a well-formed circuit, so nothing is refused behind the last
//!   byte.
//!
//! One pass. A list grows item by item, whatever count the header states; the inputs, of which
//! nothing is written, are made when all else is read.
//!
//! `write` puts the shortest text of a file to a `Sink` (`written_text` in `specs/Writing.antt`),
//! without memory, where its circuit is ordered. That text spells the file where it is no longer
//! than a text may be, so `read` gives the file again.
#![tactic(auto)]

mod aig_write_error;
mod circuit;
mod delta;
mod lines;
mod numbered;
mod pieces;
mod reading;
mod writing;

pub use aig_write_error::AigWriteError;
pub use reading::read;
pub use writing::write;
