//! Circuits as ASCII texts (AIGER 1.9).
//!
//! `read` answers the `AigerFile` that a text spells: a header of five to nine counts, a line for
//! each input, latch, output, bad literal, constraint, justice size, justice literal, fairness
//! literal and gate, a line for each symbol, and a comment.
//!
//! - `SpellsAscii` (`specs/Ascii.antt`) says which texts spell which files, as a relation between
//!   a whole text and a file. `read` answers `Ok` exactly on the texts that spell one, with that
//!   file; only running out of memory can keep it from one.
//! - A text that spells none is refused at its first fault, by the byte. A fault of a number is
//!   told before what follows it. What no single line shows, as a cycle of gates, is reported after
//!   the last byte.
//!
//! One pass, and no memory beside the lists that are built: a list grows line by line, whatever
//! count the header states.
//!
//! `write` puts the shortest text of a file to a `Sink` (`written_text` in `specs/Writing.antt`),
//! without memory. That text spells the file where it is no longer than a text may be, so `read`
//! gives the file again.
//!
//! The binary layout has the same header, lists of used literals, symbols and comment. What reads
//! and writes those is public for its crate, and leaves the refusals' names to the caller.
#![tactic(auto)]

mod aag_write_error;
mod circuit;
mod comments;
mod header;
mod justice;
mod lines;
mod name;
mod pieces;
mod read_fault;
mod reading;
mod symbol;
mod uses;
mod writing;

pub use aag_write_error::AagWriteError;
pub use header::{Header, read_header};
pub use lines::{LiteralLine, next, reset};
pub use pieces::{Piece, ShortPiece, put_blocks, put_each, put_number};
pub use read_fault::{LayoutFault, ReadFault, told};
pub use reading::{read, with_tail};
pub use uses::{Uses, read_uses};
pub use writing::{put_file, put_header, put_uses, write};
