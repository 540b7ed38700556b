//! The bytes of a source, piece by piece, as a text is read line by line.
//!
//! A piece goes up to the first byte that stands in no line before its end. `Pieces` takes bytes of
//! a `Source` until the next piece is held whole, and answers how many bytes that surely has.
//! `Lines` parses those, by a `LineKind` or a `BufferKind`, and skips what was taken of them. A kind
//! finds the line's end by itself, so that no byte is looked at for it before.
#![tactic(auto)]

mod buffer_kind;
mod ends;
mod line_error;
mod lines;
mod pieces;

pub use buffer_kind::BufferKind;
pub use line_error::LineError;
pub use lines::Lines;
