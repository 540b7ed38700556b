//! Places in texts, texts of other formats, and names, for people.

use std::fmt;

/// A place in a text: its line and its column, which count from 1.
#[derive(Clone, Copy)]
pub struct Position {
    /// the line
    pub line: usize,
    /// the byte of the line
    pub column: usize,
}

/// The position behind the bytes.
pub fn position_behind(text: &[u8]) -> Position {
    let mut position = Position { line: 1, column: 1 };
    for byte in text {
        if *byte == b'\n' {
            position.line = position.line.saturating_add(1);
            position.column = 1;
        } else {
            position.column = position.column.saturating_add(1);
        }
    }
    position
}

/// Whether the words stand in the text.
fn has(text: &[u8], words: &[u8]) -> bool {
    !words.is_empty() && text.windows(words.len()).any(|part| part == words)
}

/// What a text is that begins so, where it is one of another format than AIGER that is known by its beginning.
pub fn other_format(beginning: &[u8]) -> Option<&'static str> {
    match beginning {
        [0x1f, 0x8b, ..] => Some("it is compressed by gzip; gunzip makes the circuit of it"),
        [b'0'..=b'9' | b';', ..] if has(beginning, b" sort bitvec ") => {
            Some("it is BTOR2; btor2aiger (Btor2Tools) makes AIGER of it")
        }
        [b'M' | b'-', ..] if has(beginning, b"MODULE ") => {
            Some("it is SMV; smvtoaig (the AIGER tools) makes AIGER of it")
        }
        [b'a', b'a' | b'i', b'g', b' ', ..] if has(beginning, b"\r\n") => {
            Some("its lines end with CR LF; those of AIGER end with LF")
        }
        _ => None,
    }
}

/// Bytes as they are shown: `_` for each that is no printable character of ASCII.
#[derive(Clone, Copy)]
pub struct Printable<'a>(pub &'a [u8]);

impl fmt::Display for Printable<'_> {
    fn fmt<W: fmt::Write>(&self, f: &mut fmt::Formatter<W>) -> fmt::Result {
        for byte in self.0 {
            let shown = if matches!(*byte, b' '..=b'~') {
                *byte
            } else {
                b'_'
            };
            f.write_char(char::from(shown))?;
        }
        Ok(())
    }
}

/// Bytes as a text of JSON, in quotes: each that is no printable character of ASCII, each quote and each backslash is
/// escaped by its number.
#[derive(Clone, Copy)]
pub struct Quoted<'a>(pub &'a [u8]);

impl fmt::Display for Quoted<'_> {
    fn fmt<W: fmt::Write>(&self, f: &mut fmt::Formatter<W>) -> fmt::Result {
        f.write_char('"')?;
        for byte in self.0 {
            let byte = *byte;
            if matches!(byte, b' '..=b'~') && byte != b'"' && byte != b'\\' {
                f.write_char(char::from(byte))?;
            } else {
                write!(f, "\\u00{byte:02x}")?;
            }
        }
        f.write_char('"')
    }
}
