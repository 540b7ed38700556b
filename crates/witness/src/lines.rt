//! The lines of loose texts.

use crate::characters::is_blank;
use base::{Refused, push};
use std::alloc::Global;

/// What stands on a line, and the byte of the text where it begins.
#[derive(Clone, Copy)]
pub struct Line<'a> {
    /// the bytes, without a comment behind them and blanks about them
    pub bytes: &'a [u8],
    /// where they begin
    pub place: u64,
}

/// How long the rows of a circuit are.
#[derive(Clone, Copy, PartialEq, Eq)]
pub struct Shape {
    /// how many latches
    pub latches: usize,
    /// how many inputs
    pub inputs: usize,
}

impl<'a> Line<'a> {
    /// The first bytes, as many as that or all of them, and the others.
    pub fn split(self, long: usize) -> (Line<'a>, Line<'a>) {
        let long = long.min(self.bytes.len());
        let (front, back) = self.bytes.split_at(long);
        let place = self.place.saturating_add(long as u64);
        (
            Line {
                bytes: front,
                place: self.place,
            },
            Line { bytes: back, place },
        )
    }

    /// The place of the byte at a position of the line.
    pub fn place_of(self, position: usize) -> u64 {
        self.place.saturating_add(position as u64)
    }
}

/// How many blanks the bytes begin with.
fn leading(bytes: &[u8]) -> usize {
    for (position, byte) in bytes.iter().enumerate() {
        if !is_blank(*byte) {
            return position;
        }
    }
    bytes.len()
}

/// Where the last byte ends that stands before a `#` and is no blank.
fn content(bytes: &[u8]) -> usize {
    let mut end: usize = 0;
    for (position, byte) in bytes.iter().enumerate() {
        if *byte == b'#' {
            return end;
        }
        if !is_blank(*byte) {
            end = position + 1;
        }
    }
    end
}

/// What stands on the line.
fn bare(line: Line<'_>) -> Line<'_> {
    let (line, _) = line.split(content(line.bytes));
    let (_, line) = line.split(leading(line.bytes));
    line
}

/// Whether a line is a comment.
fn is_comment(line: &[u8]) -> bool {
    match line {
        [b'c' | b'#', ..] => true,
        [b'u', digit, ..] => digit.is_ascii_digit(),
        _ => false,
    }
}

/// The text without a line end at its end.
fn without_line_end(text: &[u8]) -> &[u8] {
    match text {
        [front @ .., b'\n'] => front,
        _ => text,
    }
}

/// The lines up to a dot, without comments, and without empty ones where a circuit has latches and inputs.
pub fn lines<'a>(alloc: Global, text: &'a [u8], shape: Shape) -> Result<Vec<Line<'a>>, Refused> {
    let mut kept = Vec::new(alloc);
    let keeps_empty = shape.latches == 0 || shape.inputs == 0;
    let mut place: u64 = 0;
    for bytes in without_line_end(text).split(|byte| *byte == b'\n') {
        let line = bare(Line { bytes, place });
        if line.bytes == b".".as_slice() {
            return Ok(kept);
        }
        if !is_comment(bytes) && (keeps_empty || !line.bytes.is_empty()) {
            push(&mut kept, line)?;
        }
        place = place.saturating_add(bytes.len() as u64).saturating_add(1);
    }
    Ok(kept)
}

/// Whether all values of a counterexample stand on this line alone.
fn is_folded(line: Line<'_>, shape: Shape) -> bool {
    let long = line.bytes.len();
    shape.inputs != 0
        && long > shape.latches
        && long > shape.inputs
        && (long - shape.latches) % shape.inputs == 0
}

/// The first state and the inputs of each time, which stand on one line.
fn pieces<'a>(alloc: Global, line: Line<'a>, shape: Shape) -> Result<Vec<Line<'a>>, Refused> {
    let mut pieces = Vec::new(alloc);
    let (first, mut rest) = line.split(shape.latches);
    push(&mut pieces, first)?;
    for _ in 0..line.bytes.len() {
        if rest.bytes.is_empty() {
            return Ok(pieces);
        }
        let (piece, after) = rest.split(shape.inputs);
        push(&mut pieces, piece)?;
        rest = after;
    }
    Ok(pieces)
}

/// The lines of rows, where all of them stand on the one line that there is.
pub fn unfolded<'a>(
    alloc: Global,
    lines: &[Line<'a>],
    shape: Shape,
) -> Result<Option<Vec<Line<'a>>>, Refused> {
    match lines {
        [line] if is_folded(*line, shape) => Ok(Some(pieces(alloc, *line, shape)?)),
        _ => Ok(None),
    }
}
