//! The status and the properties of loose texts.

use crate::characters::{is_blank, property_of};
use crate::lines::{Line, Shape};
use crate::witness_error::WitnessError;
use base::push;
use graph::Property;
use std::alloc::Global;

/// Whether a line begins as a property does.
fn begins_property(bytes: &[u8]) -> bool {
    matches!(bytes, [b'b' | b'j' | b'o', ..])
}

/// Whether all lines are as long as that.
fn are_long(lines: &[Line<'_>], long: usize) -> bool {
    for line in lines {
        if line.bytes.len() != long {
            return false;
        }
    }
    true
}

/// Whether the lines are a first state and the inputs at one time at least.
fn are_rows(lines: &[Line<'_>], shape: Shape) -> bool {
    match lines {
        [first, second, others @ ..] => {
            first.bytes.len() == shape.latches
                && second.bytes.len() == shape.inputs
                && are_long(others, shape.inputs)
        }
        _ => false,
    }
}

/// Whether the line before these lines is a status: a word that is one, or a digit before a property or before lines
/// that are as long as a state and inputs are.
fn is_status(word: &[u8], later: &[Line<'_>], shape: Shape) -> bool {
    match word {
        b"sat" | b"unsat" => true,
        b"1" => {
            later
                .first()
                .is_some_and(|line| begins_property(line.bytes))
                || are_rows(later, shape)
        }
        b"0" | b"2" => later
            .first()
            .is_some_and(|line| begins_property(line.bytes)),
        _ => false,
    }
}

/// The lines behind the status, where there is one. It has to report a violation.
pub fn after_status<'a, 'b>(
    lines: &'b [Line<'a>],
    shape: Shape,
) -> Result<&'b [Line<'a>], WitnessError> {
    match lines {
        [first, later @ ..] if is_status(first.bytes, later, shape) => match first.bytes {
            b"1" | b"sat" => Ok(later),
            _ => Err(WitnessError::NoViolation { place: first.place }),
        },
        _ => Ok(lines),
    }
}

/// Adds the properties that the words of a line name.
fn push_named(to: &mut Vec<Property>, line: Line<'_>) -> Result<(), WitnessError> {
    let mut position: usize = 0;
    for word in line.bytes.split(|byte| is_blank(*byte)) {
        if !word.is_empty() {
            match property_of(word) {
                Some(property) => push(to, property)?,
                None => {
                    return Err(WitnessError::Property {
                        place: line.place_of(position),
                    });
                }
            }
        }
        position = position.saturating_add(word.len()).saturating_add(1);
    }
    Ok(())
}

/// The properties that the lines begin with, and the lines behind them.
pub fn named<'a, 'b>(
    alloc: Global,
    lines: &'b [Line<'a>],
) -> Result<(Vec<Property>, &'b [Line<'a>]), WitnessError> {
    let mut named = Vec::new(alloc);
    for (position, line) in lines.iter().enumerate() {
        if !begins_property(line.bytes) {
            return Ok((named, &lines[position..]));
        }
        push_named(&mut named, *line)?;
    }
    Ok((named, &[]))
}
