//! Reading loose texts.

use crate::characters::value_of;
use crate::lines::{Line, Shape, lines, unfolded};
use crate::loose::Loose;
use crate::status::{after_status, named};
use crate::witness_error::WitnessError;
use base::Seq;
use graph::{Model, Property};
use std::alloc::Global;

/// The values of a line.
fn row(alloc: Global, line: Line<'_>) -> Result<Seq<Option<bool>>, WitnessError> {
    let mut row = Seq::new(alloc);
    for (position, byte) in line.bytes.iter().enumerate() {
        let Some(value) = value_of(*byte) else {
            return Err(WitnessError::Character {
                place: line.place_of(position),
            });
        };
        row.push(value)?;
    }
    Ok(row)
}

/// The values of each line.
fn rows(alloc: Global, lines: &[Line<'_>]) -> Result<Seq<Seq<Option<bool>>>, WitnessError> {
    let mut rows = Seq::new(alloc);
    for line in lines {
        rows.push(row(alloc, *line)?)?;
    }
    Ok(rows)
}

/// The place of the first line of another length.
fn first_wrong(lines: &[Line<'_>], long: usize) -> Option<u64> {
    for line in lines {
        if line.bytes.len() != long {
            return Some(line.place);
        }
    }
    None
}

/// Where the lines are no first state and inputs, the place at which they are not.
fn wrong_with_state(lines: &[Line<'_>], shape: Shape) -> Option<u64> {
    match lines {
        [first, second, others @ ..] if first.bytes.len() == shape.latches => {
            if second.bytes.len() != shape.inputs {
                return Some(second.place);
            }
            first_wrong(others, shape.inputs)
        }
        _ => Some(0),
    }
}

/// The text whose lines of values are these. Its properties are known.
fn loose_of(
    alloc: Global,
    properties: Vec<Property>,
    lines: &[Line<'_>],
    shape: Shape,
) -> Result<Loose, WitnessError> {
    let rows = rows(alloc, lines)?;
    let with_state = wrong_with_state(lines, shape);
    let alone = first_wrong(lines, shape.inputs);
    if let (Some(one), Some(other)) = (with_state, alone) {
        return Err(WitnessError::LineLength {
            place: one.max(other),
        });
    }
    Ok(Loose {
        properties: Seq::from_vec(properties),
        rows,
        has_state: with_state.is_none(),
        has_inputs_alone: alone.is_none(),
    })
}

/// What a loose text of a counterexample says. It may leave out the status (`1` or `sat`), the properties, the first state and the
/// dot, and have all values on one line; comments (lines that begin with `c`, or `u` and a digit, and what stands behind a `#`) are passed
/// over. A value is `0` or `1`, or `x`, `X`, `?` or `-`, which leave it open. It costs the length of the text in time, and
/// in memory its lines and values.
pub fn read(alloc: Global, circuit: &Model, text: &[u8]) -> Result<Loose, WitnessError> {
    let shape = Shape {
        latches: circuit.latches().len(),
        inputs: circuit.inputs().len(),
    };
    let lines = lines(alloc, text, shape)?;
    let behind = after_status(lines.as_slice(), shape)?;
    let (properties, behind) = named(alloc, behind)?;
    if behind.is_empty() {
        return Err(WitnessError::Truncated {
            place: text.len() as u64,
        });
    }
    match unfolded(alloc, behind, shape)? {
        Some(pieces) => loose_of(alloc, properties, pieces.as_slice(), shape),
        None => loose_of(alloc, properties, behind, shape),
    }
}
