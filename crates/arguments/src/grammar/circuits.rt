//! The commands that write circuits, and `explain`, and their words.

use super::Row;
use super::shared::{OUT, REASONS};
use crate::words::{Argument, FILE, FLAG, OPTION, PROPERTY, Takes};

/// The words of `convert`.
static CONVERT: [Argument; 5] = [
    FILE,
    OUT,
    Argument {
        name: "ascii",
        help: "Writes ASCII, whatever OUT ends in",
        ..FLAG
    },
    Argument {
        name: "binary",
        help: "Writes binary, whatever OUT ends in",
        ..FLAG
    },
    REASONS,
];

/// The command `convert`.
pub fn convert() -> Row {
    Row {
        name: "convert",
        about: "Writes a circuit in the other format",
        behind: "Status: 0 done, 3 failed.
Examples:
  aigmc convert design.aig design.aag
  aigmc convert design.aag design.aig
  aigmc convert - - --ascii < design.aig",
        words: &CONVERT,
    }
}

/// The words of `to-safety`.
static TO_SAFETY: [Argument; 5] = [
    FILE,
    Argument {
        help: "The justice property: j and its position, or its name in the symbol table",
        ..PROPERTY
    },
    OUT,
    Argument {
        name: "rounds",
        help: "The bad literal says that a run holds more than so many rounds, not that it closes a lasso",
        value: "K",
        takes: Takes::Count,
        ..OPTION
    },
    REASONS,
];

/// The command `to-safety`.
pub fn to_safety() -> Row {
    Row {
        name: "to-safety",
        about: "Writes a justice property as a circuit with one bad literal, for other engines",
        behind: "Status: 0 done, 3 failed.
Examples:
  aigmc to-safety design.aig -p j0 j0.aag
  aigmc to-safety design.aig -p j0 --rounds 8 j0.aig",
        words: &TO_SAFETY,
    }
}

/// The words of `extract`.
static EXTRACT: [Argument; 4] = [FILE, PROPERTY, OUT, REASONS];

/// The command `extract`.
pub fn extract() -> Row {
    Row {
        name: "extract",
        about: "Writes the circuit of a bad literal, or of an output as one, for other engines",
        behind: "OUT has all inputs and latches, each with a name (i0, lo0 where FILE has none), so that a stimulus of OUT fits
FILE, and the constraints. It has the gates on which the property and the constraints rest; a latch on which they
don't rest keeps its value. The property is b0 of OUT, or o0 where FILE has its outputs as properties.
Status: 0 done, 3 failed.
Examples:
  aigmc extract design.aig -p b3 b3.aig
  aigmc check b3.aig -p b0 > found; aigmc witness design.aig found b3.stim -p b3",
        words: &EXTRACT,
    }
}

/// The words of `explain`.
static EXPLAIN: [Argument; 2] = [
    Argument {
        name: "NUMBER",
        help: "The number of a fault or of a no",
        takes: Takes::SmallNumber,
        ..FILE
    },
    REASONS,
];

/// The command `explain`.
pub fn explain() -> Row {
    Row {
        name: "explain",
        about: "Says what the number of a fault means, and what to do",
        behind: "Status: 0 done, 3 there is no such number.
Examples:
  aigmc explain 30
  aigmc explain 45",
        words: &EXPLAIN,
    }
}
