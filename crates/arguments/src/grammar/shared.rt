//! The words that several commands have.

use crate::words::{Argument, FILE, FLAG, OPTION, Takes};

/// The file to make of a circuit.
pub const OUT: Argument = Argument {
    name: "OUT",
    help: "The file to make: .aag for ASCII, .aig for binary",
    ..FILE
};

/// The stimulus.
pub const STIMULUS: Argument = Argument {
    name: "STIM",
    help: "The stimulus",
    ..FILE
};

/// The folder for evidence.
pub const FOLDER: Argument = Argument {
    name: "out",
    help: "The folder for the evidence, which is there: b0.cert, b1.stim and so on",
    value: "DIR",
    ..OPTION
};

/// How many steps a search may cost.
pub const BUDGET: Argument = Argument {
    name: "budget",
    help: "How many steps the search for a property may cost",
    value: "N",
    default: "200000000",
    takes: Takes::Number,
    ..OPTION
};

/// How long runs may be.
pub const DEPTH: Argument = Argument {
    name: "depth",
    help: "How many steps a run may have",
    value: "K",
    default: "20",
    takes: Takes::SmallNumber,
    ..OPTION
};

/// The engine.
pub const ENGINE: Argument = Argument {
    name: "engine",
    help: "What looks for evidence",
    value: "E",
    default: "all",
    takes: Takes::Engine,
    ..OPTION
};

/// Where the random engine begins.
pub const SEED: Argument = Argument {
    name: "seed",
    help: "Where the random engine begins",
    value: "S",
    default: "0",
    takes: Takes::Number,
    ..OPTION
};

/// Whether a search says how far it is.
pub const VERBOSE: Argument = Argument {
    help: "Says on standard error how far the search is, what it found, and why a file is refused",
    ..REASONS
};

/// Whether a fault says more than its line.
pub const REASONS: Argument = Argument {
    name: "verbose",
    help: "Says on standard error which file is refused, and why",
    short: Some('v'),
    ..FLAG
};

/// How long a search may take.
pub const TIMEOUT: Argument = Argument {
    name: "timeout",
    help: "How many seconds the search may take in all",
    value: "SECONDS",
    takes: Takes::Number,
    ..OPTION
};

/// Whether the verdicts alone are printed.
pub const QUIET: Argument = Argument {
    name: "quiet",
    help: "Prints verdicts alone, without a run",
    ..FLAG
};

/// Whether the verdicts are printed as JSON.
pub const JSON: Argument = Argument {
    name: "json",
    help: "Prints a line of JSON for each property, in place of a stimulus",
    ..FLAG
};
