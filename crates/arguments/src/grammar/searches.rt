//! The commands that look for evidence, and their words.

use super::Row;
use super::shared::{BUDGET, DEPTH, ENGINE, FOLDER, JSON, QUIET, SEED, TIMEOUT, VERBOSE};
use crate::words::{Argument, FILE, OPTION, PROPERTY};

/// The words of `check`.
static CHECK: [Argument; 13] = [
    FILE,
    PROPERTY,
    Argument {
        name: "cert",
        help: "The file to make of the certificate",
        value: "OUT",
        ..OPTION
    },
    Argument {
        name: "witness",
        help: "The file to make of its witness circuit: .aag for ASCII, .aig for binary",
        value: "OUT",
        ..OPTION
    },
    FOLDER,
    BUDGET,
    DEPTH,
    ENGINE,
    SEED,
    TIMEOUT,
    QUIET,
    JSON,
    VERBOSE,
];

/// The command `check`.
pub fn check() -> Row {
    Row {
        name: "check",
        about: "Looks for a violation of a property, or for a certificate that there is none",
        behind: "Status: 0 holds, 1 violated, 2 unknown, 3 failed.
Examples:
  aigmc check design.aig -p b0 --cert b0.cert
  aigmc check design.aig -p no_overflow --timeout 60
  aigmc check design.aig -p j0 --engine bmc --depth 100 > j0.stim
  aigmc check design.aig -p j0 --engine rounds --cert j0.cert",
        words: &CHECK,
    }
}

/// The words of `all`.
static ALL: [Argument; 10] = [
    FILE, FOLDER, BUDGET, DEPTH, ENGINE, SEED, TIMEOUT, QUIET, JSON, VERBOSE,
];

/// The command `all`.
pub fn all() -> Row {
    Row {
        name: "all",
        about: "Looks for evidence about all properties of a circuit, one after the other",
        behind: "Status: 1 a property is violated, else 2 one is unknown or there is none, else 0; 3 failed.
Examples:
  aigmc all design.aig
  aigmc all design.aig --out evidence --budget 1000000",
        words: &ALL,
    }
}

/// The words of `equal`.
static EQUAL: [Argument; 12] = [
    Argument {
        name: "A",
        help: "A circuit (AIGER 1.9, ASCII or binary)",
        ..FILE
    },
    Argument {
        name: "B",
        help: "The circuit to compare it with",
        ..FILE
    },
    Argument {
        name: "out",
        help: "The folder, which is there, for miter.aig and b0.cert or b0.stim",
        value: "DIR",
        ..OPTION
    },
    Argument {
        name: "map",
        help: "The file to make of which latches of A and B are equal, by the clauses of the certificate",
        value: "OUT",
        ..OPTION
    },
    BUDGET,
    DEPTH,
    ENGINE,
    SEED,
    TIMEOUT,
    QUIET,
    JSON,
    VERBOSE,
];

/// The command `equal`.
pub fn equal() -> Row {
    Row {
        name: "equal",
        about: "Looks for a run in which two circuits differ, or for a certificate that there is none",
        behind: "Inputs, outputs and bad literals belong together by their names, where both circuits name all of a kind and with the
same names, else by their positions. The certificate or the run is of the miter: the two circuits with the inputs of A
and a bad literal b0, which is set where two outputs or bad literals that belong together differ. It has the
constraints of both. A latch without a reset begins in each by itself. Justice properties and fairness literals are not
compared.
Status: 0 equal, 1 they differ, 2 unknown, 3 failed.
Examples:
  aigmc equal old.aig new.aig
  mkdir made; aigmc equal old.aig new.aig --out made && aigcheck all made/miter.aig made
  aigmc equal rtl.aig netlist.aig --engine corr --map latches.txt",
        words: &EQUAL,
    }
}

/// The words of `cover`.
static COVER: [Argument; 5] = [
    FILE,
    Argument {
        help: "How many steps the run has",
        ..DEPTH
    },
    Argument {
        help: "How many steps the search may cost",
        ..BUDGET
    },
    Argument {
        help: "How many seconds the search may take",
        ..TIMEOUT
    },
    VERBOSE,
];

/// The command `cover`.
pub fn cover() -> Row {
    Row {
        name: "cover",
        about: "Looks for a run that keeps the constraints, whatever it does else",
        behind: "The run is printed as a stimulus. Its property is the bad literal behind the last one of FILE, which FILE does not
have: the run need not violate anything.
Status: 0 a run is printed, 1 no run keeps them so long, 2 unknown, 3 failed.
Examples:
  aigmc cover design.aig
  aigmc cover design.aig --depth 100 | aigmc trace design.aig -",
        words: &COVER,
    }
}
