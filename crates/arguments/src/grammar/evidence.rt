//! The commands about evidence, of which other tools made some, and their words.

use super::Row;
use super::shared::{BUDGET, OUT, REASONS, STIMULUS, TIMEOUT, VERBOSE};
use crate::words::{Argument, FILE, FLAG, OPTION, PROPERTY};

/// The words of `certify`.
static CERTIFY: [Argument; 9] = [
    FILE,
    PROPERTY,
    Argument {
        name: "invariant",
        help: "The clauses: a line for each, a certificate, or what ABC's pdr -d writes",
        required: true,
        value: "INV",
        ..OPTION
    },
    Argument {
        name: "extension",
        help: "The circuit with further latches and gates, over whose literals the clauses are",
        value: "EXT",
        ..OPTION
    },
    Argument {
        name: "cert",
        help: "The file to make of the certificate",
        required: true,
        value: "OUT",
        ..OPTION
    },
    Argument {
        help: "How many steps the proofs may cost",
        ..BUDGET
    },
    Argument {
        name: "strengthen",
        help: "Lets IC3 begin from the clauses where they are no invariant",
        ..FLAG
    },
    Argument {
        help: "How many seconds that search may take",
        ..TIMEOUT
    },
    VERBOSE,
];

/// The command `certify`.
pub fn certify() -> Row {
    Row {
        name: "certify",
        about: "Makes a certificate of clauses that another engine found",
        behind: "Status: 0 a certificate was made, 1 the clauses are no inductive invariant that excludes the property's literal, 2 the budget is exhausted, 3 failed.
Examples:
  aigmc certify design.aig -p b0 --invariant b0.clauses --cert b0.cert
  aigmc certify design.aig -p b0 --invariant design_inv.pla --cert b0.cert
  aigmc certify design.aig -p b0 --invariant old.cert --cert b0.cert
  aigmc certify design.aag -p b0 --extension more.aag --invariant b0.clauses --cert b0.cert",
        words: &CERTIFY,
    }
}

/// The words of `recertify`.
static RECERTIFY: [Argument; 5] = [
    FILE,
    Argument {
        name: "CERT",
        help: "The certificate, of any version",
        ..FILE
    },
    Argument {
        help: "The file to make of the certificate",
        ..OUT
    },
    Argument {
        help: "How many steps the proofs may cost",
        ..BUDGET
    },
    REASONS,
];

/// The command `recertify`.
pub fn recertify() -> Row {
    Row {
        name: "recertify",
        about: "Makes a certificate of version 3 of the clauses of a certificate",
        behind: "Status: 0 a certificate was made, 1 the clauses are no inductive invariant that excludes the property's literal, 2 the budget is exhausted, 3 failed.
Examples:
  aigmc recertify design.aig b0.cert b0.small",
        words: &RECERTIFY,
    }
}

/// The words of `to-witness`.
static TO_WITNESS: [Argument; 4] = [
    FILE,
    Argument {
        name: "CERT",
        help: "The certificate, of any version",
        ..FILE
    },
    OUT,
    REASONS,
];

/// The command `to-witness`.
pub fn to_witness() -> Row {
    Row {
        name: "to-witness",
        about: "Writes an accepted certificate as a witness circuit of the model checking competition",
        behind: "OUT has the inputs, latches, gates and constraints of FILE, what the certificate adds, and one bad literal: it is set
where the property's literal is, or where a clause is false. The symbols of OUT name the literals of FILE's inputs and
latches.
Status: 0 done, 3 failed: the certificate is not accepted, or is of a justice property.
Examples:
  aigmc to-witness design.aig b0.cert b0.witness.aig",
        words: &TO_WITNESS,
    }
}

/// The words of `adopt-witness`.
static ADOPT_WITNESS: [Argument; 6] = [
    FILE,
    Argument {
        name: "WITNESS",
        help: "The witness circuit",
        ..FILE
    },
    Argument {
        help: "The file to make of the certificate",
        ..OUT
    },
    Argument {
        required: false,
        help: "The property, where FILE has several: b or o and its position, or its name",
        ..PROPERTY
    },
    Argument {
        help: "How many steps the proofs may cost",
        ..BUDGET
    },
    REASONS,
];

/// The command `adopt-witness`.
pub fn adopt_witness() -> Row {
    Row {
        name: "adopt-witness",
        about: "Makes a certificate of version 3 of a witness circuit of the model checking competition",
        behind: "Status: 0 a certificate was made, 1 the circuit is no witness, 2 the budget is exhausted, 3 failed.
Examples:
  aigmc adopt-witness design.aig witness.aig b0.cert
  aigmc adopt-witness design.aig witness.aig b1.cert -p b1",
        words: &ADOPT_WITNESS,
    }
}

/// The words of `witness`.
static WITNESS: [Argument; 6] = [
    FILE,
    Argument {
        help: "The counterexample",
        ..STIMULUS
    },
    Argument {
        help: "The file to make of the stimulus",
        ..OUT
    },
    Argument {
        required: false,
        ..PROPERTY
    },
    Argument {
        name: "clear",
        help: "Writes an x for each value that the violation does not rest on",
        ..FLAG
    },
    REASONS,
];

/// The command `witness`.
pub fn witness() -> Row {
    Row {
        name: "witness",
        about: "Makes a strict stimulus of a counterexample that another tool wrote",
        behind: "Status: 0 a stimulus was made, 1 no choice of what doesn't matter shows a violation, 3 failed.
Examples:
  aigmc witness design.aig found.cex b0.stim
  aigmc witness design.aig found.cex b0.stim -p b0
  aigmc witness design.aig b0.stim b0.cleared --clear",
        words: &WITNESS,
    }
}

/// The words of `sim`.
static SIM: [Argument; 3] = [FILE, STIMULUS, REASONS];

/// The command `sim`.
pub fn sim() -> Row {
    Row {
        name: "sim",
        about: "Prints the values in a stimulus's replay",
        behind: "Status: 0 done, 3 failed.
Examples:
  aigmc sim design.aig b0.stim
  aigmc check design.aig -p b0 > b0.stim; aigmc sim design.aig b0.stim",
        words: &SIM,
    }
}

/// The words of `trace`.
static TRACE: [Argument; 5] = [
    FILE,
    STIMULUS,
    Argument {
        name: "all",
        help: "Signals whose names begin with $ too",
        ..FLAG
    },
    Argument {
        name: "vcd",
        help: "The file to make of the waveform (VCD), in place of what is printed",
        value: "OUT",
        ..OPTION
    },
    REASONS,
];

/// The command `trace`.
pub fn trace() -> Row {
    Row {
        name: "trace",
        about: "Prints a stimulus's replay by the names of its signals, or makes a waveform of it",
        behind: "Status: 0 done, 3 failed.
Examples:
  aigmc trace design.aig b0.stim
  aigmc trace design.aig b0.stim --vcd b0.vcd",
        words: &TRACE,
    }
}
