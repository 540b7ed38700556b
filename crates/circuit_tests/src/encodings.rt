//! Frames and unrollings of worked circuits, clause by clause.

use crate::questions::{HOLD, Question, asked};
use cnf::{CnfError, extension, frame, unroll};
use graph::Model;
use lrat::Formula;
use std::alloc::Global;
use std::test::Fail;

/// Latches that begin with 1, with 0 and with any value, an input, a constraint and a gate.
static MIXED: &[u8] = b"aag 5 1 3 0 1 2 2\n2\n4 11 1\n6 4\n8 1 8\n11\n0\n3\n8\n10 5 6\n";

/// What is made of a circuit.
#[derive(Clone, Copy, PartialEq, Eq)]
enum Encoding {
    /// the gates of a time, with the constant
    Frame,
    /// this number of steps
    Unrolling(u32),
    /// what the last of this number of steps adds, over the variables of three times
    Extension(u32),
}

/// The clauses that are made of a circuit.
fn encoded(alloc: Global, circuit: &Model, encoding: Encoding) -> Result<Formula, CnfError> {
    match encoding {
        Encoding::Frame => Ok(frame(alloc, circuit)?),
        Encoding::Unrolling(steps) => unroll(alloc, circuit, steps),
        Encoding::Extension(steps) => {
            let clauses = extension(alloc, circuit, steps)?;
            Ok(Formula { vars: 6, clauses })
        }
    }
}

/// Whether a formula has these clauses over this number of variables.
fn is_formula(formula: &Formula, vars: u32, wanted: &[&[i32]]) -> bool {
    formula.vars == vars
        && formula.clauses.len() == wanted.len()
        && formula
            .clauses
            .as_slice()
            .iter()
            .zip(wanted)
            .all(|(clause, literals)| clause.as_slice() == *literals)
}

/// Whether what is made of a circuit has these clauses over this number of variables.
struct Wanted {
    encoding: Encoding,
    vars: u32,
    clauses: &'static [&'static [i32]],
}

impl Question for Wanted {
    type Answer = bool;

    fn answer(&self, alloc: Global, circuit: &Model) -> Result<bool, Fail> {
        let formula = encoded(alloc, circuit, self.encoding)?;
        Ok(is_formula(&formula, self.vars, self.clauses))
    }
}

/// The latch that holds: all of three times, what the first time has, and what the third adds to the first two.
static OF_HOLD: [Wanted; 3] = [
    Wanted {
        encoding: Encoding::Unrolling(2),
        vars: 6,
        clauses: &[
            &[-1],
            &[2],
            &[-3, 1],
            &[3, -1],
            &[4],
            &[-5, 3],
            &[5, -3],
            &[6],
        ],
    },
    Wanted {
        encoding: Encoding::Extension(0),
        vars: 6,
        clauses: &[&[-1], &[2]],
    },
    Wanted {
        encoding: Encoding::Extension(2),
        vars: 6,
        clauses: &[&[-5, 3], &[5, -3], &[6]],
    },
];

/// Latches of each kind: a frame, and all of two times.
static OF_MIXED: [Wanted; 2] = [
    Wanted {
        encoding: Encoding::Frame,
        vars: 6,
        clauses: &[&[6], &[-5, -2], &[-5, 3], &[5, 2, -3]],
    },
    Wanted {
        encoding: Encoding::Unrolling(1),
        vars: 12,
        clauses: &[
            &[2],
            &[-3],
            &[6],
            &[-5, -2],
            &[-5, 3],
            &[5, 2, -3],
            &[-1],
            &[4],
            &[-8, -5],
            &[8, 5],
            &[-9, 2],
            &[9, -2],
            &[-10, 6],
            &[10, -6],
            &[12],
            &[-11, -8],
            &[-11, 9],
            &[11, 8, -9],
            &[-7],
            &[10],
        ],
    },
];

#[test]
fn clauses_of_circuits(rt: HostRuntime) -> Result<(), Fail> {
    for wanted in &OF_HOLD {
        assert!(rt; asked(rt.alloc(), HOLD, wanted)?);
    }
    for wanted in &OF_MIXED {
        assert!(rt; asked(rt.alloc(), MIXED, wanted)?);
    }
    Ok(())
}

/// The greatest variable and the number of clauses, or the number of why there are none.
#[derive(Clone, Copy)]
struct Sizes {
    encoding: Encoding,
}

impl Question for Sizes {
    type Answer = Result<(u32, usize), u8>;

    fn answer(&self, alloc: Global, circuit: &Model) -> Result<Result<(u32, usize), u8>, Fail> {
        match encoded(alloc, circuit, self.encoding) {
            Ok(formula) => Ok(Ok((formula.vars, formula.clauses.len()))),
            Err(e) => Ok(Err(e.number())),
        }
    }
}

/// The longest encodings of the latch that holds, and those that are too long.
static LONG: [(Encoding, Result<(u32, usize), u8>); 3] = [
    (Encoding::Unrolling(255), Ok((512, 767))),
    (Encoding::Unrolling(256), Err(4)),
    (Encoding::Extension(256), Err(4)),
];

#[test]
fn steps_have_a_limit(rt: HostRuntime) -> Result<(), Fail> {
    for (encoding, wanted) in &LONG {
        let encoding = *encoding;
        assert!(rt; asked(rt.alloc(), HOLD, &Sizes { encoding })? == *wanted);
    }
    Ok(())
}
