//! Circuits that no text spells: refusals of parts.

use base::{Refused, Seq};
use graph::{Gate, Latch, Lit, Model, Parts, ReadError};
use std::alloc::Global;

/// Parts from plain numbers: a latch and a gate are three literals each.
#[derive(Drop)]
struct Plain<'a> {
    max_var: u32,
    inputs: &'a [u32],
    latches: &'a [(u32, u32, u32)],
    bad: &'a [u32],
    gates: &'a [(u32, u32, u32)],
}

fn literals(alloc: Global, numbers: &[u32]) -> Result<Seq<Lit>, Refused> {
    let mut lits = Seq::new(alloc);
    for number in numbers {
        lits.push(Lit(*number))?;
    }
    Ok(lits)
}

fn parts_of(alloc: Global, plain: &Plain<'_>) -> Result<Parts, Refused> {
    let mut latches = Seq::new(alloc);
    for (lit, next, reset) in plain.latches {
        latches.push(Latch {
            lit: Lit(*lit),
            next: Lit(*next),
            reset: Lit(*reset),
        })?;
    }
    let mut gates = Seq::new(alloc);
    for (lhs, rhs0, rhs1) in plain.gates {
        gates.push(Gate {
            lhs: Lit(*lhs),
            rhs0: Lit(*rhs0),
            rhs1: Lit(*rhs1),
        })?;
    }
    Ok(Parts {
        max_var: plain.max_var,
        inputs: literals(alloc, plain.inputs)?,
        latches,
        outputs: Seq::new(alloc),
        bad: literals(alloc, plain.bad)?,
        constraints: Seq::new(alloc),
        justice: Seq::new(alloc),
        fairness: Seq::new(alloc),
        gates,
    })
}

/// The number and place of a refusal, where there is one.
type Numbered = Option<(u8, u64)>;

/// A refusal's number and place.
fn told(error: Option<ReadError>) -> Numbered {
    let error = error?;
    Some((error.number(), error.place()))
}

/// Why parts make no circuit.
fn refusal(alloc: Global, plain: &Plain<'_>) -> Result<Numbered, Refused> {
    let parts = parts_of(alloc, plain)?;
    Ok(told(Model::build(alloc, &parts).err()))
}

/// Parts that make no circuit and that no text spells, or of which a text has another place, with the
/// number and place of the refusal.
static REFUSED: [(Plain<'static>, u8, u64); 10] = [
    (
        Plain {
            max_var: 4_194_304,
            inputs: &[2],
            latches: &[],
            bad: &[],
            gates: &[],
        },
        4,
        0,
    ),
    (
        Plain {
            max_var: 3,
            inputs: &[8],
            latches: &[(4, 3, 0)],
            bad: &[4],
            gates: &[(6, 4, 2)],
        },
        7,
        0,
    ),
    (
        Plain {
            max_var: 3,
            inputs: &[2],
            latches: &[(4, 8, 0)],
            bad: &[4],
            gates: &[(6, 4, 2)],
        },
        7,
        2,
    ),
    (
        Plain {
            max_var: 3,
            inputs: &[2],
            latches: &[(4, 3, 0)],
            bad: &[8],
            gates: &[(6, 4, 2)],
        },
        7,
        4,
    ),
    (
        Plain {
            max_var: 3,
            inputs: &[2],
            latches: &[(4, 3, 0)],
            bad: &[4],
            gates: &[(6, 4, 9)],
        },
        7,
        7,
    ),
    (
        Plain {
            max_var: 3,
            inputs: &[3],
            latches: &[(4, 3, 0)],
            bad: &[9],
            gates: &[(6, 4, 2)],
        },
        8,
        0,
    ),
    (
        Plain {
            max_var: 3,
            inputs: &[2],
            latches: &[(4, 3, 0)],
            bad: &[4],
            gates: &[(0, 4, 2)],
        },
        8,
        5,
    ),
    (
        Plain {
            max_var: 3,
            inputs: &[2],
            latches: &[(4, 3, 2)],
            bad: &[4],
            gates: &[(6, 4, 2)],
        },
        12,
        3,
    ),
    (
        Plain {
            max_var: 3,
            inputs: &[2],
            latches: &[(4, 3, 9)],
            bad: &[4],
            gates: &[(6, 4, 2)],
        },
        12,
        3,
    ),
    (
        Plain {
            max_var: 3,
            inputs: &[6, 6, 2],
            latches: &[(2, 3, 0)],
            bad: &[4],
            gates: &[],
        },
        9,
        1,
    ),
];

#[test]
fn refusals_with_number_and_place(rt: HostRuntime) {
    for (plain, number, place) in &REFUSED {
        let answer = refusal(rt.alloc(), plain);
        assert!(rt;
            answer == Ok(Some((*number, *place))),
            "{number} at {place}"
        );
    }
}
