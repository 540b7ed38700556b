//! Circuits with registers that are equal, opposite or constant: where that is an invariant which excludes the bad
//! literal, it is found and certified. `cases/verdicts.tsv` has whether they are safe.

ghost use Rattle.engine.specs.Findings.{IsForBad};

use crate::bounded::circuit;
use base::{Budget, Seq};
use cdcl::Cdcl;
use certify::{Certified, certify};
use checker2::check;
use correspondence::{Correspondence, correspond};
use engine::Silent;
use graph::{Lit, Model, Property};
use solver::PartSat;
use std::alloc::Global;
use std::test::Fail;

/// Circuits, and whether such an invariant is found.
static WORKED: [(&[u8], bool); 12] = [
    // two latches that take an input, and bad where only the first is set
    (b"aag 4 1 2 0 1 1\n2\n4 2\n6 2\n8\n8 4 7\n", true),
    // the second takes the input's negation and begins with 1, and bad where both are set
    (b"aag 4 1 2 0 1 1\n2\n4 2\n6 3 1\n8\n8 4 6\n", true),
    // the second begins with 0: both are never set after a step, but the latches are not opposite at first
    (b"aag 4 1 2 0 1 1\n2\n4 2\n6 3\n8\n8 4 6\n", false),
    // a latch that is never set, since it would have to be set before
    (b"aag 3 1 1 0 1 1\n2\n4 6\n4\n6 2 4\n", true),
    // a latch that begins with 1 and keeps that, and bad where it is not set
    (b"aag 3 1 1 0 1 1\n2\n4 7 1\n5\n6 2 5\n", true),
    // a latch that takes an input that the constraint forbids
    (b"aag 2 1 1 0 0 1 1\n2\n4 2\n4\n3\n", true),
    // the same without the constraint
    (b"aag 2 1 1 0 0 1\n2\n4 2\n4\n", false),
    // two latches without resets that take an input
    (b"aag 4 1 2 0 1 1\n2\n4 2 4\n6 2 6\n8\n8 4 7\n", false),
    // two latches that take one without a reset
    (b"aag 4 0 3 0 1 1\n2 2 2\n4 2\n6 2\n8\n8 4 7\n", true),
    // two latches that are never 1 at once, and are not equal
    (
        b"aag 5 0 2 0 3 1\n2 6\n4 8\n10\n6 3 5\n8 2 5\n10 2 4\n",
        false,
    ),
    // the same twice, where each latch is equal to one that the other reads
    (
        b"aag 9 0 4 0 5 1\n2 10\n4 12\n6 14\n8 16\n18\n10 3 9\n12 2 9\n14 7 5\n16 6 5\n18 2 8\n",
        false,
    ),
    // two latches that take an input, and bad where both are set
    (b"aag 4 1 2 0 1 1\n2\n4 2\n6 2\n8\n8 4 6\n", false),
];

/// How many steps of the budget a search may cost.
const STEPS: u64 = 1_000_000;

/// How many steps of the budget a certificate may cost.
const CERTIFYING: u64 = 10_000_000;

/// Whether the clauses get a certificate that the checker accepts.
fn is_certified(alloc: Global, circuit: &Model, clauses: &[Seq<Lit>]) -> Result<bool, Fail> {
    let mut budget = Budget::new(CERTIFYING);
    match certify(alloc, circuit, Property::Bad(0), clauses, &mut budget)? {
        Certified::Certificate(certificate) => Ok(check(alloc, circuit, &certificate).is_ok()),
        _ => Ok(false),
    }
}

/// Whether this solver finds an invariant of equal latches that gets a certificate.
fn is_found_by<S: PartSat>(mut solver: S, alloc: Global, circuit: &Model) -> Result<bool, Fail>
    requires { IsForBad circuit.now }
{
    match correspond(
        &mut solver,
        alloc,
        circuit,
        &mut 0,
        &mut Silent,
        &mut Budget::new(STEPS),
    )? {
        Some(Correspondence::Invariant(clauses)) => {
            is_certified(alloc, circuit, clauses.as_slice())
        }
        _ => Ok(false),
    }
}

/// The same of the circuit of a text.
fn is_found(alloc: Global, text: &[u8]) -> Result<bool, Fail> {
    let circuit = circuit(alloc, text)?;
    is_found_by(Cdcl::new(alloc), alloc, &circuit)
}

#[test]
fn finds_equal_registers(rt: HostRuntime) -> Result<(), Fail> {
    for (text, wanted) in &WORKED {
        assert!(rt; is_found(rt.alloc(), text)? == *wanted, "{text:?}");
    }
    Ok(())
}
