//! Worked circuits: what bounded search counts and folds. `cases/texts.tsv` has the runs that it finds in them.

ghost use Rattle.std.specs.Prelude.{IfOk};
ghost use Rattle.engine.specs.Findings.{IsForBad};

use aag::read;
use base::Budget;
use bmc::Bmc;
use cdcl::Cdcl;
use engine::{Counters, Engine, Finding, Reason, Silent};
use graph::{Model, ReadError};
use solver::Plain;
use std::alloc::Global;
use std::test::Fail;

/// Circuits, how many steps a run may have, and how many times the shortest one has that sets the bad
/// literal, 0 where there is none.
static WORKED: [(&[u8], u8, usize); 7] = [
    // a latch that toggles
    (b"aag 1 0 1 0 0 1\n2 3\n2\n", 20, 2),
    // a latch that holds
    (b"aag 1 0 1 0 0 1\n2 2\n2\n", 20, 0),
    // two latches that are never 1 at once
    (
        b"aag 5 0 2 0 3 1\n2 6\n4 8\n10\n6 3 5\n8 2 5\n10 2 4\n",
        20,
        0,
    ),
    // two bits that count
    (
        b"aag 6 0 2 0 4 1\n2 3\n4 11\n12\n6 2 5\n8 3 4\n10 7 9\n12 2 4\n",
        3,
        4,
    ),
    (
        b"aag 6 0 2 0 4 1\n2 3\n4 11\n12\n6 2 5\n8 3 4\n10 7 9\n12 2 4\n",
        2,
        0,
    ),
    // a latch without a reset
    (b"aag 1 0 1 0 0 1\n2 2 2\n2\n", 20, 1),
    // bad is an input that the constraint forbids
    (b"aag 1 1 0 0 0 1 1\n2\n2\n3\n", 20, 0),
];

/// The circuit of a text, with its first bad literal.
pub fn circuit(alloc: Global, text: &[u8]) -> Result<Model, ReadError>
    ensures { IfOk result IsForBad }
{
    let file = read(alloc, text)?;
    file.model().for_bad(alloc, 0)
}

/// How many times the run has that the engine finds within a budget of `steps`, 0 where there is none.
fn times<E: Engine>(
    mut engine: E,
    alloc: Global,
    circuit: &Model,
    steps: u64,
) -> Result<Option<usize>, Fail>
    requires { IsForBad circuit.now }
{
    match engine.find(alloc, circuit, &mut Budget::new(steps))? {
        Finding::Run { inputs, .. } => Ok(Some(inputs.len())),
        Finding::Unknown(Reason::Depth(_)) => Ok(Some(0)),
        _ => Ok(None),
    }
}

/// Bounded search by backtracking.
fn by_backtracking(alloc: Global, depth: u8) -> Bmc<Plain, Silent> {
    let (solver, questions) = (Plain::new(alloc), Plain::new(alloc));
    Bmc::new(alloc, solver, questions, u32::from(depth))
}

/// The same of the circuit of a text, by backtracking.
fn times_of(alloc: Global, text: &[u8], depth: u8, steps: u64) -> Result<Option<usize>, Fail> {
    let circuit = circuit(alloc, text)?;
    times(by_backtracking(alloc, depth), alloc, &circuit, steps)
}

/// Where nothing is open, all is folded to constants: a budget suffices that no search is within.
#[test]
fn folds_constants(rt: HostRuntime) -> Result<(), Fail> {
    assert!(rt; times_of(rt.alloc(), WORKED[3].0, 3, 200)? == Some(4));
    Ok(())
}

/// What the engine's search through the circuit counts under this name.
fn counted<E: Engine>(
    mut engine: E,
    alloc: Global,
    circuit: &Model,
    name: &str,
) -> Result<u64, Fail>
    requires { IsForBad circuit.now }
{
    engine.find(alloc, circuit, &mut Budget::new(10_000_000))?;
    let mut counters = Counters::new(alloc);
    engine.count(&mut counters)?;
    let named = counters
        .as_slice()
        .iter()
        .find(|counter| counter.name == name);
    Ok(named.map_or(0, |counter| counter.count))
}

/// How many the bounded search through the circuit of a text counts, up to a depth.
fn queries_of(alloc: Global, text: &[u8], depth: u8) -> Result<u64, Fail> {
    let circuit = circuit(alloc, text)?;
    counted(by_backtracking(alloc, depth), alloc, &circuit, "queries")
}

/// One for each number of steps: as many as the run has times, or as the depth says.
#[test]
fn counts_its_queries(rt: HostRuntime) -> Result<(), Fail> {
    for (text, depth, times) in &WORKED {
        let all = if *times == 0 {
            usize::from(*depth) + 1
        } else {
            *times
        };
        assert!(rt;
            queries_of(rt.alloc(), text, *depth)? == all as u64,
            "{text:?}"
        );
    }
    Ok(())
}

/// Two halves, each with a latch for the parity of eight inputs at all times, by gates of which none tells what one of the other
/// half does.
static HALVES: &[u8] =
    b"aag 61 8 2 0 51 1\n2\n4\n6\n8\n10\n12\n14\n16\n18 68\n20 116\n122\n22 4 2\n24 5 3\n26 25 23\n\
    28 8 6\n30 9 7\n32 31 29\n34 12 10\n36 13 11\n38 37 35\n40 16 14\n42 17 15\n44 43 41\n46 32 26\n\
    48 33 27\n50 49 47\n52 44 38\n54 45 39\n56 55 53\n58 56 50\n60 57 51\n62 61 59\n64 62 18\n\
    66 63 19\n68 67 65\n70 20 16\n72 21 17\n74 73 71\n76 74 14\n78 75 15\n80 79 77\n82 80 12\n\
    84 81 13\n86 85 83\n88 86 10\n90 87 11\n92 91 89\n94 92 8\n96 93 9\n98 97 95\n100 98 6\n\
    102 99 7\n104 103 101\n106 104 4\n108 105 5\n110 109 107\n112 110 2\n114 111 3\n116 115 113\n\
    118 20 18\n120 21 19\n122 121 119\n";

/// SAT sweeping merges the halves.
#[test]
fn merges_equal_halves(rt: HostRuntime) -> Result<(), Fail> {
    let alloc = rt.alloc();
    let circuit = circuit(alloc, HALVES)?;
    let engine = Bmc::new(alloc, Cdcl::new(alloc), Cdcl::new(alloc), 8);
    assert!(rt; counted(engine, alloc, &circuit, "merged")? > 0);
    Ok(())
}
