//! IC3 tells how far it has come. `cases/texts.tsv` has what it finds in worked circuits.

ghost use Rattle.engine.specs.Findings.{IsForBad};

use crate::bounded::circuit;
use base::Budget;
use cdcl::Cdcl;
use engine::{Engine, Progress};
use graph::Model;
use ic3::Ic3;
use solver::{PartSat, Plain};
use std::alloc::Global;
use std::test::Fail;

/// A latch that holds.
static HOLD: &[u8] = b"aag 1 0 1 0 0 1\n2 2\n2\n";

/// How many steps of the budget a search may cost.
const STEPS: u64 = 100_000;

/// The progress of a search: the last frame, how many clauses the frames had then, and how many queries.
#[derive(Drop)]
struct Told {
    frame: u32,
    clauses: usize,
    queries: u32,
}

impl Told {
    /// Whether two frames were opened, the last of which had one clause then, after four queries.
    fn is_two_frames(&self) -> bool {
        self.frame == 2 && self.clauses == 1 && self.queries == 4
    }
}

impl Progress for Told {
    fn frame_opened(&mut self, frame: u32, clauses: usize, _budget: &Budget) {
        self.frame = frame;
        self.clauses = clauses;
    }

    fn depth_begun(&mut self, _steps: u32, _variables: u32, _budget: &Budget) {}

    fn query_asked(&mut self, _budget: &Budget) {
        self.queries = self.queries.saturating_add(1);
    }

    fn round_begun(&mut self, _round: u64, _clauses: usize, _budget: &Budget) {}
}

/// The progress of the search in the circuit by this solver.
fn told_by<S: PartSat>(alloc: Global, solver: S, circuit: &Model) -> Result<Told, Fail>
    requires { IsForBad circuit.now }
{
    let nothing = Told {
        frame: 0,
        clauses: 0,
        queries: 0,
    };
    let mut engine = Ic3::new(solver).with_progress(nothing);
    engine.find(alloc, circuit, &mut Budget::new(STEPS))?;
    Ok(engine.into_progress())
}

/// The progress of the search in the circuit of a text by this solver.
fn told_of<S: PartSat>(alloc: Global, solver: S, text: &[u8]) -> Result<Told, Fail> {
    let circuit = circuit(alloc, text)?;
    told_by(alloc, solver, &circuit)
}

/// Frame 0 excludes the bad literal. In frame 1 the state with the latch set is blocked, by one
/// clause; asked again, it excludes the bad literal. Frame 2 has the clause too.
#[test]
fn tells_how_far_it_has_come(rt: HostRuntime) -> Result<(), Fail> {
    assert!(rt; told_of(rt.alloc(), Cdcl::new(rt.alloc()), HOLD)?.is_two_frames());
    assert!(rt; told_of(rt.alloc(), Plain::new(rt.alloc()), HOLD)?.is_two_frames());
    Ok(())
}
