//! The invariant that is found, without clauses that the proof does not need.

ghost use Rattle.std.specs.Prelude.{IfOk};
ghost use Rattle.base.specs.Budget.{Spends};
ghost use Rattle.cnf.specs.Invariants.{IsInvariant};
ghost use Rattle.engine.specs.Findings.{IsForBad};

use crate::frame_solver::FrameSolver;
use base::{Budget, Seq};
use engine::EngineError;
use graph::{Lit, Model};
use solver::PartSat;
use std::alloc::Global;

impl<S: PartSat> FrameSolver<S> {
    /// The clauses of an invariant that the proof needs, in their order. It asks a query for each of them, and one
    /// more. Where the budget does not suffice, all clauses stay. The frames are to be loaded again after that.
    pub fn reduced(
        &mut self,
        alloc: Global,
        circuit: &Model,
        clauses: Seq<Seq<Lit>>,
        budget: &mut Budget,
    ) -> Result<Seq<Seq<Lit>>, EngineError>
        requires for_bad { IsForBad circuit.now }
        requires invariant { IsInvariant circuit.now clauses }
        ensures spends { Spends budget.old budget.new }
        ensures invariant { IfOk result (IsInvariant circuit.now) }
    {
        circuit.well_formed();
        let bad = circuit.bad()[0];
        let transition = &mut self.transition;
        let subset = transition.safe_subset(alloc, circuit, clauses.as_slice(), bad, budget)?;
        match subset {
            Some(needed) => Ok(needed),
            None => Ok(clauses),
        }
    }
}
