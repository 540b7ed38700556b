//! What every engine keeps to.

ghost use Rattle.std.specs.Prelude.{IfOk, Result};
ghost use Rattle.base.specs.Budget.{Spends, Steps};
ghost use Rattle.graph.specs.declared.parts.Parts.{Parts};
ghost use Rattle.engine.specs.Findings.{IsForBad, IsSo};
ghost use Rattle.engine.specs.declared.engine_error.EngineError.{EngineError};
ghost use Rattle.engine.specs.declared.finding.Finding.{Finding};

use crate::counters::Counters;
use crate::engine_error::EngineError;
use crate::finding::Finding;
use base::{Budget, Refused};
use graph::Model;
use std::alloc::Global;

/// What looks for evidence about circuits with one bad literal.
pub trait Engine: Drop {
    /// what this engine answers is so
    ghost honest: { Self → Type 0 };

    /// what this engine may answer when it is asked: about a circuit, with so much of the budget, so, with so much left
    ghost answers: { Self → Parts → Steps → Result Finding EngineError → Steps → Type 0 };

    /// Looks for a run that sets the circuit's bad literal, or for an invariant that excludes it. It
    /// begins anew each time, after a refusal too.
    fn find(
        &mut self,
        alloc: Global,
        circuit: &Model,
        budget: &mut Budget,
    ) -> Result<Finding, EngineError>
        requires { IsForBad circuit.now }
        ensures spends { Spends budget.old budget.new }
        ensures stays { honest self.old → honest self.new }
        ensures so { honest self.old → IfOk result (IsSo circuit.now budget.new) }
        ensures answered { answers self.old circuit.now budget.old result budget.new };

    /// Adds what it counted since it was made. The only refusal is out of memory.
    fn count(&self, counters: &mut Counters) -> Result<(), Refused>;
}
