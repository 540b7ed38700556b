//! Proof obligations: cubes of states that lead to the bad literal, and are to be blocked.

ghost use Rattle.std.specs.Prelude.{◌≡◌, ◌∷◌, [], true, None, Some, IfOk, OnOk};
ghost use Rattle.engine.specs.Findings.{IsForBad};
ghost use Rattle.graph.specs.Circuits.{Valuation, value_of, next_state};
ghost use Rattle.cnf.specs.Formulas.{bad_literal};
ghost use Rattle.states.specs.States.{Denies};
ghost use Rattle.ic3_step.specs.States.{IsAt};
ghost use Rattle.ic3_step.specs.Steps.{denials_of};
ghost use Rattle.ic3_frames.specs.Frames.{IsStateClause};
ghost use Rattle.ic3_blocking.specs.Cubes.{IsReady, ArePredecessors, AreBad};
ghost use Rattle.ic3_blocking.specs.Answers.{IsObligation};

use crate::lift::Lifting;
use base::{Refused, Seq};
use graph::Model;
use ic3_step::{Assignment, denials};
use states::StateLit;
use std::alloc::Global;

/// A cube of states that lead to the bad literal.
#[derive(Drop)]
pub(crate) struct Obligation {
    /// one of the states
    pub state: Seq<bool>,
    /// the inputs with which each of the states leads on
    pub inputs: Seq<bool>,
    /// false in the states of the cube alone
    pub clause: Seq<StateLit>,
    /// where the obligation is of whose states they are predecessors, if they are not bad
    pub next: Option<usize>,
}

/// The states that set the bad literal as the time does.
pub(crate) fn obligation_at(
    alloc: Global,
    circuit: &Model,
    lifting: &mut Lifting,
    time: Assignment,
) -> Result<Obligation, Refused>
    requires for_bad { IsForBad circuit.now }
    requires ready { IsReady circuit.now lifting.old }
    requires at { (w : Valuation) × IsAt circuit.now (bad_literal circuit.now 0 ∷ []) w time × (value_of w (bad_literal circuit.now 0) ≡ true) }
    ensures ready { OnOk result (IsReady circuit.now lifting.new) }
    ensures obligation { IfOk result (IsObligation circuit.now) }
    ensures bad { IfOk result (λ o. AreBad circuit.now o.clause o.inputs) }
    ensures next { IfOk result (λ o. o.next ≡ None) }
{
    circuit.well_formed();
    let clause = lifting.lift(alloc, circuit, &time, circuit.bad())?;
    let Assignment { state, inputs, .. } = time;
    Ok(Obligation {
        state,
        inputs,
        clause,
        next: None,
    })
}

/// The states that are predecessors of those of an obligation, the one at `next`, as the state of the time is.
pub(crate) fn obligation_before(
    alloc: Global,
    circuit: &Model,
    lifting: &mut Lifting,
    time: Assignment,
    after: &Obligation,
    next: usize,
) -> Result<Obligation, Refused>
    requires ready { IsReady circuit.now lifting.old }
    requires clause { IsStateClause circuit.now after.now.clause }
    requires at { (w : Valuation) × IsAt circuit.now (denials_of circuit.now.latches after.now.clause) w time × Denies (next_state circuit.now w) after.now.clause }
    ensures ready { OnOk result (IsReady circuit.now lifting.new) }
    ensures obligation { IfOk result (IsObligation circuit.now) }
    ensures predecessors { IfOk result (λ o. ArePredecessors circuit.now o.clause o.inputs after.now.clause) }
    ensures next { IfOk result (λ o. o.next ≡ Some next) }
{
    circuit.well_formed();
    let targets = denials(alloc, circuit.latches(), after.clause.as_slice())?;
    let clause = lifting.lift(alloc, circuit, &time, targets.as_slice())?;
    let Assignment { state, inputs, .. } = time;
    Ok(Obligation {
        state,
        inputs,
        clause,
        next: Some(next),
    })
}
