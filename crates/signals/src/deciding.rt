//! From equal signals to a certificate.

ghost use Rattle.std.specs.Prelude.{IfErr, IfOk, OnOk};
ghost use Rattle.base.specs.Budget.{Spends};
ghost use Rattle.graph.specs.Circuits.{HasProperty};
ghost use Rattle.verdict.specs.Causes.{HasCause};
ghost use Rattle.shown.specs.Shown.{IsMeant, IsShown};

use base::{Budget, Seq};
use certify3::Extension;
use engine::Progress;
use graph::{Lit, Model, Property};
use shown::{Cause, Shown, no_property, refusal, show};
use signal_rounds::{Found, find_equal_signals};
use solver::PartSat;
use std::alloc::Global;
use verdict::DecideError;

/// The literal that the property watches, if it watches one.
fn watched(circuit: &Model, property: Property) -> Option<Lit> {
    match property {
        Property::Bad(n) => circuit.bad().get(n as usize).copied(),
        Property::Output(n) => circuit.outputs().get(n as usize).copied(),
        Property::Justice(_) => None,
    }
}

/// What clauses over the circuit show.
fn shown_by(
    alloc: Global,
    circuit: &Model,
    property: Property,
    clauses: &[Seq<Lit>],
    budget: &mut Budget,
) -> Result<Shown, DecideError>
    requires there { HasProperty circuit.now property }
    ensures spends { Spends budget.old budget.new }
    ensures shown { IfOk result (IsShown circuit.now property) }
    ensures meant { IfOk result (IsMeant budget.new) }
    ensures refused { IfErr result (HasCause circuit.now property) }
{
    let extension = Extension {
        latches: &[],
        gates: &[],
    };
    show(alloc, circuit, property, extension, clauses, budget)
}

/// Looks for signals of the circuit that are equal at each time, and whether they exclude the property's literal. The solver is not
/// believed: clauses that it comes to are proved, and the text of the certificate is answered only where it is accepted. A
/// property that isn't there is refused before all else. Of a justice property nothing is known so.
///
/// It takes the circuit twice, with its clauses, and in the end the certificate.
pub fn decide_signals<S: PartSat, P: Progress>(
    alloc: Global,
    circuit: &Model,
    property: Property,
    solver: &mut S,
    progress: &mut P,
    budget: &mut Budget,
) -> Result<Shown, DecideError>
    ensures spends { Spends budget.old budget.new }
    // Whatever the solver answers, what is said to hold has its evidence.
    ensures shown { IfOk result (IsShown circuit.now property) }
    // A budget that is said to be exhausted is.
    ensures meant { IfOk result (IsMeant budget.new) }
    ensures exists { OnOk result (HasProperty circuit.now property) }
    ensures refused { IfErr result (HasCause circuit.now property) }
{
    if !circuit.parts().has_property(property) {
        return Err(no_property(property));
    }
    let Some(bad) = watched(circuit, property) else {
        return Ok(Shown::Unknown(Cause::Open));
    };
    match find_equal_signals(alloc, circuit, bad, solver, progress, budget) {
        Ok(Found::Clauses(clauses)) => shown_by(
            alloc,
            circuit,
            property,
            clauses.as_slice(),
            budget,
        ),
        Ok(Found::Open) => Ok(Shown::Unknown(Cause::Open)),
        Ok(Found::Variables) => Ok(Shown::Unknown(Cause::Variables)),
        Ok(Found::Spent) => Ok(Shown::Unknown(Cause::Budget)),
        Err(error) => Err(refusal(error)),
    }
}
