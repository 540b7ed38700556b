//! From clauses to a certificate.

ghost use Rattle.std.specs.Prelude.{◌≡◌, IfErr, IfOk, MatchOption};
ghost use Rattle.base.specs.Budget.{Spends};
ghost use Rattle.graph.specs.Circuits.{HasProperty, IsWatched};
ghost use Rattle.graph.specs.declared.circuit.Lit.{Lit as ALit};
ghost use Rattle.verdict.specs.Causes.{HasCause};
ghost use Rattle.shown.specs.Shown.{IsMeant, IsShown};

use base::Budget;
use certify3::Extension;
use engine::Progress;
use graph::{Lit, Model, Property};
use induction_windows::{Extended, Found, find_clauses};
use shown::{Cause, Shown, no_property, refusal, show};
use solver::Sat;
use std::alloc::Global;
use verdict::DecideError;

/// The literal that a property watches, where the circuit has that bad literal, or that output as one.
fn watched(circuit: &Model, property: Property) -> Option<Lit>
    ensures { MatchOption result ((a : ALit) → IsWatched circuit.now property a → ⊥) (IsWatched circuit.now property) }
{
    match property {
        Property::Bad(n) => circuit.bad().get(n as usize).copied(),
        Property::Output(n) if circuit.parts().are_outputs_bad() => {
            circuit.outputs().get(n as usize).copied()
        }
        _ => None,
    }
}

/// What clauses over the circuit with further latches show.
fn shown_by(
    alloc: Global,
    circuit: &Model,
    property: Property,
    extended: &Extended,
    budget: &mut Budget,
) -> Result<Shown, DecideError>
    requires there { HasProperty circuit.now property }
    ensures spends { Spends budget.old budget.new }
    ensures shown { IfOk result (IsShown circuit.now property) }
    ensures meant { IfOk result (IsMeant budget.new) }
    ensures refused { IfErr result (HasCause circuit.now property) }
{
    let extension = Extension {
        latches: extended.latches.as_slice(),
        gates: &[],
    };
    let clauses = extended.clauses.as_slice();
    show(alloc, circuit, property, extension, clauses, budget)
}

/// Looks for a window of at most so many times, and what it shows. Where none is long enough, the property may hold all the same.
///
/// The solver is not believed: clauses that it comes to are proved, and the text of the certificate is answered only where it is
/// accepted. A property that isn't there is refused before all else. Of a justice property nothing is known so.
///
/// It takes what the property's literal and the constraints rest on once for each time, and in the end the certificate.
pub fn decide_by_induction<S: Sat, P: Progress>(
    alloc: Global,
    circuit: &Model,
    property: Property,
    solver: &mut S,
    most: u8,
    progress: &mut P,
    budget: &mut Budget,
) -> Result<Shown, DecideError>
    ensures spends { Spends budget.old budget.new }
    // Whatever the solver answers, what is said to hold has its evidence.
    ensures shown { IfOk result (IsShown circuit.now property) }
    // A budget that is said to be exhausted is.
    ensures meant { IfOk result (IsMeant budget.new) }
    ensures refused { IfErr result (HasCause circuit.now property) }
{
    if !circuit.parts().has_property(property) {
        return Err(no_property(property));
    }
    circuit.well_formed();
    let Some(bad) = watched(circuit, property) else {
        return Ok(Shown::Unknown(Cause::Open));
    };
    match find_clauses(alloc, circuit, bad, solver, most, progress, budget) {
        Ok(Found::Clauses(extended)) => shown_by(alloc, circuit, property, &extended, budget),
        Ok(Found::Open) => Ok(Shown::Unknown(Cause::Open)),
        Ok(Found::TooMany) => Ok(Shown::Unknown(Cause::Variables)),
        Ok(Found::Spent) => Ok(Shown::Unknown(Cause::Budget)),
        Err(error) => Err(refusal(error)),
    }
}
