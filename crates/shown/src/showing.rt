//! From clauses to a certificate.

ghost use Rattle.std.specs.Prelude.{◌≡◌, IfErr, IfOk};
ghost use Rattle.base.specs.Budget.{Spends};
ghost use Rattle.graph.specs.Circuits.{HasProperty};
ghost use Rattle.verdict.specs.Causes.{HasCause};
ghost use Rattle.shown.specs.Shown.{IsHonest, IsMeant, IsShown, found_on};

use crate::answer::{Cause, Shown};
use base::{Budget, Lists, Refused, Seq};
use certificate3::Claim;
use certify3::{Certified, CertifyError, Effort, Extension, certify};
use extension::accepted_law;
use graph::{Lit, Model, Property};
use std::alloc::Global;
use verdict::DecideError;

/// The clauses, in one list.
fn listed(alloc: Global, clauses: &[Seq<Lit>]) -> Result<Lists<Lit>, Refused>
    ensures { IfOk result (λ l. l ≡ clauses.now) }
{
    let mut listed = Lists::new(alloc);
    for clause in clauses {
        listed.push(clause.as_slice())?;
    }
    Ok(listed)
}

/// What comes of a certificate of clauses, or of why there is none. A fault of theirs only makes them no evidence.
fn of_certified(certified: Result<Certified, CertifyError>) -> Result<Shown, DecideError>
    ensures { result ≡ found_on certified }
{
    match certified {
        Ok(Certified::Certificate(text)) => Ok(Shown::Holds(text)),
        Ok(Certified::NotInvariant(_)) => Ok(Shown::Unknown(Cause::Open)),
        Ok(Certified::Spent) => Ok(Shown::Unknown(Cause::Budget)),
        Ok(Certified::Unaccepted) => Ok(Shown::Unknown(Cause::Unaccepted)),
        Err(CertifyError::TooMany) => Err(DecideError::Limit),
        Err(CertifyError::IdsTaken(full)) => Err(DecideError::IdsTaken(full)),
        Err(CertifyError::OutOfMemory(refused)) => Err(DecideError::OutOfMemory(refused)),
        Err(CertifyError::NoProperty(_)) => Ok(Shown::Unknown(Cause::Open)),
        Err(CertifyError::Refused(_)) => Ok(Shown::Unknown(Cause::Open)),
        Err(CertifyError::Repeated { .. }) => Ok(Shown::Unknown(Cause::Open)),
    }
}

/// What clauses over the circuit with these latches and gates show of a property: a certificate of version 3, where it is
/// accepted. The clauses are not believed. What is no extension, or no clauses over it, shows nothing.
///
/// It holds what `certify3::certify` holds.
pub fn show(
    alloc: Global,
    circuit: &Model,
    property: Property,
    extension: Extension,
    clauses: &[Seq<Lit>],
    budget: &mut Budget,
) -> Result<Shown, DecideError>
    requires there { HasProperty circuit.now property }
    ensures spends { Spends budget.old budget.new }
    // Whoever wrote the clauses, what is said to hold has its evidence.
    ensures shown { IfOk result (IsShown circuit.now property) }
    // What is inductive is never called open.
    ensures honest { IfOk result (IsHonest circuit.now property extension.entry.latches.now extension.entry.gates.now clauses.now) }
    // A budget that is said to be exhausted is.
    ensures meant { IfOk result (IsMeant budget.new) }
    ensures refused { IfErr result (HasCause circuit.now property) }
{
    circuit.well_formed();
    accepted_law();
    let claim = Claim {
        property,
        rounds: 0,
    };
    let invariant = listed(alloc, clauses)?;
    let effort = Effort::Quick;
    of_certified(certify(alloc, circuit, claim, extension, invariant, effort, budget))
}
