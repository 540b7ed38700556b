//! The circuit that a certificate speaks of, with the certificate's latches and gates.

ghost use Rattle.std.specs.Prelude.{◌≡◌, ◌+◌, ◌^◌, ◌≤◌, length, IfErr, IfOk, MatchResult};
ghost use Rattle.graph.specs.Circuits.{HasProperty, position_of};
ghost use Rattle.graph.specs.declared.circuit.Property.TheVariants.{Justice};
ghost use Rattle.extension.specs.Extended.{IsExtension};
ghost use Rattle.checker3.specs.Judged.{IsNoExtension};
ghost use Rattle.certify3.specs.Subjects.{HasNoSubject, IsGrownFor, IsNoClaim, IsNoGrowthFor, IsSubject};

use crate::additions::Extension;
use crate::certify_error::CertifyError;
use certificate3::Claim;
use checker3::CheckError;
use extension::{are_few_rounds, count_rounds, extended_parts, is_extension};
use graph::{Lit, MOST_VARIABLES, Model, Property, ReadError};
use inductive_proofs::Subject;
use live_safe::LiveError;
use std::alloc::Global;

/// The greatest variable that a circuit may have.
const MAX_VAR: usize = MOST_VARIABLES as usize;

/// Looks whether the latches and gates extend the circuit within the limit.
fn check_extension(circuit: &Model, extension: Extension) -> Result<(), CheckError>
    ensures { MatchResult result (λ _. IsExtension circuit.now extension.entry.latches.now extension.entry.gates.now × (circuit.now.max_var + length extension.entry.latches.now + length extension.entry.gates.now ≤ 4194303)) (IsNoExtension circuit.now extension.entry.latches.now extension.entry.gates.now) }
{
    circuit.well_formed();
    if circuit.max_var() as usize + extension.latches.len() + extension.gates.len() > MAX_VAR {
        return Err(CheckError::Limit);
    }
    if !is_extension(circuit.parts(), extension.latches, extension.gates) {
        return Err(CheckError::NotExtension);
    }
    Ok(())
}

/// The circuit with latches and gates that extend it within the limit, where it is well formed.
fn extended_model(
    alloc: Global,
    circuit: &Model,
    extension: Extension,
) -> Result<Model, CertifyError>
    requires extends { IsExtension circuit.now extension.latches.now extension.gates.now }
    requires within { circuit.now.max_var + length extension.latches.now + length extension.gates.now ≤ 4194303 }
    ensures grown { IfOk result (IsGrownFor circuit.now extension.entry.latches.now extension.entry.gates.now) }
    ensures refused { IfErr result (IsNoGrowthFor circuit.now extension.entry.latches.now extension.entry.gates.now) }
{
    let parts = extended_parts(alloc, circuit.parts(), extension.latches, extension.gates)?;
    match Model::from_parts(alloc, parts) {
        Ok(model) => Ok(model),
        Err(ReadError::OutOfMemory(refused)) => Err(CertifyError::OutOfMemory(refused)),
        Err(_) => Err(CertifyError::Refused(CheckError::NotExtension)),
    }
}

/// The circuit with the latches and gates, or why there is none.
fn grown(alloc: Global, circuit: &Model, extension: Extension) -> Result<Model, CertifyError>
    ensures grown { IfOk result (IsGrownFor circuit.now extension.entry.latches.now extension.entry.gates.now) }
    ensures refused { IfErr result (IsNoGrowthFor circuit.now extension.entry.latches.now extension.entry.gates.now) }
{
    match check_extension(circuit, extension) {
        Ok(()) => extended_model(alloc, circuit, extension),
        Err(refusal) => Err(CertifyError::Refused(refusal)),
    }
}

/// The refusal of a property that the circuit has not.
fn no_property(property: Property) -> CertifyError
    ensures { result ≡ CertifyError.NoProperty (position_of property) }
{
    let (Property::Bad(n) | Property::Justice(n) | Property::Output(n)) = property;
    CertifyError::NoProperty(n)
}

/// Looks whether the property is there, and no more rounds than states.
fn check_claim(circuit: &Model, claim: Claim) -> Result<(), CertifyError>
    ensures { MatchResult result (λ _. HasProperty circuit.now claim.property × (claim.rounds ≤ 2 ^ length circuit.now.latches)) (IsNoClaim circuit.now claim) }
{
    if !circuit.parts().has_property(claim.property) {
        return Err(no_property(claim.property));
    }
    if !are_few_rounds(claim.rounds, circuit.latches().len()) {
        return Err(CertifyError::Refused(CheckError::TooManyRounds));
    }
    Ok(())
}

/// The circuit that counts the rounds of a justice property that is there, with the latches and gates.
fn counter_for(
    alloc: Global,
    circuit: &Model,
    claim: Claim,
    position: u32,
    extension: Extension,
) -> Result<Subject, CertifyError>
    requires property { claim.property ≡ Justice position }
    requires there { HasProperty circuit.now claim.property }
    requires few { claim.rounds ≤ 2 ^ length circuit.now.latches }
    ensures subject { IfOk result (IsSubject circuit.now claim extension.entry.latches.now extension.entry.gates.now) }
    ensures refused { IfErr result (HasNoSubject circuit.now claim extension.entry.latches.now extension.entry.gates.now) }
{
    match count_rounds(alloc, circuit, position, claim.rounds) {
        Ok(counter) => {
            counter.well_formed();
            let bad = counter.bad()[0];
            let circuit = grown(alloc, &counter, extension)?;
            Ok(Subject { circuit, bad })
        }
        Err(LiveError::OutOfMemory(refused)) => Err(CertifyError::OutOfMemory(refused)),
        Err(LiveError::Limit) => Err(CertifyError::Refused(CheckError::Limit)),
        // the property is there
        Err(LiveError::NoProperty(_)) => unreachable!(),
    }
}

/// The circuit with the latches and gates, for this one of its literals.
fn subject_for(
    alloc: Global,
    circuit: &Model,
    bad: Lit,
    extension: Extension,
) -> Result<Subject, CertifyError>
    ensures subject { IfOk result (λ s. IsGrownFor circuit.now extension.entry.latches.now extension.entry.gates.now s.circuit × (s.bad ≡ bad)) }
    ensures refused { IfErr result (IsNoGrowthFor circuit.now extension.entry.latches.now extension.entry.gates.now) }
{
    let circuit = grown(alloc, circuit, extension)?;
    Ok(Subject { circuit, bad })
}

/// The circuit of which a certificate of the claim speaks, with the latches and gates, and the literal
/// that it excludes.
pub fn subject_of(
    alloc: Global,
    circuit: &Model,
    claim: Claim,
    extension: Extension,
) -> Result<Subject, CertifyError>
    ensures subject { IfOk result (IsSubject circuit.now claim extension.entry.latches.now extension.entry.gates.now) }
    ensures refused { IfErr result (HasNoSubject circuit.now claim extension.entry.latches.now extension.entry.gates.now) }
{
    circuit.well_formed();
    check_claim(circuit, claim)?;
    match claim.property {
        Property::Bad(n) => subject_for(alloc, circuit, circuit.bad()[n as usize], extension),
        Property::Justice(n) => counter_for(alloc, circuit, claim, n, extension),
        Property::Output(n) => subject_for(
            alloc,
            circuit,
            circuit.outputs()[n as usize],
            extension,
        ),
    }
}
