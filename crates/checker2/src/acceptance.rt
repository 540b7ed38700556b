//! Whether a certificate is accepted.

ghost use Rattle.std.specs.Prelude.{◌≡◌, ◌≢◌, Contains, IfErr, OnOk};
ghost use Rattle.base.specs.Witness.{witness};
ghost use Rattle.graph.specs.declared.circuit.Property.TheVariants.{Justice};
ghost use Rattle.graph.specs.Circuits.{position_of, IsUpheld};
ghost use Rattle.graph.specs.WellFormed.{used};
ghost use Rattle.checker2.specs.Accepted.{IsAcceptedFor, IsAcceptedCertificate};
ghost use Rattle.checker2.specs.Causes.{HasCause, HasCauseFor};
ghost use Rattle.checker2.specs.declared.check_error.CheckError.TheVariants.{OutOfMemory};

use crate::check_error::CheckError;
use crate::invariant::check_clauses;
use crate::sections::check_sections;
use certificate::Certificate;
use cnf::NextTable;
use graph::{Lit, MOST_VARIABLES, Model, Property};
use live_safe::{LiveError, to_safety};
use std::alloc::Global;

/// The most clauses that an invariant may have.
const MOST_CLAUSES: usize = MOST_VARIABLES as usize;

/// Looks for the first cause for this one of the circuit's literals, which no run is to set.
fn examine(
    alloc: Global,
    circuit: &Model,
    bad: Lit,
    certificate: &Certificate,
) -> Result<(), CheckError>
    requires { Contains (used circuit.now) bad }
    ensures accepted { OnOk result (IsAcceptedFor circuit.now bad certificate.now) }
    ensures refused { IfErr result (HasCauseFor circuit.now bad certificate.now) }
{
    let invariant = certificate.invariant.as_slice();
    let sections = certificate.sections.as_slice().len();
    if invariant.len() > MOST_CLAUSES {
        return Err(CheckError::Limit);
    }
    if sections != 2 * invariant.len() + 1 {
        return Err(CheckError::Sections {
            found: sections as u64,
        });
    }
    circuit.well_formed();
    let table = NextTable::new(alloc, circuit)?;
    check_clauses(alloc, circuit, &table, invariant)?;
    check_sections(alloc, circuit, &table, certificate, bad)
}

/// Looks for the first cause where the certificate speaks of the justice property at position `n`:
/// of the one bad literal of its shadow circuit.
fn examine_justice(
    alloc: Global,
    circuit: &Model,
    n: u32,
    certificate: &Certificate,
) -> Result<(), CheckError>
    requires { certificate.now.property ≡ Justice n }
    ensures accepted { OnOk result (IsAcceptedCertificate circuit.now certificate.now) }
    ensures refused { IfErr result (HasCause circuit.now certificate.now) }
{
    match to_safety(alloc, circuit, n) {
        Ok(shadow) => examine(alloc, &shadow, shadow.bad()[0], certificate),
        Err(LiveError::NoProperty(_)) => Err(CheckError::NoProperty { property: n }),
        Err(LiveError::Limit) => Err(CheckError::Limit),
        Err(LiveError::OutOfMemory(refused)) => Err(CheckError::OutOfMemory(refused)),
    }
}

/// The refusal of a property that the circuit has not.
pub fn no_property(property: Property) -> CheckError
    ensures { result ≡ CheckError.NoProperty (position_of property) }
{
    let (Property::Bad(n) | Property::Justice(n) | Property::Output(n)) = property;
    CheckError::NoProperty { property: n }
}

/// Looks for the first cause: the property, and then what there is for its circuit and literal.
fn examine_property(
    alloc: Global,
    circuit: &Model,
    certificate: &Certificate,
) -> Result<(), CheckError>
    ensures accepted { OnOk result (IsAcceptedCertificate circuit.now certificate.now) }
    ensures refused { IfErr result (HasCause circuit.now certificate.now) }
{
    let property = certificate.property;
    if !circuit.parts().has_property(property) {
        return Err(no_property(property));
    }
    match property {
        Property::Bad(n) => examine(alloc, circuit, circuit.bad()[n as usize], certificate),
        Property::Justice(n) => examine_justice(alloc, circuit, n, certificate),
        Property::Output(n) => examine(alloc, circuit, circuit.outputs()[n as usize], certificate),
    }
}

/// Whether the certificate is accepted for the circuit: the circuit has its property, its clauses are
/// over latches, its lemmas, where there are some, follow from what the step cases and the bad case
/// share, and each section is an accepted proof that nothing satisfies its case. For a justice
/// property the clauses and cases are those of the shadow circuit. Then no run of the circuit that
/// keeps the constraints sets the bad literal, or the output that is taken as one, at any time, or
/// holds more rounds of the justice property than the circuit has states. A refusal has the first
/// cause, in the order of the certificate's text: the property, the number of clauses and that of
/// sections, the clauses, the lemmas, the sections of the cases.
///
/// It costs the certificate's length and one circuit.
pub fn check(alloc: Global, circuit: &Model, certificate: &Certificate) -> Result<(), CheckError>
    ensures accepted { OnOk result (IsAcceptedCertificate circuit.now certificate.now) }
    ensures refused { IfErr result (HasCause circuit.now certificate.now) }
    ensures complete { IfErr result (λ e. e ≢ OutOfMemory witness → IsAcceptedCertificate circuit.now certificate.now → ⊥) }
    ensures upheld { OnOk result (IsUpheld circuit.now certificate.now.property) }
{
    circuit.well_formed();
    examine_property(alloc, circuit, certificate)
}
