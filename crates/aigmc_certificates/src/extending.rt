//! The latches and gates that a circuit has beyond another one.

use aigmc_files::{Claimed, ExitError, Role, about, listed};
use base::{Refused, Seq};
use certificate3::{Claim, Format};
use graph::{Lit, Model, Property};
use std::alloc::Global;

/// The number of latches and gates that extend nothing.
const NO_EXTENSION: u8 = 54;

/// Whether the circuit has the other's inputs and constraints, and begins with its latches and gates.
fn is_begun_by(extended: &Model, circuit: &Model) -> bool {
    extended.inputs() == circuit.inputs()
        && extended.constraints() == circuit.constraints()
        && extended.latches().starts_with(circuit.latches())
        && extended.gates().starts_with(circuit.gates())
}

/// The claim of the clauses, with what the extended circuit has beyond the circuit.
fn beyond(
    alloc: Global,
    circuit: &Model,
    extended: &Model,
    property: Property,
    clauses: &[Seq<Lit>],
) -> Result<Claimed, Refused> {
    let latches = circuit.latches().len().min(extended.latches().len());
    let gates = circuit.gates().len().min(extended.gates().len());
    Ok(Claimed {
        format: Format::Three,
        claim: Claim {
            property,
            rounds: 0,
        },
        latches: Seq::from_slice(alloc, &extended.latches()[latches..])?,
        gates: Seq::from_slice(alloc, &extended.gates()[gates..])?,
        invariant: listed(alloc, clauses)?,
    })
}

/// The claim of the clauses over the extended circuit, which is to begin with the circuit.
pub fn claimed_over(
    rt: &HostRuntime,
    circuit: &Model,
    extended: &Model,
    property: Property,
    clauses: Seq<Seq<Lit>>,
) -> Result<Claimed, ExitError> {
    if !is_begun_by(extended, circuit) {
        let fault = ExitError::Fault {
            number: NO_EXTENSION,
            place: 0,
        };
        return about(Role::Other, Err(fault));
    }
    Ok(beyond(rt.alloc(), circuit, extended, property, clauses.as_slice())?)
}
