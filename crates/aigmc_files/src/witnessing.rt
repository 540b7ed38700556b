//! The witness circuits of what shows a property.

use crate::claimed::listed;
use crate::exit_error::{ExitError, Role, about};
use crate::files::is_taken;
use crate::fitted::Fitted;
use aiger::Layout;
use base::{Lists, Seq};
use graph::{Gate, Latch, Lit, Model, Property};
use std::alloc::Global;
use witness_circuits::witness_of;

/// Refuses a justice property.
pub fn expect_safety(rt: &HostRuntime, property: Property) -> Result<(), ExitError> {
    if !matches!(property, Property::Justice(_)) {
        return Ok(());
    }
    let _ = eprintln!(rt; "aigmc: there are no witness circuits of justice properties");
    Err(ExitError::Told)
}

/// Refuses a file for a witness circuit whose name asks for no layout, or that is taken.
pub fn expect_witness_file(rt: &HostRuntime, circuit: &str, out: &str) -> Result<(), ExitError> {
    if Layout::of_name(out).is_none() {
        return Err(ExitError::BadArgument);
    }
    if is_taken(rt, circuit, out) {
        return Err(ExitError::Taken);
    }
    Ok(())
}

/// The witness circuit of clauses over the circuit with these latches and gates, as the layout takes it.
pub fn fitted_witness(
    alloc: Global,
    circuit: &Model,
    property: Property,
    latches: &[Latch],
    gates: &[Gate],
    invariant: &Lists<Lit>,
    layout: Layout,
) -> Result<Fitted, ExitError> {
    let witness = witness_of(alloc, circuit, property, latches, gates, invariant);
    let witness = about(Role::Circuit, witness.map_err(ExitError::from))?;
    let fitted = Fitted::of(alloc, witness, layout)?;
    Ok(fitted)
}

/// The witness circuit of clauses over the circuit, as the file of this name takes it.
pub fn witness_in(
    alloc: Global,
    circuit: &Model,
    property: Property,
    clauses: &[Seq<Lit>],
    out: &str,
) -> Result<Fitted, ExitError> {
    let layout = Layout::of_name(out).ok_or(ExitError::BadArgument)?;
    let invariant = listed(alloc, clauses)?;
    fitted_witness(alloc, circuit, property, &[], &[], &invariant, layout)
}
