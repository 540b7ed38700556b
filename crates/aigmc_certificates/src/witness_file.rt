//! The witness circuit of `adopt-witness`, of whose latches each may have any literal as its reset.

ghost use Rattle.std.specs.Prelude.{◌≡◌, IfErr, IfOk, drop};
ghost use Rattle.graph.specs.WellFormed.{IsWellFormed};
ghost use Rattle.reset_functions.specs.Begun.{RunsAs};
ghost use Rattle.reset_functions.specs.Made.{head, with_gates};
ghost use Rattle.witness_adoption.specs.Adoptions.{IsAdopted};
ghost use Rattle.aigmc_certificates.specs.WitnessFiles.{IsStop, IsUnadopted, IsUnmade, IsUnpaired, own_reset, own_resets, plain_witness};

use aigmc_files::{ExitError, Role, about, circuit_text};
use base::{Refused, push};
use graph::{Lit, Model};
use reset_functions::{Begun, read, resets_as_gates};
use std::alloc::Global;
use witness_adoption::{Adopted, adopt};
use witness_pairs::Shared;

/// The number of gates that depend on one another.
const CYCLIC: u8 = 11;

/// The witness circuit in the file of this name.
pub fn witness_in(rt: &HostRuntime, name: &str) -> Result<Begun, ExitError> {
    let text = circuit_text(rt, name, Role::Other)?;
    let begun = read(rt.alloc(), text.as_slice()).map_err(ExitError::from);
    about(Role::Other, begun)
}

/// The model's literal of the witness's latch at the position, where the model has the latch.
fn given_at(given: &[Option<Lit>], position: usize) -> Option<Lit>
    ensures { result ≡ head (drop position given.now) }
{
    match given.get(position) {
        Some(given) => *given,
        None => None,
    }
}

/// The reset of the latch, where it is a function and the model has not the latch.
fn own_reset(given: Option<Lit>, reset: Option<Lit>) -> Option<Lit>
    ensures { result ≡ own_reset given reset }
{
    match given {
        Some(_) => None,
        None => reset,
    }
}

/// The resets that are functions, of the latches that the witness alone has, by their positions.
fn own_resets(
    alloc: Global,
    given: &[Option<Lit>],
    resets: &[Option<Lit>],
) -> Result<Vec<Option<Lit>>, Refused>
    ensures { IfOk result (λ own. own.items ≡ own_resets given.now resets.now) }
{
    let mut own = Vec::new(alloc);
    for position in 0..resets.len() {
        let given = given_at(given, position);
        push(&mut own, own_reset(given, resets[position]))?;
    }
    Ok(own)
}

/// The witness with gates in place of the latches whose resets are these functions. It is refused where some depend on one
/// another, or read what is not defined.
fn made_of(rt: &HostRuntime, witness: &Model, resets: &[Option<Lit>]) -> Result<Model, ExitError>
    ensures made { IfOk result (λ m. m ≡ with_gates witness.now resets.now) }
    ensures runs { IfOk result (RunsAs witness.now resets.now) }
    ensures refused { IfErr result (IsStop (with_gates witness.now resets.now)) }
{
    match resets_as_gates(rt.alloc(), witness, resets) {
        Ok(made) => Ok(made),
        Err(fault) if fault.number() == CYCLIC => {
            let _ = eprintln!(rt; "aigmc: the resets of the witness depend on one another");
            Err(ExitError::Told)
        }
        Err(fault) => Err(ExitError::from(fault)),
    }
}

/// Refuses a witness of whose resets some depend on one another, or read what is not defined.
fn expect_order(rt: &HostRuntime, witness: &Model, resets: &[Option<Lit>]) -> Result<(), ExitError>
    ensures in_order { IfOk result (λ _. IsWellFormed (with_gates witness.now resets.now)) }
    ensures refused { IfErr result (IsStop (with_gates witness.now resets.now)) }
{
    let made = made_of(rt, witness, resets)?;
    made.well_formed();
    Ok(())
}

/// The witness with gates in place of its own latches whose resets are functions. Those of latches that the model has are
/// for the model to meet; but all of them are to be in order.
fn with_gates(rt: &HostRuntime, witness: &Model, shared: &Shared) -> Result<Model, ExitError>
    ensures made { IfOk result (λ m. m ≡ with_gates witness.now (own_resets shared.now.latches.items shared.now.resets.items)) }
    ensures runs { IfOk result (RunsAs witness.now (own_resets shared.now.latches.items shared.now.resets.items)) }
    ensures in_order { IfOk result (λ _. IsWellFormed (with_gates witness.now shared.now.resets.items)) }
    ensures refused { IfErr result (IsUnmade witness.now shared.now.latches.items shared.now.resets.items) }
{
    let own = own_resets(rt.alloc(), &shared.latches, &shared.resets)?;
    if own.as_slice() != shared.resets.as_slice() {
        expect_order(rt, witness, &shared.resets)?;
    }
    let made = made_of(rt, witness, &own)?;
    made.well_formed();
    Ok(made)
}

/// The same of a witness of whose resets none is a function.
fn adopted_plainly(
    rt: &HostRuntime,
    circuit: &Model,
    witness: &Model,
    shared: &Shared,
) -> Result<Adopted, ExitError>
    ensures clauses { IfOk result (λ x. IsAdopted circuit.now witness.now x.latches x.gates x.of_property x.invariant) }
    ensures refused { IfErr result (IsUnpaired witness.now) }
{
    Ok(adopt(rt.alloc(), circuit, witness, shared)?)
}

/// What the witness adds to the circuit, and what is to be inductive.
pub fn adopted_of(
    rt: &HostRuntime,
    circuit: &Model,
    witness: &Model,
    shared: &Shared,
) -> Result<Adopted, ExitError>
    ensures clauses { IfOk result (λ x. IsAdopted circuit.now (plain_witness witness.now shared.now.latches.items shared.now.resets.items) x.latches x.gates x.of_property x.invariant) }
    ensures refused { IfErr result (IsUnadopted witness.now shared.now.latches.items shared.now.resets.items) }
{
    if shared.resets.is_empty() {
        return adopted_plainly(rt, circuit, witness, shared);
    }
    let made = with_gates(rt, witness, shared)?;
    adopted_plainly(rt, circuit, &made, shared)
}
