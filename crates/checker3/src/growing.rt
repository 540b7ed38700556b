//! The circuit with a certificate's latches and gates.

ghost use Rattle.base.specs.Witness.{witness};
ghost use Rattle.std.specs.Prelude.{◌≡◌, ◌+◌, ◌≤◌, length, IfErr, IfOk, MatchResult};
ghost use Rattle.extension.specs.Extended.{extended, IsExtension};
ghost use Rattle.checker3.specs.Judged.{IsGrown, IsNoExtension, IsNoGrowth};
ghost use Rattle.checker3.specs.declared.growing.GrowError.TheVariants.{OutOfMemory};

use crate::check_error::CheckError;
use base::Refused;
use extension::{extended_parts, is_extension};
use graph::{Gate, Latch, MOST_VARIABLES, Model, ReadError};
use std::alloc::Global;

/// The greatest variable that a circuit may have.
const MAX_VAR: usize = MOST_VARIABLES as usize;

/// Why a circuit is not extended.
#[derive(Clone, Copy)]
pub enum GrowError {
    /// The latches and gates are refused.
    Refused(CheckError),
    /// Memory is refused.
    OutOfMemory(Refused),
}

impl From<Refused> for GrowError {
    ghost from_gives = { λ _ e. e ≡ OutOfMemory witness };

    fn from(refused: Refused) -> GrowError {
        GrowError::OutOfMemory(refused)
    }
}

/// Looks whether the latches and gates extend the circuit within the limit.
fn check_extension(circuit: &Model, latches: &[Latch], gates: &[Gate]) -> Result<(), CheckError>
    ensures { MatchResult result (λ _. IsExtension circuit.now latches.now gates.now × (circuit.now.max_var + length latches.now + length gates.now ≤ 4194303)) (IsNoExtension circuit.now latches.now gates.now) }
{
    circuit.well_formed();
    if circuit.max_var() as usize + latches.len() + gates.len() > MAX_VAR {
        return Err(CheckError::Limit);
    }
    if !is_extension(circuit.parts(), latches, gates) {
        return Err(CheckError::NotExtension);
    }
    Ok(())
}

/// The circuit with these latches and gates, which extend it within the limit: where it is well
/// formed.
fn extended_model(
    alloc: Global,
    circuit: &Model,
    latches: &[Latch],
    gates: &[Gate],
) -> Result<Model, GrowError>
    requires extends { IsExtension circuit.now latches.now gates.now }
    requires within { circuit.now.max_var + length latches.now + length gates.now ≤ 4194303 }
    ensures grown { IfOk result (λ m. (m ≡ extended circuit.now latches.now gates.now) × IsGrown circuit.now latches.now gates.now) }
    ensures refused { IfErr result (IsNoGrowth circuit.now latches.now gates.now) }
{
    let parts = extended_parts(alloc, circuit.parts(), latches, gates)?;
    match Model::from_parts(alloc, parts) {
        Ok(model) => Ok(model),
        Err(ReadError::OutOfMemory(refused)) => Err(GrowError::OutOfMemory(refused)),
        Err(_) => Err(GrowError::Refused(CheckError::NotExtension)),
    }
}

/// The circuit with these latches and gates, or why there is none.
pub fn grow(
    alloc: Global,
    circuit: &Model,
    latches: &[Latch],
    gates: &[Gate],
) -> Result<Model, GrowError>
    ensures grown { IfOk result (λ m. (m ≡ extended circuit.now latches.now gates.now) × IsGrown circuit.now latches.now gates.now) }
    ensures refused { IfErr result (IsNoGrowth circuit.now latches.now gates.now) }
{
    match check_extension(circuit, latches, gates) {
        Ok(()) => extended_model(alloc, circuit, latches, gates),
        Err(refusal) => Err(GrowError::Refused(refusal)),
    }
}
