//! Whether what is given of a first state and of lines can be replayed.

ghost use Rattle.std.specs.Prelude.{◌≡◌, ◌≢◌, ◌↔◌, IsTrue, [], All, length, IfErr, OnOk, MatchOption};
ghost use Rattle.wave_signals.specs.OpenRows.{AreOpenFine, HasFitRows, HasOpenCause, IsFirstOpenAgainst, IsOpenFine, IsOpenPlayable, IsWrongRow, IsWrongRowOf};

use base::Seq;
use graph::{Latch, Model, Parts};
use stimulus::SimError;

/// The position of the first row that has another length.
fn first_wrong(rows: &[Seq<Option<bool>>], long: usize) -> Option<usize>
    ensures { MatchOption result (All (λ row. length row ≡ long) rows.now) (IsWrongRow rows.now long) }
{
    for (t, row) in rows.iter().enumerate() {
        if row.len() != long {
            return Some(t);
        }
    }
    None
}

/// The number of the first row that has another length: 0 for that of the latches, then from 1 on those of the inputs.
fn wrong_row(parts: &Parts, initial: &[Option<bool>], inputs: &[Seq<Option<bool>>]) -> Option<u64>
    ensures { MatchOption result (HasFitRows parts.now initial.now inputs.now) (IsWrongRowOf parts.now initial.now inputs.now) }
{
    if initial.len() != parts.latches.len() {
        return Some(0);
    }
    match first_wrong(inputs, parts.inputs.len()) {
        Some(t) => Some(t as u64 + 1),
        None => None,
    }
}

/// Whether a latch of which this is given can begin with it.
fn is_open_fine(latch: Latch, given: Option<bool>) -> bool
    ensures { IsTrue result ↔ IsOpenFine latch given }
{
    match given {
        None => true,
        Some(value) => match latch.reset.0 {
            0 => !value,
            1 => value,
            _ => true,
        },
    }
}

/// The position of the first latch that is given against its reset.
fn first_open_against(latches: &[Latch], given: &[Option<bool>]) -> Option<usize>
    requires { length given.now ≡ length latches.now }
    ensures { MatchOption result (AreOpenFine latches.now given.now) (IsFirstOpenAgainst latches.now given.now) }
{
    for (k, latch) in latches.iter().enumerate() {
        if !is_open_fine(*latch, given[k]) {
            return Some(k);
        }
    }
    None
}

/// Refuses a row of another length, and no row of inputs.
fn check_rows(
    parts: &Parts,
    initial: &[Option<bool>],
    inputs: &[Seq<Option<bool>>],
) -> Result<(), SimError>
    ensures fit { OnOk result (HasFitRows parts.now initial.now inputs.now) }
    ensures some { OnOk result (inputs.now ≢ []) }
    ensures refused { IfErr result (λ e. (e ≢ SimError.Device) × HasOpenCause parts.now initial.now inputs.now e) }
{
    if let Some(line) = wrong_row(parts, initial, inputs) {
        return Err(SimError::LineLength { line });
    }
    if inputs.is_empty() {
        return Err(SimError::NoInputLine);
    }
    Ok(())
}

/// Refuses what cannot be replayed.
pub fn check_open(
    circuit: &Model,
    initial: &[Option<bool>],
    inputs: &[Seq<Option<bool>>],
) -> Result<(), SimError>
    ensures playable { OnOk result (IsOpenPlayable circuit.now initial.now inputs.now) }
    ensures refused { IfErr result (λ e. (e ≢ SimError.Device) × HasOpenCause circuit.now initial.now inputs.now e) }
{
    let parts = circuit.parts();
    check_rows(parts, initial, inputs)?;
    match first_open_against(parts.latches.as_slice(), initial) {
        Some(latch) => Err(SimError::InitialReset {
            latch: latch as u32,
        }),
        None => Ok(()),
    }
}
