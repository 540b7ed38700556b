//! The run of the obligations, once the states of the last found have an initial one among them.

ghost use Rattle.std.specs.Prelude.{◌≡◌, ◌≢◌, ◌<◌, List, true, false, length, slice_index_or, All, IfOk};
ghost use Rattle.base.specs.Budget.{Steps};
ghost use Rattle.engine.specs.Findings.{IsForBad};
ghost use Rattle.states.specs.declared.state_lit.StateLit.{StateLit as Literal};
ghost use Rattle.states.specs.States.{Denies};
ghost use Rattle.ic3_frames.specs.Clauses.{IsResetLit};
ghost use Rattle.ic3_frames.specs.Frames.{Levels};
ghost use Rattle.ic3_frames.specs.Resets.{HasResets};
ghost use Rattle.graph.specs.declared.parts.Parts.{Parts};
ghost use Rattle.ic3_blocking.specs.declared.obligation.Obligation.{Obligation};
ghost use Rattle.ic3_blocking.specs.Answers.{AreObligations, IsWay, IsFound};

use crate::obligation::Obligation;
use base::{Refused, Seq};
use engine::Finding;
use graph::{Latch, Model};
use std::alloc::Global;

/// The latch's first value: its reset, or where it has none this one.
fn first_value(latch: Latch, value: bool) -> bool
    ensures low { latch.reset.0 ≡ 0 → result ≡ false }
    ensures high { latch.reset.0 ≡ 1 → result ≡ true }
    ensures free { latch.reset.0 ≢ 0 → latch.reset.0 ≢ 1 → result ≡ value }
{
    match latch.reset.0 {
        0 => false,
        1 => true,
        _ => value,
    }
}

/// The state with each reset of the circuit, and elsewhere its own values. It is in each cube that
/// the state is in and that no reset excludes.
fn reset_state(alloc: Global, latches: &[Latch], state: &[bool]) -> Result<Seq<bool>, Refused>
    requires { length state.now ≡ length latches.now }
    ensures long { IfOk result (λ s. length s ≡ length latches.now) }
    ensures resets { IfOk result (HasResets latches.now) }
    ensures denies { (c : List Literal) → Denies state.now c → All (λ a. a.latch < length latches.now) c → All (λ a. IsResetLit latches.now a → ⊥) c → IfOk result (λ s. Denies s c) }
{
    let mut values = Seq::new(alloc);
    'resetting: for i in 0..latches.len() {
        values.push(first_value(latches[i], state[i]))?;
    }
    Ok(values)
}

/// The inputs of an obligation and of those to which it leads, one after the other.
fn lines_of(alloc: Global, found: &[Obligation], from: usize) -> Result<Seq<Seq<bool>>, Refused>
    requires from { from < length found.now }
    requires obligations { (m : Parts) × AreObligations m found.now }
    ensures { (m : Parts) (d : Obligation) → AreObligations m found.now → IfOk result (IsWay m (slice_index_or found.now from d)) }
{
    let mut lines = Seq::new(alloc);
    let mut at = from;
    'listing: loop {
        let obligation = &found[at];
        lines.push(Seq::from_slice(alloc, obligation.inputs.as_slice())?)?;
        match obligation.next {
            Some(next) => at = next,
            None => return Ok(lines),
        }
    }
}

/// The run of the obligations to which one leads that has an initial state. It begins there, and takes the inputs of
/// each. It takes memory by the length of their inputs.
pub(crate) fn run_of(
    alloc: Global,
    circuit: &Model,
    found: &[Obligation],
    from: usize,
) -> Result<Finding, Refused>
    requires for_bad { IsForBad circuit.now }
    requires from { from < length found.now }
    requires obligations { AreObligations circuit.now found.now }
    requires initial { (d : Obligation) → All (λ a. IsResetLit circuit.now.latches a → ⊥) (slice_index_or found.now from d).clause }
    ensures { (f : Levels) (after : Steps) → IfOk result (IsFound circuit.now f after) }
{
    circuit.well_formed();
    circuit.order();
    let first = &found[from];
    let initial = reset_state(alloc, circuit.latches(), first.state.as_slice())?;
    let inputs = lines_of(alloc, found, from)?;
    Ok(Finding::Run { initial, inputs })
}
