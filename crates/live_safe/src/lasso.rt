//! From a violation of the shadow circuit back to a lasso.

ghost use Rattle.std.specs.Prelude.{◌≡◌, ◌<◌, ◌≤◌, ◌↔◌, length, map, take, All, IfOk, IfSome, IsSome, IsTrue};
ghost use Rattle.graph.specs.WellFormed.{IsWellFormed};
ghost use Rattle.graph.specs.declared.circuit.Property.TheVariants.{Bad};
ghost use Rattle.stimulus.specs.declared.value.Stimulus.TheVariants.{Violated};
ghost use Rattle.stimulus.specs.Shown.{ShowsBad, ShowsLasso};
ghost use Rattle.live_safe.specs.Laws.{FitsShadow, lasso_from};
ghost use Rattle.live_safe.specs.Shadow.{shadow_of};

use crate::wanted::wanted_count;
use base::{Refused, Seq};
use graph::{Model, Parts, Property};
use std::alloc::Global;
use stimulus::Stimulus;

/// Whether each line has this many values.
fn have_width(lines: &[Seq<bool>], width: usize) -> bool
    ensures { IsTrue result ↔ All (λ line. length line ≡ width) lines.now }
{
    lines.iter().all(|line| line.len() == width)
}

/// Whether the lengths are those of the shadow circuit's latches and inputs.
fn fits(parts: &Parts, position: u32, initial: &[bool], inputs: &[Seq<bool>]) -> bool
    requires { IsWellFormed parts.now }
    ensures { IsTrue result ↔ FitsShadow parts.now position initial.now inputs.now }
{
    let latches = 2 * parts.latches.len() + 1 + wanted_count(parts, position);
    if initial.len() != latches || inputs.is_empty() {
        return false;
    }
    have_width(inputs, parts.inputs.len() + 1)
}

/// The first values of each line.
fn fronts(alloc: Global, lines: &[Seq<bool>], width: usize) -> Result<Seq<Seq<bool>>, Refused>
    requires { All (λ line. width ≤ length line) lines.now }
    ensures { IfOk result (λ rows. rows ≡ map (take width) lines.now) }
{
    let mut rows = Seq::new(alloc);
    for line in lines {
        rows.push(Seq::from_slice(alloc, &line.as_slice()[..width])?)?;
    }
    Ok(rows)
}

/// What the values say of the circuit alone: its latches, and its inputs at all times but the last.
fn old_part(
    alloc: Global,
    parts: &Parts,
    position: u32,
    initial: &[bool],
    inputs: &[Seq<bool>],
) -> Result<Stimulus, Refused>
    requires { FitsShadow parts.now position initial.now inputs.now }
    ensures { IfOk result (λ s. s ≡ lasso_from parts.now position initial.now inputs.now) }
{
    let latches = parts.latches.len();
    let lines = &inputs[..inputs.len() - 1];
    Ok(Stimulus::Violated {
        property: Property::Justice(position),
        initial: Seq::from_slice(alloc, &initial[..latches])?,
        inputs: fronts(alloc, lines, parts.inputs.len())?,
    })
}

/// The lasso that a violation of the shadow circuit's bad literal tells of: the first values of
/// the circuit's latches, and the values of its inputs at all times but the last. `None` exactly where
/// the lengths are not the shadow circuit's, which those of a violation are.
pub fn lasso_of(
    alloc: Global,
    circuit: &Model,
    position: u32,
    initial: &[bool],
    inputs: &[Seq<bool>],
) -> Result<Option<Stimulus>, Refused>
    ensures fits { IfOk result (λ found. IsSome found ↔ FitsShadow circuit.now position initial.now inputs.now) }
    ensures lasso { IfOk result (λ found. IfSome found (λ s. s ≡ lasso_from circuit.now position initial.now inputs.now)) }
    ensures shows { IfOk result (λ found. position < length circuit.now.justice → ShowsBad (shadow_of circuit.now position) (Violated (Bad 0) initial.now inputs.now) → IsSome found × IfSome found (ShowsLasso circuit.now)) }
{
    let parts = circuit.parts();
    if !fits(parts, position, initial, inputs) {
        return Ok(None);
    }
    let lasso = old_part(alloc, parts, position, initial, inputs)?;
    Ok(Some(lasso))
}
