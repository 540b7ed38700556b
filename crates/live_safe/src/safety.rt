//! From a justice property to a bad literal.

ghost use Rattle.std.specs.Prelude.{◌≡◌, ◌<◌, ◌≤◌, length, IfOk, IfErr, OnOk};
ghost use Rattle.graph.specs.WellFormed.{IsWellFormed};
ghost use Rattle.live_safe.specs.Causes.{HasCause, IsSmall};
ghost use Rattle.live_safe.specs.Laws.{FoundLaw, CarriedLaw, BoundedLaw, ShownLaw, ShortestLaw};
ghost use Rattle.live_safe.specs.Shadow.{shadow_of};

use crate::error::LiveError;
use crate::shadow::shadow_parts;
use crate::wanted::{wanted_count, wanted_literals};
use base::Refused;
use graph::{MOST_VARIABLES, Model, Parts, ReadError};
use std::alloc::Global;

/// The greatest variable that a circuit may have.
const MAX_VAR: usize = MOST_VARIABLES as usize;

/// Whether the property is there, and its shadow circuit within the limit. It takes no memory.
fn check(parts: &Parts, position: u32) -> Result<(), LiveError>
    requires { IsWellFormed parts.now }
    ensures small { OnOk result (IsSmall parts.now position) }
    ensures refused { IfErr result (HasCause parts.now position) }
{
    if position as usize >= parts.justice.len() {
        return Err(LiveError::NoProperty(position));
    }
    let wanted = wanted_count(parts, position);
    if parts.max_var as usize + 4 + 8 * parts.latches.len() + 4 * wanted > MAX_VAR {
        return Err(LiveError::Limit);
    }
    Ok(())
}

/// The circuit of parts that are well formed.
fn model_of(alloc: Global, parts: Parts) -> Result<Model, Refused>
    requires { IsWellFormed parts }
    ensures { IfOk result (λ m. m ≡ parts) }
{
    match Model::from_parts(alloc, parts) {
        Ok(model) => Ok(model),
        Err(ReadError::OutOfMemory(refused)) => Err(refused),
        // Well-formed parts have no other cause.
        Err(_) => unreachable!(),
    }
}

/// The shadow circuit of a property that is there, within the limit.
fn shadow_model(alloc: Global, parts: &Parts, position: u32) -> Result<Model, Refused>
    requires well_formed { IsWellFormed parts.now }
    requires small { IsSmall parts.now position }
    ensures { IfOk result (λ s. s ≡ shadow_of parts.now position) }
{
    let wanted = wanted_literals(alloc, parts, position)?;
    let shadow = shadow_parts(alloc, parts, &wanted)?;
    model_of(alloc, shadow)
}

/// The circuit whose one bad literal is reached exactly where the justice property has a lasso
/// (Biere, Artho, Schuppan 2002).
///
/// It has the old inputs, latches, gates and constraints, then an input `save`, latches `saved`,
/// a shadow of each latch and one for each wanted literal, and the gates. The first time that
/// `save` is set the shadows take the values of the latches, and from then on it is noted which
/// wanted literals were set. A property that isn't there is refused, then more than 4194303
/// variables, both before memory is asked for.
pub fn to_safety(alloc: Global, circuit: &Model, position: u32) -> Result<Model, LiveError>
    ensures shadow { IfOk result (λ s. s ≡ shadow_of circuit.now position) }
    ensures exists { IfOk result (λ _. position < length circuit.now.justice) }
    ensures within { IfOk result (λ _. (shadow_of circuit.now position).max_var ≤ 4194303) }
    ensures refused { IfErr result (HasCause circuit.now position) }
    ensures found { IfOk result (λ _. FoundLaw circuit.now position) }
    ensures carried { IfOk result (λ _. CarriedLaw circuit.now position) }
    ensures bounded { IfOk result (λ _. BoundedLaw circuit.now position) }
    ensures shown { IfOk result (λ _. ShownLaw circuit.now position) }
    ensures shortest { IfOk result (λ _. ShortestLaw circuit.now position) }
{
    let parts = circuit.parts();
    check(parts, position)?;
    let shadow = shadow_model(alloc, parts, position)?;
    Ok(shadow)
}
