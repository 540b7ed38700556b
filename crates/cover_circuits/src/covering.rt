//! Circuits with a bad literal that says how long a run is.

ghost use Rattle.std.specs.Prelude.{◌≡◌, ◌+◌, ◌<◌, ◌≤◌, ◌⊎◌, [], length, None, IfOk, IfErr};
ghost use Rattle.base.specs.Witness.{witness};
ghost use Rattle.graph.specs.Circuits.{HasProperty};
ghost use Rattle.graph.specs.WellFormed.{IsWellFormed, only_bad};
ghost use Rattle.extension.specs.Rounds.{always};
ghost use Rattle.cover_circuits.specs.Covering.{IsAlwaysBad, IsBadBehind, ShowsRun, behind as behind_of, step_latches as step_latches_of, step_literal as step_literal_of};

use base::{Refused, Seq, push};
use extension::{extended_parts, extension_laws};
use graph::{AigerFile, Latch, Lit, MOST_VARIABLES, Model, Parts, Property, ReadError};
use live_safe::{cleared, positive};
use std::alloc::Global;

/// The literal that is always true.
const TRUE: Lit = Lit(1);

/// The circuit of parts that are well formed.
fn model_of(alloc: Global, parts: Parts) -> Result<Model, Refused>
    requires { IsWellFormed parts }
    ensures { IfOk result (λ m. m ≡ parts) }
{
    match Model::from_parts(alloc, parts) {
        Ok(model) => Ok(model),
        Err(ReadError::OutOfMemory(refused)) => Err(refused),
        // Well-formed parts have no other cause.
        Err(_) => unreachable!(),
    }
}

/// The circuit of these parts with this one bad literal, and no outputs, justice or fairness.
fn watching(alloc: Global, mut parts: Parts, watched: Lit) -> Result<Model, Refused>
    requires { IsWellFormed (only_bad parts watched) }
    ensures { IfOk result (λ m. m ≡ only_bad parts watched) }
{
    parts.bad = Seq::from_slice(alloc, &[watched])?;
    parts.outputs = Seq::new(alloc);
    parts.justice = Seq::new(alloc);
    parts.fairness = Seq::new(alloc);
    model_of(alloc, parts)
}

/// The circuit with the constant true as its one bad literal: it is violated by exactly the runs that keep the
/// constraints.
pub fn always_bad(alloc: Global, circuit: &Model) -> Result<Model, ReadError>
    ensures made { IfOk result (λ m. m ≡ only_bad circuit.now always) }
    ensures exact { IfOk result (IsAlwaysBad circuit.now) }
    ensures refused { IfErr result (λ e. e ≡ ReadError.OutOfMemory witness) }
{
    circuit.well_formed();
    let parts = circuit.parts().copy(alloc)?;
    let covered = watching(alloc, parts, TRUE)?;
    Ok(covered)
}

/// The literal that is set from this number of steps on: that of the last latch, or the constant true of no latches.
fn step_literal(first: u32, steps: u8) -> Lit
    requires { first + steps ≤ 4194304 }
    ensures { result ≡ step_literal_of first steps }
{
    if steps == 0 {
        TRUE
    } else {
        positive(first + u32::from(steps - 1))
    }
}

/// So many latches of the variables from the first on, of which each has the value that the one before had a step
/// ago: the last one is set from that number of steps on.
fn step_latches(alloc: Global, first: u32, steps: u8) -> Result<Vec<Latch>, Refused>
    requires { first + steps ≤ 4194304 }
    ensures { IfOk result (λ v. v.items ≡ step_latches_of first steps) }
{
    let mut latches = Vec::new(alloc);
    for step in 0..steps {
        let next = step_literal(first, step);
        push(&mut latches, cleared(first + u32::from(step), next))?;
    }
    Ok(latches)
}

/// The circuit with a bad literal that is set from this number of steps on, where it has no variable over the limit.
fn behind(alloc: Global, circuit: &Model, steps: u8) -> Result<Model, Refused>
    requires { circuit.now.max_var + steps ≤ 4194303 }
    ensures made { IfOk result (λ m. m ≡ behind_of circuit.now steps) }
    ensures exact { IfOk result (λ m. IsBadBehind circuit.now m steps) }
    ensures shows { IfOk result (λ m. ShowsRun circuit.now m steps) }
{
    circuit.well_formed();
    let first = circuit.max_var() + 1;
    let latches = step_latches(alloc, first, steps)?;
    extension_laws(circuit, &latches, &[]);
    let parts = extended_parts(alloc, circuit.parts(), &latches, &[])?;
    let covered = watching(alloc, parts, step_literal(first, steps))?;
    Ok(covered)
}

/// The file of a circuit without names.
fn unnamed(alloc: Global, model: Model) -> Result<AigerFile, Refused>
    ensures { IfOk result (λ f. f ≡ record { model = model; symbols = []; comment = None }) }
{
    match AigerFile::new(alloc, model, Seq::new(alloc), None) {
        Ok(file) => Ok(file),
        Err(ReadError::OutOfMemory(refused)) => Err(refused),
        // Where there is no name none is wrong.
        Err(_) => unreachable!(),
    }
}

/// The circuit with a bad literal that is set from this number of steps on, and with that alone: it is violated by
/// exactly the runs that keep the constraints for so many steps. Too many variables are refused before memory is asked for.
pub fn bad_behind(alloc: Global, circuit: &Model, steps: u8) -> Result<AigerFile, ReadError>
    ensures made { IfOk result (λ f. f ≡ record { model = behind_of circuit.now steps; symbols = []; comment = None }) }
    ensures within { IfOk result (λ _. circuit.now.max_var + steps ≤ 4194303) }
    ensures exact { IfOk result (λ f. IsBadBehind circuit.now f.model steps) }
    ensures shows { IfOk result (λ f. ShowsRun circuit.now f.model steps) }
    ensures refused { IfErr result (λ e. (e ≡ ReadError.OutOfMemory witness) ⊎ ((e ≡ ReadError.Limit 0) × (4194303 < circuit.now.max_var + steps))) }
{
    circuit.well_formed();
    if circuit.max_var() + u32::from(steps) > MOST_VARIABLES {
        return Err(ReadError::Limit(0));
    }
    let covered = behind(alloc, circuit, steps)?;
    let file = unnamed(alloc, covered)?;
    Ok(file)
}

/// A bad literal that the circuit does not have: no run violates it.
pub fn no_bad(circuit: &Model) -> Property
    ensures position { result ≡ Property.Bad (length circuit.now.bad) }
    ensures none { HasProperty circuit.now result → ⊥ }
{
    circuit.well_formed();
    Property::Bad(circuit.bad().len() as u32)
}
