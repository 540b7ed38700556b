//! The strict stimulus of a loose text.

ghost use Rattle.std.specs.Prelude.{◌≡◌, ◌≢◌, ◌∷◌, [], ℕ, List, Bool, Option, Some, IfOk, IfErr, take};
ghost use Rattle.base.specs.Witness.{witness};
ghost use Rattle.graph.specs.declared.circuit.Property.{Property as AProperty};
ghost use Rattle.stimulus.specs.Shown.{Shows};
ghost use Rattle.stimulus.specs.Texts.{property_of};
ghost use Rattle.stimulus.specs.declared.value.Stimulus.TheVariants.{Violated};
ghost use Rattle.witness.specs.Completions.{CompleteFirst};
ghost use Rattle.witness.specs.Cutting.{NeverShows};
ghost use Rattle.witness.specs.Strict.{AreAsked, HasValues, IsStrict, IsDenied, IsDeniedByInputs, IsDeniedWithState, IsRefused, ShowsNeither, ShowsNone};

use crate::completion::{completed, completed_rows};
use crate::cutting::times_to_violation;
use crate::loose::Loose;
use crate::witness_error::WitnessError;
use base::{Refused, Seq, copied, filled_like};
use graph::{Model, Property};
use properties::all_properties;
use std::alloc::Global;
use stimulus::{JudgeError, Stimulus, judge};

/// The lines of the first times.
fn shortened(lines: Seq<Seq<bool>>, times: usize) -> Seq<Seq<bool>>
    ensures { result ≡ take times lines }
{
    let mut lines = lines.into_vec();
    lines.truncate(times);
    Seq::from_vec(lines)
}

/// The stimulus of these lines, where it shows the violation.
fn judged(
    alloc: Global,
    circuit: &Model,
    property: Property,
    initial: Seq<bool>,
    inputs: Seq<Seq<bool>>,
) -> Result<Stimulus, JudgeError>
    ensures is { IfOk result (λ s. s ≡ Violated property initial inputs) }
    ensures shows { IfOk result (Shows circuit.now) }
    ensures denied { IfErr result (λ e. e ≢ JudgeError.OutOfMemory witness → Shows circuit.now (Violated property initial inputs) → ⊥) }
{
    let stimulus = Stimulus::Violated {
        property,
        initial,
        inputs,
    };
    judge(alloc, circuit, &stimulus)?;
    Ok(stimulus)
}

/// The lines up to the first violation of the property, or all of them where there is none.
#[tactic(auto, using(crate::proofs::CompletionLaws::complete_cut))]
fn up_to_violation(
    alloc: Global,
    circuit: &Model,
    property: Property,
    initial: &[bool],
    inputs: Seq<Seq<bool>>,
) -> Result<Seq<Seq<bool>>, JudgeError>
    ensures complete { (rows : List (List (Option Bool))) → CompleteFirst rows inputs → IfOk result (CompleteFirst rows) }
    ensures shows { (k : ℕ) → Shows circuit.now (Violated property initial.now (take k inputs)) → IfOk result (λ lines. Shows circuit.now (Violated property initial.now lines)) }
    ensures refused { IfErr result (λ e. e ≢ JudgeError.OutOfMemory witness → NeverShows circuit.now property initial.now inputs) }
{
    match times_to_violation(alloc, circuit, property, initial, inputs.as_slice())? {
        Some(times) => Ok(shortened(inputs, times)),
        None => Ok(inputs),
    }
}

/// The stimulus with this first state and inputs, with that value in place of what doesn't matter, up to the first violation, where
/// that shows it.
fn try_values(
    alloc: Global,
    circuit: &Model,
    property: Property,
    state: &[Option<bool>],
    rows: &[Seq<Option<bool>>],
    other: bool,
) -> Result<Stimulus, JudgeError>
    ensures shows { IfOk result (Shows circuit.now) }
    ensures property { IfOk result (λ s. property_of s ≡ property) }
    ensures values { IfOk result (HasValues (state.now ∷ rows.now)) }
    ensures inputs { IfOk result (HasValues rows.now) }
    ensures denied { IfErr result (λ e. e ≢ JudgeError.OutOfMemory witness → ShowsNone circuit.now property state.now rows.now other) }
{
    let initial = completed(alloc, state, circuit.latches(), other)?;
    let lines = completed_rows(alloc, rows, other)?;
    let inputs = up_to_violation(alloc, circuit, property, initial.as_slice(), lines)?;
    judged(alloc, circuit, property, initial, inputs)
}

/// The same with 0 in place of what doesn't matter, or else with 1.
fn try_both(
    alloc: Global,
    circuit: &Model,
    property: Property,
    state: &[Option<bool>],
    rows: &[Seq<Option<bool>>],
) -> Result<Stimulus, JudgeError>
    ensures shows { IfOk result (Shows circuit.now) }
    ensures property { IfOk result (λ s. property_of s ≡ property) }
    ensures values { IfOk result (HasValues (state.now ∷ rows.now)) }
    ensures inputs { IfOk result (HasValues rows.now) }
    ensures denied { IfErr result (λ e. e ≢ JudgeError.OutOfMemory witness → ShowsNeither circuit.now property state.now rows.now) }
{
    match try_values(alloc, circuit, property, state, rows, false) {
        Ok(stimulus) => Ok(stimulus),
        Err(JudgeError::OutOfMemory(refused)) => Err(JudgeError::from(refused)),
        Err(_) => try_values(alloc, circuit, property, state, rows, true),
    }
}

/// The stimulus whose first state is the first row.
fn try_with_state(
    alloc: Global,
    circuit: &Model,
    property: Property,
    rows: &[Seq<Option<bool>>],
) -> Result<Stimulus, JudgeError>
    ensures shows { IfOk result (Shows circuit.now) }
    ensures property { IfOk result (λ s. property_of s ≡ property) }
    ensures values { IfOk result (HasValues rows.now) }
    ensures denied { IfErr result (λ e. e ≢ JudgeError.OutOfMemory witness → IsDeniedWithState circuit.now property rows.now) }
{
    match rows {
        [state, inputs @ ..] => try_both(alloc, circuit, property, state.as_slice(), inputs),
        [] => Err(JudgeError::NoInputLine),
    }
}

/// The stimulus whose inputs are all rows. Its first state is the resets.
fn try_inputs_alone(
    alloc: Global,
    circuit: &Model,
    property: Property,
    rows: &[Seq<Option<bool>>],
) -> Result<Stimulus, JudgeError>
    ensures shows { IfOk result (Shows circuit.now) }
    ensures property { IfOk result (λ s. property_of s ≡ property) }
    ensures values { IfOk result (HasValues rows.now) }
    ensures denied { IfErr result (λ e. e ≢ JudgeError.OutOfMemory witness → IsDeniedByInputs circuit.now property rows.now) }
{
    let state: Vec<Option<bool>> = filled_like(alloc, None, circuit.latches())?;
    try_both(alloc, circuit, property, &state, rows)
}

/// The stimulus of one property, by each reading of the rows.
fn try_property(
    alloc: Global,
    circuit: &Model,
    property: Property,
    loose: &Loose,
) -> Result<Stimulus, JudgeError>
    ensures shows { IfOk result (Shows circuit.now) }
    ensures property { IfOk result (λ s. property_of s ≡ property) }
    ensures values { IfOk result (HasValues loose.now.rows) }
    ensures denied { IfErr result (λ e. e ≢ JudgeError.OutOfMemory witness → IsDenied circuit.now loose.now property) }
{
    let rows = loose.rows.as_slice();
    if !loose.has_state {
        return try_inputs_alone(alloc, circuit, property, rows);
    }
    match try_with_state(alloc, circuit, property, rows) {
        Ok(stimulus) => Ok(stimulus),
        Err(JudgeError::OutOfMemory(refused)) => Err(JudgeError::from(refused)),
        Err(error) if !loose.has_inputs_alone => Err(error),
        Err(_) => try_inputs_alone(alloc, circuit, property, rows),
    }
}

/// The strict stimulus of a loose text: it shows the violation of one of the properties, the first of which this is found, and
/// it has each value that the text gives, up to the violation. What doesn't matter is first taken as 0 and then as 1, in the first state as the
/// latch's reset; with the first row as the first state, where that may be, and then with all rows as inputs. What follows the first violation is
/// cut off. Each try costs a replay and a judging, and of a justice property a map of the states. The last refusal is reported: then
/// no choice shows a violation with its first rows, however many.
pub fn strict(
    alloc: Global,
    circuit: &Model,
    loose: &Loose,
    asked: &[Property],
) -> Result<Stimulus, WitnessError>
    ensures strict { IfOk result (IsStrict circuit.now loose.now.rows asked.now) }
    ensures refused { IfErr result (IsRefused circuit.now loose.now asked.now) }
{
    let mut last = JudgeError::NoProperty(0);
    for property in asked {
        match try_property(alloc, circuit, *property, loose) {
            Ok(stimulus) => return Ok(stimulus),
            Err(JudgeError::OutOfMemory(refused)) => return Err(WitnessError::from(refused)),
            Err(error) => last = error,
        }
    }
    Err(WitnessError::NotShown(last))
}

/// The properties to ask for: the one that is chosen, or those that the text names, or else all of the circuit.
pub fn asked_of(
    alloc: Global,
    circuit: &Model,
    loose: &Loose,
    chosen: Option<Property>,
) -> Result<Vec<Property>, Refused>
    ensures chosen { (p : AProperty) → chosen ≡ Some p → IfOk result (λ v. v.items ≡ p ∷ []) }
    ensures asked { IfOk result (λ v. AreAsked circuit.now chosen loose.now.properties v.items) }
{
    match chosen {
        Some(property) => copied(alloc, &[property]),
        None if loose.properties.is_empty() => all_properties(alloc, circuit),
        None => copied(alloc, loose.properties.as_slice()),
    }
}
