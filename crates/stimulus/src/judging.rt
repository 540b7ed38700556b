//! Judging stimuli.

ghost use Rattle.std.specs.Prelude.{◌≢◌, ◌≤◌, IfErr, OnOk};
ghost use Rattle.base.specs.Witness.{witness};
ghost use Rattle.graph.specs.declared.circuit.Property.{Property as AProperty};
ghost use Rattle.graph.specs.declared.circuit.Property.TheVariants.{Justice};
ghost use Rattle.graph.specs.Circuits.{IsWatched, variable};
ghost use Rattle.stimulus.specs.Causes.{HasCause, HasCauseIn, IsFit};
ghost use Rattle.stimulus.specs.Courses.{HasRun};
ghost use Rattle.stimulus.specs.Shown.{Shows};
ghost use Rattle.stimulus.specs.declared.value.Stimulus.TheVariants.{Violated};

use crate::judge_error::JudgeError;
use crate::lasso::{has_lasso, wanted};
use crate::lines::check_fit;
use crate::playing::run;
use crate::value::Stimulus;
use base::Seq;
use graph::{Lit, Model, Property};
use simulate::Replay;
use std::alloc::Global;

/// Whether the run sets the literal at its last time. What is said holds of each property that watches
/// the literal.
fn judge_bad(
    circuit: &Model,
    replay: &Replay<'_>,
    bad: Lit,
    initial: &[bool],
    inputs: &[Seq<bool>],
) -> Result<(), JudgeError>
    requires in_range { variable bad ≤ circuit.now.max_var }
    requires runs { HasRun circuit.now initial.now inputs.now replay.now }
    ensures shown { (p : AProperty) → IsWatched circuit.now p bad → OnOk result (Shows circuit.now (Violated p initial.now inputs.now)) }
    ensures refused { (p : AProperty) → IsWatched circuit.now p bad → IfErr result (HasCauseIn circuit.now p initial.now inputs.now) }
{
    if replay.value(bad) {
        Ok(())
    } else {
        Err(JudgeError::BadNotSet)
    }
}

/// Whether the run closes a lasso.
fn judge_justice(
    alloc: Global,
    circuit: &Model,
    replay: &Replay<'_>,
    j: u32,
    initial: &[bool],
    inputs: &[Seq<bool>],
) -> Result<(), JudgeError>
    requires fit { IsFit circuit.now (Justice j) initial.now inputs.now }
    requires runs { HasRun circuit.now initial.now inputs.now replay.now }
    ensures shown { OnOk result (Shows circuit.now (Violated (Justice j) initial.now inputs.now)) }
    ensures refused { IfErr result (HasCauseIn circuit.now (Justice j) initial.now inputs.now) }
{
    let wanted = wanted(alloc, circuit.parts(), j)?;
    if has_lasso(alloc, circuit, &wanted, replay.state(), initial, inputs)? {
        Ok(())
    } else {
        Err(JudgeError::NoLasso)
    }
}

/// Whether the replay of these lines shows that the property is violated.
fn judge_violated(
    alloc: Global,
    circuit: &Model,
    property: Property,
    initial: &[bool],
    inputs: &[Seq<bool>],
) -> Result<(), JudgeError>
    ensures shown { OnOk result (Shows circuit.now (Violated property initial.now inputs.now)) }
    ensures refused { IfErr result (HasCauseIn circuit.now property initial.now inputs.now) }
{
    check_fit(circuit.parts(), property, initial, inputs)?;
    let replay = run(alloc, circuit, initial, inputs)?;
    match property {
        Property::Bad(n) => judge_bad(circuit, &replay, circuit.bad()[n as usize], initial, inputs),
        Property::Justice(j) => judge_justice(alloc, circuit, &replay, j, initial, inputs),
        Property::Output(n) => judge_bad(
            circuit,
            &replay,
            circuit.outputs()[n as usize],
            initial,
            inputs,
        ),
    }
}

/// Whether the replay of a stimulus shows the violation that it tells of (AIGER 1.9): it begins in
/// a state that the resets allow, keeps the constraints, and sets the bad literal at its last time
/// or, for a justice property, closes a lasso at the state after its last time. Replaying costs the
/// gates for each input line, and for a lasso at most twice that; the memory is a state and a valuation,
/// for a lasso two of each, and a mark for each wanted literal.
pub fn judge(alloc: Global, circuit: &Model, stimulus: &Stimulus) -> Result<(), JudgeError>
    ensures shown { OnOk result (Shows circuit.now stimulus.now) }
    ensures refused { IfErr result (HasCause circuit.now stimulus.now) }
    ensures exact { IfErr result (λ e. e ≢ JudgeError.OutOfMemory witness → Shows circuit.now stimulus.now → ⊥) }
{
    match stimulus {
        Stimulus::Violated {
            property,
            initial,
            inputs,
        } => judge_violated(
            alloc,
            circuit,
            *property,
            initial.as_slice(),
            inputs.as_slice(),
        ),
        _ => Err(JudgeError::NotViolated),
    }
}
