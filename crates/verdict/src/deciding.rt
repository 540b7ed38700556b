//! Asking engines for a verdict.

ghost use Rattle.std.specs.Prelude.{◌≡◌, ◌≢◌, ◌<◌, IfOk, IfErr, MatchResult, OnOk, length};
ghost use Rattle.std.specs.List.{All};
ghost use Rattle.base.specs.Budget.{Spends};
ghost use Rattle.checker2.specs.Accepted.{circuit_of};
ghost use Rattle.graph.specs.Circuits.{HasProperty};
ghost use Rattle.engine.specs.declared.finding.Reason.TheVariants.{NoEvidence};
ghost use Rattle.verdict.specs.Asked.{AskedInOrder, Asks, AsksOne};
ghost use Rattle.verdict.specs.Causes.{HasCause};
ghost use Rattle.verdict.specs.Verdicts.{IsAsked, IsBacked, IsMeant};
ghost use Rattle.verdict.specs.declared.decide_error.DecideError.TheVariants.{Limit, IdsTaken};
ghost use Rattle.solver.specs.Full.{full};
ghost use Rattle.verdict.specs.declared.verdict.Verdict.TheVariants.{Unknown};

use crate::asking::{verdict_by, verdict_of};
use crate::decide_error::DecideError;
use crate::reasons::{reason, weightier};
use crate::verdict::Verdict;
use base::Budget;
use engine::{Engine, Reason};
use graph::{Model, Property, ReadError};
use live_safe::{LiveError, to_safety};
use std::alloc::Global;

/// The circuit that engines are asked about: with the bad literal or the output as its one bad literal,
/// or the shadow circuit of the justice property.
fn circuit_for(alloc: Global, circuit: &Model, property: Property) -> Result<Model, DecideError>
    ensures asked { IfOk result (IsAsked circuit.now property) }
    ensures exists { OnOk result (HasProperty circuit.now property) }
    ensures refused { IfErr result (HasCause circuit.now property) }
    ensures large { IfErr result (λ e. e ≡ Limit → 4194303 < (circuit_of circuit.now property).max_var) }
    ensures own { IfErr result (λ e. e ≢ IdsTaken full) }
{
    match property {
        Property::Bad(n) => {
            if n as usize >= circuit.bad().len() {
                return Err(DecideError::NoProperty(n));
            }
            match circuit.for_bad(alloc, n) {
                Ok(asked) => Ok(asked),
                Err(ReadError::OutOfMemory(refused)) => Err(DecideError::OutOfMemory(refused)),
                // the circuit has the property
                Err(_) => unreachable!(),
            }
        }
        Property::Output(n) => {
            if !circuit.parts().has_property(Property::Output(n)) {
                return Err(DecideError::NoProperty(n));
            }
            match circuit.for_output(alloc, n) {
                Ok(asked) => Ok(asked),
                Err(ReadError::OutOfMemory(refused)) => Err(DecideError::OutOfMemory(refused)),
                // the circuit has the property
                Err(_) => unreachable!(),
            }
        }
        Property::Justice(n) => match to_safety(alloc, circuit, n) {
            Ok(shadow) => Ok(shadow),
            Err(LiveError::NoProperty(_)) => Err(DecideError::NoProperty(n)),
            Err(LiveError::Limit) => Err(DecideError::Limit),
            Err(LiveError::OutOfMemory(refused)) => Err(DecideError::OutOfMemory(refused)),
        },
    }
}

/// Asks each engine about the property, by `circuit`, up to the first whose evidence stands.
fn verdict_of_each(
    alloc: Global,
    circuit: &Model,
    property: Property,
    asked: &Model,
    engines: &mut [Box<dyn Engine>],
    budget: &mut Budget,
) -> Result<Verdict, DecideError>
    requires asked { IsAsked circuit.now property asked.now }
    ensures spends { Spends budget.old budget.new }
    ensures backed { IfOk result (IsBacked circuit.now property) }
    ensures honest { All (λ e. honest e) engines.old → 0 < length engines.old → IfOk result (IsMeant circuit.now property budget.new) }
    ensures asked { AskedInOrder (λ e. answers e asked.now) circuit.now property engines.old engines.new budget.old result budget.new }
    ensures refused { IfErr result (HasCause circuit.now property) }
    ensures none { length engines.old ≡ 0 → (budget.new ≡ budget.old) × MatchResult result (λ v. v ≡ Unknown NoEvidence) (λ e. (e ≡ Limit → ⊥) × (e ≢ IdsTaken full)) }
{
    let mut told = Reason::NoEvidence;
    for engine in engines.iter_mut() {
        let answer = verdict_of(engine, alloc, circuit, property, asked, budget);
        match reason(&answer) {
            Some(found) => told = weightier(told, found),
            None => return answer,
        }
    }
    Ok(Verdict::Unknown(told))
}

/// Decides a property of a circuit by asking each engine once, in order: about its bad literal or
/// output alone, or for a justice property about the bad literal of its shadow circuit. An engine is
/// not believed: a run that it finds is answered only where the replay of its stimulus shows the
/// violation, and an invariant only where a certificate is made of it, which the checker accepts; what
/// fails is dropped, and the next engine asked. A refusal of an engine ends the call. A shadow
/// circuit with too many variables is refused.
///
/// Where no engine has evidence, the reason that is reported is the budget's where an engine or the
/// making of a certificate reported that, else the greatest depth that one reported, else that there was no
/// evidence, which is never so where all engines that were asked are honest.
///
/// Beside what the engines cost, it takes a copy of the circuit, one replay for each run, and for
/// each invariant its certificate.
pub fn decide(
    alloc: Global,
    circuit: &Model,
    property: Property,
    engines: &mut [Box<dyn Engine>],
    budget: &mut Budget,
) -> Result<Verdict, DecideError>
    ensures spends { Spends budget.old budget.new }
    // Whatever engines were handed in, what is answered has its evidence.
    ensures backed { IfOk result (IsBacked circuit.now property) }
    // Where all of them are honest, and there is one, the unknown means what it says.
    ensures honest { All (λ e. honest e) engines.old → 0 < length engines.old → IfOk result (IsMeant circuit.now property budget.new) }
    // The engines are asked once each, in order, about the circuit that is meant, up to the first that has evidence or refuses. Over a
    // limit is the shadow circuit, with no engine asked; else an engine said so, or `certify` of clauses that one found.
    ensures asked { Asks (λ e. answers e) circuit.now property engines.old engines.new budget.old result budget.new }
    // What is answered is of a property that the circuit has, and what is refused as none is not.
    ensures exists { OnOk result (HasProperty circuit.now property) }
    ensures refused { IfErr result (HasCause circuit.now property) }
    // Without engines nothing is spent, nothing is known, and no limit is met but that of the shadow circuit.
    ensures none { length engines.old ≡ 0 → (budget.new ≡ budget.old) × MatchResult result (λ v. v ≡ Unknown NoEvidence) (λ e. (e ≡ Limit → 4194303 < (circuit_of circuit.now property).max_var) × (e ≢ IdsTaken full)) }
{
    let asked = circuit_for(alloc, circuit, property)?;
    verdict_of_each(alloc, circuit, property, &asked, engines, budget)
}

/// The same by one engine, which is asked once.
pub fn decide_by<E: Engine>(
    alloc: Global,
    circuit: &Model,
    property: Property,
    engine: &mut E,
    budget: &mut Budget,
) -> Result<Verdict, DecideError>
    ensures spends { Spends budget.old budget.new }
    ensures stays { E.honest engine.old → E.honest engine.new }
    // Whatever it answers, what is answered here has its evidence.
    ensures backed { IfOk result (IsBacked circuit.now property) }
    // Where it is honest, the unknown means what it says.
    ensures honest { E.honest engine.old → IfOk result (IsMeant circuit.now property budget.new) }
    // It is asked about the circuit that is meant.
    ensures asked { AsksOne (E.answers engine.old) circuit.now property budget.old result budget.new }
    ensures exists { OnOk result (HasProperty circuit.now property) }
    ensures refused { IfErr result (HasCause circuit.now property) }
{
    let asked = circuit_for(alloc, circuit, property)?;
    verdict_by(engine, alloc, circuit, property, &asked, budget)
}
