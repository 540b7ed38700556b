//! One number of rounds.

ghost use Rattle.std.specs.Prelude.{◌≡◌, ◌+◌, ◌*◌, ◌^◌, ◌<◌, ◌≤◌, length, None, IfOk, IfErr, IfSome};
ghost use Rattle.base.specs.Budget.{Spends};
ghost use Rattle.base.specs.Witness.{witness};
ghost use Rattle.graph.specs.Circuits.{HasProperty};
ghost use Rattle.graph.specs.declared.circuit.Property.TheVariants.{Bad, Justice};
ghost use Rattle.stimulus.specs.declared.value.Stimulus.TheVariants.{Violated};
ghost use Rattle.stimulus.specs.Shown.{ShowsBad};
ghost use Rattle.cnf.specs.Invariants.{IsInvariant};
ghost use Rattle.engine.specs.Findings.{IsForBad};
ghost use Rattle.extension.specs.Accepted.{IsShowable};
ghost use Rattle.extension.specs.Rounds.{rounds_of};
ghost use Rattle.extension.specs.Rows.{IsCountable};
ghost use Rattle.verdict.specs.Causes.{HasCause};
ghost use Rattle.verdict.specs.declared.decide_error.DecideError.TheVariants.{OutOfMemory};
ghost use Rattle.rounds.specs.Asked.{IsMeantFor, IsTried, cause_in, tried_on};
ghost use Rattle.rounds.specs.Counted.{IsTooLarge};
ghost use Rattle.rounds.specs.declared.asking.Tried.TheVariants.{Exceeded};

use crate::counted::Cause;
use crate::shortening::{Counting, listed};
use base::{Budget, Lists, Seq};
use certificate3::Claim;
use certify3::{Certified, CertifyError, Effort, Extension, certify};
use engine::{Engine, Finding, Reason};
use extension::{accepted_law, accepted_rounds_law, count_rounds, rounds_laws};
use graph::{Lit, Model, Property};
use live_safe::LiveError;
use round_clauses::spared;
use std::alloc::Global;
use stimulus::{JudgeError, Stimulus, judge};
use verdict::DecideError;

/// What came of one number of rounds.
#[derive(Drop)]
pub enum Tried {
    /// no run holds more, as the text of a certificate says
    Bounded(Seq<u8>),
    /// a run does
    Exceeded,
    /// the circuit that counts them has too many variables
    TooLarge,
    /// nothing is known
    Unknown(Cause),
}

/// The circuit that counts so many rounds of a property that is there, where it has no variable over the limit.
fn counter_for(
    alloc: Global,
    circuit: &Model,
    position: u32,
    rounds: u32,
) -> Result<Option<Model>, DecideError>
    requires there { HasProperty circuit.now (Justice position) }
    ensures counter { IfOk result (λ found. IfSome found (λ s. s ≡ rounds_of circuit.now position rounds)) }
    ensures countable { IfOk result (λ found. IfSome found (λ _. IsCountable circuit.now position rounds)) }
    ensures few { IfOk result (λ found. IfSome found (λ _. rounds ≤ 4194303)) }
    ensures large { IfOk result (λ found. found ≡ None → IsTooLarge circuit.now position rounds) }
    ensures refused { IfErr result (HasCause circuit.now (Justice position)) }
{
    rounds_laws(circuit, position, rounds);
    match count_rounds(alloc, circuit, position, rounds) {
        Ok(counter) => Ok(Some(counter)),
        Err(LiveError::Limit) => Ok(None),
        Err(LiveError::OutOfMemory(refused)) => Err(DecideError::OutOfMemory(refused)),
        // the property is there
        Err(LiveError::NoProperty(_)) => unreachable!(),
    }
}

/// What comes of a run of the circuit that counts: it is replayed.
fn of_run(
    alloc: Global,
    circuit: &Model,
    counter: &Model,
    position: u32,
    rounds: u32,
    initial: Seq<bool>,
    inputs: Seq<Seq<bool>>,
) -> Result<Tried, DecideError>
    requires counter { counter.now ≡ rounds_of circuit.now position rounds }
    ensures tried { IfOk result (IsTried circuit.now position rounds) }
    ensures exceeded { ShowsBad counter.now (Violated (Bad 0) initial inputs) → IfOk result (λ t. t ≡ Exceeded) }
    ensures memory { IfErr result (λ e. e ≡ OutOfMemory witness) }
{
    rounds_laws(circuit, position, rounds);
    let stimulus = Stimulus::Violated {
        property: Property::Bad(0),
        initial,
        inputs,
    };
    match judge(alloc, counter, &stimulus) {
        Ok(()) => Ok(Tried::Exceeded),
        Err(JudgeError::OutOfMemory(refused)) => Err(DecideError::OutOfMemory(refused)),
        Err(_) => Ok(Tried::Unknown(Cause::NoEvidence)),
    }
}

/// What comes of a certificate of clauses, or of why there is none. A fault of theirs only makes them no evidence.
fn of_certified(certified: Result<Certified, CertifyError>) -> Result<Tried, DecideError>
    ensures { result ≡ tried_on certified }
{
    match certified {
        Ok(Certified::Certificate(text)) => Ok(Tried::Bounded(text)),
        Ok(Certified::NotInvariant(_)) => Ok(Tried::Unknown(Cause::NoEvidence)),
        Ok(Certified::Spent) => Ok(Tried::Unknown(Cause::Budget)),
        Ok(Certified::Unaccepted) => Ok(Tried::Unknown(Cause::Unaccepted)),
        Err(CertifyError::TooMany) => Err(DecideError::Limit),
        Err(CertifyError::IdsTaken(full)) => Err(DecideError::IdsTaken(full)),
        Err(CertifyError::OutOfMemory(refused)) => Err(DecideError::OutOfMemory(refused)),
        Err(CertifyError::NoProperty(_)) => Ok(Tried::Unknown(Cause::NoEvidence)),
        Err(CertifyError::Refused(_)) => Ok(Tried::Unknown(Cause::NoEvidence)),
        Err(CertifyError::Repeated { .. }) => Ok(Tried::Unknown(Cause::NoEvidence)),
    }
}

/// What comes of clauses that are said to be an invariant of the circuit that counts: a certificate, where it is accepted.
fn shown_by(
    alloc: Global,
    circuit: &Model,
    position: u32,
    rounds: u32,
    invariant: Lists<Lit>,
    effort: Effort,
    budget: &mut Budget,
) -> Result<Tried, DecideError>
    requires showable { IsShowable circuit.now (Justice position) rounds }
    ensures spends { Spends budget.old budget.new }
    ensures tried { IfOk result (IsTried circuit.now position rounds) }
    ensures meant { IsInvariant (rounds_of circuit.now position rounds) invariant → IfOk result (IsMeantFor circuit.now position rounds budget.new) }
    ensures refused { IfErr result (HasCause circuit.now (Justice position)) }
{
    circuit.well_formed();
    accepted_law();
    accepted_rounds_law();
    rounds_laws(circuit, position, rounds);
    let claim = Claim {
        property: Property::Justice(position),
        rounds,
    };
    let extension = Extension {
        latches: &[],
        gates: &[],
    };
    of_certified(certify(alloc, circuit, claim, extension, invariant, effort, budget))
}

/// The same of those that the order of the latches that count does not say, with that order, by shorter proofs.
fn of_fewer(
    alloc: Global,
    circuit: &Model,
    counter: &Model,
    position: u32,
    rounds: u32,
    clauses: &[Seq<Lit>],
    budget: &mut Budget,
) -> Result<Tried, DecideError>
    requires showable { IsShowable circuit.now (Justice position) rounds }
    ensures spends { Spends budget.old budget.new }
    ensures tried { IfOk result (IsTried circuit.now position rounds) }
    ensures refused { IfErr result (HasCause circuit.now (Justice position)) }
{
    let fewer = spared(alloc, counter, rounds, clauses, budget)?;
    let fewer = listed(alloc, fewer.as_slice())?;
    let effort = Effort::Thorough;
    shown_by(alloc, circuit, position, rounds, fewer, effort, budget)
}

/// The same of all clauses.
fn of_all(
    alloc: Global,
    circuit: &Model,
    position: u32,
    rounds: u32,
    clauses: &[Seq<Lit>],
    budget: &mut Budget,
) -> Result<Tried, DecideError>
    requires showable { IsShowable circuit.now (Justice position) rounds }
    ensures spends { Spends budget.old budget.new }
    ensures tried { IfOk result (IsTried circuit.now position rounds) }
    ensures meant { IsInvariant (rounds_of circuit.now position rounds) clauses.now → IfOk result (IsMeantFor circuit.now position rounds budget.new) }
    ensures refused { IfErr result (HasCause circuit.now (Justice position)) }
{
    let invariant = listed(alloc, clauses)?;
    let effort = Effort::Quick;
    shown_by(alloc, circuit, position, rounds, invariant, effort, budget)
}

/// What comes of clauses by fewer of them, and else of all.
fn of_clauses(
    alloc: Global,
    circuit: &Model,
    counter: &Model,
    position: u32,
    rounds: u32,
    clauses: &[Seq<Lit>],
    budget: &mut Budget,
) -> Result<Tried, DecideError>
    requires showable { IsShowable circuit.now (Justice position) rounds }
    requires for_bad { IsForBad counter.now }
    ensures spends { Spends budget.old budget.new }
    ensures tried { IfOk result (IsTried circuit.now position rounds) }
    ensures meant { IsInvariant (rounds_of circuit.now position rounds) clauses.now → IfOk result (IsMeantFor circuit.now position rounds budget.new) }
    ensures refused { IfErr result (HasCause circuit.now (Justice position)) }
{
    match of_fewer(alloc, circuit, counter, position, rounds, clauses, budget)? {
        Tried::Bounded(text) => {
            let counting = Counting {
                circuit,
                counter,
                position,
                rounds,
            };
            let shortest = counting.shortest(alloc, text, clauses, budget)?;
            Ok(Tried::Bounded(shortest))
        }
        _ => of_all(alloc, circuit, position, rounds, clauses, budget),
    }
}

/// Why nothing is known, where an engine says so.
fn cause_of(reason: Reason) -> Cause
    ensures { result ≡ cause_in reason }
{
    match reason {
        Reason::Budget => Cause::Budget,
        Reason::Depth(steps) => Cause::Depth(steps),
        Reason::NoEvidence => Cause::NoEvidence,
    }
}

/// What the engine's answer about the circuit that counts so many rounds says.
fn tried_by<E: Engine>(
    engine: &mut E,
    alloc: Global,
    circuit: &Model,
    counter: &Model,
    position: u32,
    rounds: u32,
    budget: &mut Budget,
) -> Result<Tried, DecideError>
    requires showable { IsShowable circuit.now (Justice position) rounds }
    requires counter { counter.now ≡ rounds_of circuit.now position rounds }
    ensures spends { Spends budget.old budget.new }
    ensures stays { E.honest engine.old → E.honest engine.new }
    ensures tried { IfOk result (IsTried circuit.now position rounds) }
    ensures meant { E.honest engine.old → IfOk result (IsMeantFor circuit.now position rounds budget.new) }
    ensures refused { IfErr result (HasCause circuit.now (Justice position)) }
{
    match engine.find(alloc, counter, budget)? {
        Finding::Run { initial, inputs } => of_run(
            alloc, circuit, counter, position, rounds, initial, inputs,
        ),
        Finding::Invariant(clauses) => of_clauses(
            alloc,
            circuit,
            counter,
            position,
            rounds,
            clauses.as_slice(),
            budget,
        ),
        Finding::Unknown(reason) => Ok(Tried::Unknown(cause_of(reason))),
    }
}

/// Asks the engine whether a run holds more rounds than this number. It isn't asked where the circuit that counts them has too
/// many variables.
pub fn try_rounds<E: Engine>(
    engine: &mut E,
    alloc: Global,
    circuit: &Model,
    position: u32,
    rounds: u32,
    budget: &mut Budget,
) -> Result<Tried, DecideError>
    requires there { HasProperty circuit.now (Justice position) }
    requires few { rounds ≤ 2 ^ length circuit.now.latches }
    ensures spends { Spends budget.old budget.new }
    ensures stays { E.honest engine.old → E.honest engine.new }
    ensures tried { IfOk result (IsTried circuit.now position rounds) }
    ensures meant { E.honest engine.old → IfOk result (IsMeantFor circuit.now position rounds budget.new) }
    ensures few { IfOk result (λ t. t ≡ Exceeded → rounds ≤ 4194303) }
    ensures refused { IfErr result (HasCause circuit.now (Justice position)) }
{
    match counter_for(alloc, circuit, position, rounds)? {
        Some(counter) => tried_by(engine, alloc, circuit, &counter, position, rounds, budget),
        None => Ok(Tried::TooLarge),
    }
}
