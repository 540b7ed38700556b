//! Asking one engine.

ghost use Rattle.std.specs.Prelude.{◌≡◌, IfOk, IfErr};
ghost use Rattle.std.specs.List.{All};
ghost use Rattle.checker2.specs.Accepted.{IsGood, bad_of, circuit_of};
ghost use Rattle.cnf.specs.Invariants.{IsInductive};
ghost use Rattle.base.specs.Budget.{Spends};
ghost use Rattle.stimulus.specs.Shown.{Shows};
ghost use Rattle.stimulus.specs.Texts.{property_of};
ghost use Rattle.graph.specs.Circuits.{HasProperty};
ghost use Rattle.engine.specs.Findings.{IsForBad, IsSo};
ghost use Rattle.base.specs.Witness.{witness};
ghost use Rattle.certify.specs.Causes.{HasCause as HasCertifyCause};
ghost use Rattle.certify.specs.Outcomes.{IsCertified};
ghost use Rattle.certify.specs.declared.certified.Certified.TheVariants.{NotInvariant};
ghost use Rattle.certify.specs.declared.counterexample.Counterexample.{Counterexample as ACounterexample};
ghost use Rattle.verdict.specs.Asked.{ComesOfFinding, IsOfClauses, IsOfReplay, IsVerdictOf, Stops};
ghost use Rattle.verdict.specs.Causes.{HasCause, of_certify, verdict_on};
ghost use Rattle.verdict.specs.Verdicts.{IsAsked, IsBacked, IsMeant, IsUnsafe, IsViolation};
ghost use Rattle.verdict.specs.declared.decide_error.DecideError.TheVariants.{OutOfMemory};

use crate::decide_error::DecideError;
use crate::verdict::Verdict;
use base::{Budget, Seq};
use certify::{Certified, CertifyError, certify, certify_shadow};
use engine::{Engine, EngineError, Finding, Reason};
use graph::{Lit, Model, Property};
use live_safe::lasso_of;
use std::alloc::Global;
use stimulus::{JudgeError, Stimulus, judge};

/// Asks one engine.
fn ask(
    engine: &mut Box<dyn Engine>,
    alloc: Global,
    circuit: &Model,
    budget: &mut Budget,
) -> Result<Finding, EngineError>
    requires { IsForBad circuit.now }
    ensures spends { Spends budget.old budget.new }
    ensures stays { honest engine.old → honest engine.new }
    ensures so { honest engine.old → IfOk result (IsSo circuit.now budget.new) }
    ensures answered { answers engine.old circuit.now budget.old result budget.new }
{
    engine.find(alloc, circuit, budget)
}

/// The stimulus as evidence, where its replay shows the violation.
fn judged(
    alloc: Global,
    circuit: &Model,
    property: Property,
    stimulus: Stimulus,
) -> Result<Verdict, DecideError>
    requires there { HasProperty circuit.now property }
    requires named { property_of stimulus ≡ property }
    ensures backed { IfOk result (IsBacked circuit.now property) }
    ensures shown { Shows circuit.now stimulus → IfOk result IsUnsafe }
    ensures replayed { IfOk result IsOfReplay }
    ensures memory { IfErr result (λ e. e ≡ OutOfMemory witness) }
    ensures refused { IfErr result (HasCause circuit.now property) }
{
    match judge(alloc, circuit, &stimulus) {
        Ok(()) => Ok(Verdict::Unsafe(stimulus)),
        Err(JudgeError::OutOfMemory(refused)) => Err(DecideError::OutOfMemory(refused)),
        Err(_) => Ok(Verdict::Unknown(Reason::NoEvidence)),
    }
}

/// What comes of a run of the circuit that was asked about: a stimulus, which is judged. That of a
/// shadow circuit tells of a lasso, where its lengths are right.
fn of_run(
    alloc: Global,
    circuit: &Model,
    property: Property,
    initial: Seq<bool>,
    inputs: Seq<Seq<bool>>,
) -> Result<Verdict, DecideError>
    requires there { HasProperty circuit.now property }
    ensures backed { IfOk result (IsBacked circuit.now property) }
    ensures shown { IsViolation circuit.now property initial inputs → IfOk result IsUnsafe }
    ensures replayed { IfOk result IsOfReplay }
    ensures memory { IfErr result (λ e. e ≡ OutOfMemory witness) }
    ensures refused { IfErr result (HasCause circuit.now property) }
{
    match property {
        Property::Bad(_) | Property::Output(_) => {
            let stimulus = Stimulus::Violated {
                property,
                initial,
                inputs,
            };
            judged(alloc, circuit, property, stimulus)
        }
        Property::Justice(n) => {
            match lasso_of(alloc, circuit, n, initial.as_slice(), inputs.as_slice()) {
                Ok(Some(lasso)) => judged(alloc, circuit, property, lasso),
                Ok(None) => Ok(Verdict::Unknown(Reason::NoEvidence)),
                Err(refused) => Err(DecideError::OutOfMemory(refused)),
            }
        }
    }
}

/// A certificate of the clauses, which the checker accepts. For a justice property they are about its shadow circuit,
/// which is `circuit`.
fn certificate_of(
    alloc: Global,
    circuit: &Model,
    property: Property,
    asked: &Model,
    invariant: &[Seq<Lit>],
    budget: &mut Budget,
) -> Result<Certified, CertifyError>
    requires asked { IsAsked circuit.now property asked.now }
    ensures spends { Spends budget.old budget.new }
    ensures certified { IfOk result (IsCertified circuit.now property invariant.now budget.new) }
    ensures honest { IfOk result (λ r. (x : ACounterexample) → r ≡ NotInvariant x → IsInductive (circuit_of circuit.now property) invariant.now (bad_of circuit.now property) → ⊥) }
    ensures refused { IfErr result (HasCertifyCause circuit.now property invariant.now) }
{
    match property {
        Property::Justice(n) => certify_shadow(alloc, circuit, n, asked, invariant, budget),
        Property::Bad(_) | Property::Output(_) => {
            certify(alloc, circuit, property, invariant, budget)
        }
    }
}

/// What comes of clauses that are said to be an invariant which upholds the property: a certificate,
/// where each of their cases is refuted.
fn of_clauses(
    alloc: Global,
    circuit: &Model,
    property: Property,
    asked: &Model,
    invariant: &[Seq<Lit>],
    budget: &mut Budget,
) -> Result<Verdict, DecideError>
    requires asked { IsAsked circuit.now property asked.now }
    ensures spends { Spends budget.old budget.new }
    ensures backed { IfOk result (IsBacked circuit.now property) }
    ensures meant { All (IsGood (circuit_of circuit.now property)) invariant.now → IsInductive (circuit_of circuit.now property) invariant.now (bad_of circuit.now property) → IfOk result (IsMeant circuit.now property budget.new) }
    ensures comes { IfOk result (IsOfClauses circuit.now property invariant.now budget.new) }
    ensures stopped { IfErr result (Stops circuit.now property invariant.now) }
    ensures refused { IfErr result (HasCause circuit.now property) }
{
    circuit.well_formed();
    of_certified(certificate_of(alloc, circuit, property, asked, invariant, budget))
}

/// What comes of a certificate of clauses, or of why there is none.
fn of_certified(certified: Result<Certified, CertifyError>) -> Result<Verdict, DecideError>
    ensures { result ≡ verdict_on certified }
{
    match certified {
        Ok(Certified::Certificate(certificate)) => Ok(Verdict::Safe(certificate)),
        Ok(Certified::NotInvariant(_)) => Ok(Verdict::Unknown(Reason::NoEvidence)),
        Ok(Certified::Spent) => Ok(Verdict::Unknown(Reason::Budget)),
        Err(error) => of_refusal(error),
    }
}

/// What comes of clauses of which no certificate is made. A fault of theirs only makes them no
/// evidence.
fn of_refusal(error: CertifyError) -> Result<Verdict, DecideError>
    ensures { result ≡ of_certify error }
{
    match error {
        CertifyError::Limit => Err(DecideError::Limit),
        CertifyError::IdsTaken(full) => Err(DecideError::IdsTaken(full)),
        CertifyError::OutOfMemory(refused) => Err(DecideError::OutOfMemory(refused)),
        CertifyError::NoProperty(_) => Ok(Verdict::Unknown(Reason::NoEvidence)),
        CertifyError::NotLatch { .. } => Ok(Verdict::Unknown(Reason::NoEvidence)),
        CertifyError::Repeated { .. } => Ok(Verdict::Unknown(Reason::NoEvidence)),
    }
}

/// What an engine's finding says of the property, when it was asked about `asked` and this is left of the budget.
fn of_finding(
    alloc: Global,
    circuit: &Model,
    property: Property,
    asked: &Model,
    finding: Finding,
    budget: &mut Budget,
) -> Result<Verdict, DecideError>
    requires asked { IsAsked circuit.now property asked.now }
    ensures spends { Spends budget.old budget.new }
    ensures backed { IfOk result (IsBacked circuit.now property) }
    ensures meant { IsSo asked.now budget.old finding → IfOk result (IsMeant circuit.now property budget.new) }
    ensures comes { ComesOfFinding circuit.now property finding budget.old result budget.new }
    ensures refused { IfErr result (HasCause circuit.now property) }
{
    circuit.well_formed();
    match finding {
        Finding::Run { initial, inputs } => of_run(alloc, circuit, property, initial, inputs),
        Finding::Invariant(clauses) => of_clauses(
            alloc,
            circuit,
            property,
            asked,
            clauses.as_slice(),
            budget,
        ),
        Finding::Unknown(reason) => Ok(Verdict::Unknown(reason)),
    }
}

/// What the answer of one of several engines says of the property, when it is asked about `asked`.
pub fn verdict_of(
    engine: &mut Box<dyn Engine>,
    alloc: Global,
    circuit: &Model,
    property: Property,
    asked: &Model,
    budget: &mut Budget,
) -> Result<Verdict, DecideError>
    requires asked { IsAsked circuit.now property asked.now }
    ensures spends { Spends budget.old budget.new }
    ensures stays { honest engine.old → honest engine.new }
    ensures backed { IfOk result (IsBacked circuit.now property) }
    ensures meant { honest engine.old → IfOk result (IsMeant circuit.now property budget.new) }
    ensures answered { IsVerdictOf (answers engine.old asked.now) circuit.now property budget.old result budget.new }
    ensures refused { IfErr result (HasCause circuit.now property) }
{
    let finding = ask(engine, alloc, asked, budget)?;
    of_finding(alloc, circuit, property, asked, finding, budget)
}

/// The same of an engine that is asked alone.
pub fn verdict_by<E: Engine>(
    engine: &mut E,
    alloc: Global,
    circuit: &Model,
    property: Property,
    asked: &Model,
    budget: &mut Budget,
) -> Result<Verdict, DecideError>
    requires asked { IsAsked circuit.now property asked.now }
    ensures spends { Spends budget.old budget.new }
    ensures stays { E.honest engine.old → E.honest engine.new }
    ensures backed { IfOk result (IsBacked circuit.now property) }
    ensures meant { E.honest engine.old → IfOk result (IsMeant circuit.now property budget.new) }
    ensures answered { IsVerdictOf (E.answers engine.old asked.now) circuit.now property budget.old result budget.new }
    ensures refused { IfErr result (HasCause circuit.now property) }
{
    let finding = engine.find(alloc, asked, budget)?;
    of_finding(alloc, circuit, property, asked, finding, budget)
}
