//! From clauses to a certificate.

ghost use Rattle.std.specs.Prelude.{◌≡◌, ◌≤◌, All, IfErr, IfOk, length};
ghost use Rattle.base.specs.Budget.{Spends};
ghost use Rattle.base.specs.Witness.{witness};
ghost use Rattle.extension.specs.Accepted.{bad_of, circuit_of};
ghost use Rattle.extension.specs.Extended.{extended};
ghost use Rattle.extension.specs.Inductive.{IsInductiveOver, IsOverAll};
ghost use Rattle.certify3.specs.Causes.{HasCause, IsLate, IsUnspent};
ghost use Rattle.certify3.specs.Outcomes.{IsCertified, IsOfClauses, of_prove_error};
ghost use Rattle.certify3.specs.declared.certify_error.CertifyError.TheVariants.{OutOfMemory};
ghost use Rattle.certify3.specs.declared.certified.Certified.TheVariants.{NotInvariant};
ghost use Rattle.inductive_proofs.specs.declared.counterexample.Counterexample.{Counterexample as ACounterexample};

use crate::additions::Extension;
use crate::certified::Certified;
use crate::certify_error::CertifyError;
use crate::examining::examine;
use crate::judging::judge;
use crate::subject::subject_of;
use base::{Budget, Lists, Refused, Seq};
use certificate3::{Claim, Evidence, Shown};
use graph::{Lit, Model};
use inductive_proofs::{Effort, Proofs, ProveError, prove};
use lrat_trim::Derived;
use std::alloc::Global;

/// What a certificate has of lines and hints.
fn shown_of(derived: Derived) -> Shown {
    Shown {
        lines: derived.lines,
        hints: derived.hints,
    }
}

/// The evidence of clauses, with their proofs.
fn evidence_of(
    alloc: Global,
    extension: Extension,
    invariant: Lists<Lit>,
    proofs: Proofs,
) -> Result<Evidence, Refused>
    ensures latches { IfOk result (λ e. e.latches ≡ extension.entry.latches.now) }
    ensures gates { IfOk result (λ e. e.gates ≡ extension.entry.gates.now) }
    ensures invariant { IfOk result (λ e. e.invariant ≡ invariant) }
{
    Ok(Evidence {
        latches: Seq::from_slice(alloc, extension.latches)?,
        gates: Seq::from_slice(alloc, extension.gates)?,
        invariant,
        first: shown_of(proofs.first),
        step: shown_of(proofs.step),
        last: proofs.last,
    })
}

/// What it comes to that a case has no proof.
fn halted(halt: ProveError) -> Result<Certified, CertifyError>
    ensures { result ≡ of_prove_error halt }
{
    match halt {
        ProveError::NotInvariant(found) => Ok(Certified::NotInvariant(found)),
        ProveError::Spent => Ok(Certified::Spent),
        ProveError::IdsTaken(full) => Err(CertifyError::IdsTaken(full)),
        ProveError::OutOfMemory(refused) => Err(CertifyError::OutOfMemory(refused)),
    }
}

/// The text of the clauses with their proofs, where it is accepted.
fn judged(
    alloc: Global,
    circuit: &Model,
    claim: Claim,
    extension: Extension,
    invariant: Lists<Lit>,
    proofs: Proofs,
) -> Result<Certified, CertifyError>
    ensures certified { IfOk result (IsOfClauses circuit.now claim extension.entry.latches.now extension.entry.gates.now invariant) }
    ensures memory { IfErr result (λ e. e ≡ OutOfMemory witness) }
{
    let evidence = evidence_of(alloc, extension, invariant, proofs)?;
    judge(alloc, circuit, claim, &evidence)
}

/// A certificate of version 3 of the claim, by clauses over any literals of the circuit that the claim
/// speaks of, with the latches and gates. The clauses are not believed: each of their cases is to be
/// refuted, and where something satisfies one, the case and the values are answered. They say that the
/// clauses are no inductive invariant which excludes the literal, and nothing of the property. The text
/// is answered only where `checker3` accepts it; that it does not is no answer about the clauses, and
/// is not known to come, but where no text spells the certificate: of a safety property with rounds.
///
/// Refused are first a claim that cannot be shown, then latches and gates that extend nothing, more than
/// 4,194,303 clauses, and the first clause that is not over the circuit or that repeats or opposes a
/// literal. Only then is anything spent.
///
/// With `Effort::Thorough` what the budget has left is spent on shorter proofs. That it is exhausted then is
/// no refusal: the proofs stand as they are.
///
/// It holds one solver at a time, over a formula of one or two times the circuit and the clauses, then
/// the text, and the text's check.
pub fn certify(
    alloc: Global,
    circuit: &Model,
    claim: Claim,
    extension: Extension,
    invariant: Lists<Lit>,
    effort: Effort,
    budget: &mut Budget,
) -> Result<Certified, CertifyError>
    ensures spends { Spends budget.old budget.new }
    ensures certified { IfOk result (IsCertified circuit.now claim extension.entry.latches.now extension.entry.gates.now invariant budget.new) }
    // What is inductive and excludes the literal is never called no invariant.
    ensures honest { IfOk result (λ r. (x : ACounterexample) → r ≡ NotInvariant x → IsInductiveOver (extended (circuit_of circuit.now claim.property claim.rounds) extension.entry.latches.now extension.entry.gates.now) invariant (bad_of circuit.now claim.property claim.rounds) → ⊥) }
    ensures refused { IfErr result (HasCause circuit.now claim extension.entry.latches.now extension.entry.gates.now invariant) }
    ensures unspent { IfErr result (IsUnspent budget.old budget.new) }
{
    let subject = subject_of(alloc, circuit, claim, extension)?;
    examine(alloc, &subject.circuit, &invariant)?;
    match prove(alloc, &subject, &invariant, effort, budget) {
        Ok(proofs) => judged(alloc, circuit, claim, extension, invariant, proofs),
        Err(halt) => halted(halt),
    }
}
