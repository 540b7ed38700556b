//! From the bytes of a circuit and a certificate to an answer.

ghost use Rattle.std.specs.Prelude.{◌≡◌, ◌+◌, ◌-◌, ◌<◌, ◌^◌, ℕ, List, IfOk, IsErrOf, IsTrue, MatchResult, OnErr, false};
ghost use Rattle.std.specs.Io.KnownBytes.{Appends};
ghost use Rattle.base.specs.Devices.{IsAtEnd, Reads};
ghost use Rattle.aiger.specs.Layouts.{SpellsFile};
ghost use Rattle.aiger.specs.Loading.{IsFileOf};
ghost use Rattle.graph.specs.declared.circuit.Property.{Property as AProperty};
ghost use Rattle.graph.specs.File.{File};
ghost use Rattle.checker.specs.Lines.{yes_line, no_line};
ghost use Rattle.checker.specs.Verdicts.{Accepts, BoundsRounds, BeginsLine, BeginsLineFor, IsRefusal, IsRefusalFor, IsUpheldText};
ghost use Rattle.checker.specs.AnswerErrors.{IsAnswerError, FailsOne};
ghost use Rattle.checker.specs.declared.line.Question.TheVariants.{Safe};
ghost use Rattle.checker.specs.declared.answer_error.AnswerError.TheVariants.{Device as Failure};
ghost use Rattle.checker.specs.declared.run_error.RunError.TheVariants.{Device};

use crate::answer_error::AnswerError;
use crate::asked::about;
use crate::certificate_text::check_source;
use crate::line::{Question, tell};
use crate::run_error::RunError;
use aiger::load;
use base::{Sink, Source};
use checker3::refused_law;
use extension::{accepted_law, accepted_rounds_law};
use graph::{AigerFile, Property};
use std::alloc::Global;

/// The property that is shown safe of the circuit in the file, by the bytes of a source.
fn safe_property_of<C: Source>(
    alloc: Global,
    file: &AigerFile,
    certificate: &mut C,
) -> Result<Property, AnswerError>
    requires certificate { C.failed certificate.old < 2 ^ 64 - 1 }
    ensures says { (xs : List ℕ) → IsFileOf xs file.now → Reads (C.leaves certificate.old) (C.leaves certificate.new) (λ ys _. MatchResult result (λ p. Accepts xs ys p) (IsAnswerError (IsRefusal xs ys))) }
    ensures ended { IfOk result (λ _. IsAtEnd (C.leaves certificate.new)) }
    ensures device { IsErrOf result Failure → C.failed certificate.new ≡ C.failed certificate.old + 1 }
    ensures others { (IsErrOf result Failure → ⊥) → C.failed certificate.new ≡ C.failed certificate.old }
{
    let outcome = check_source(alloc, file.model(), certificate)?;
    match outcome.refusal {
        None => Ok(outcome.property),
        Some(number) => Err(AnswerError::No(number)),
    }
}

/// The property that is shown safe, by the bytes of two sources. Where the first spells no circuit,
/// the second is not read.
fn safe_property<M: Source, C: Source>(
    alloc: Global,
    circuit: &mut M,
    certificate: &mut C,
) -> Result<Property, AnswerError>
    requires circuit { M.failed circuit.old < 2 ^ 64 - 1 }
    requires certificate { C.failed certificate.old < 2 ^ 64 - 1 }
    ensures says { Reads (M.leaves circuit.old) (M.leaves circuit.new) (λ xs _. Reads (C.leaves certificate.old) (C.leaves certificate.new) (λ ys _. MatchResult result (λ p. Accepts xs ys p) (IsAnswerError (IsRefusal xs ys)))) }
    ensures ended { IfOk result (λ _. IsAtEnd (M.leaves circuit.new) × IsAtEnd (C.leaves certificate.new)) }
    ensures unread { Reads (M.leaves circuit.old) (M.leaves circuit.new) (λ xs _. ((f : File) → SpellsFile xs f → ⊥) → certificate.new ≡ certificate.old) }
    ensures fails { FailsOne result Failure (record { circuit = M.failed circuit.old; evidence = C.failed certificate.old; out = 0 }) (record { circuit = M.failed circuit.new; evidence = C.failed certificate.new; out = 0 }) }
{
    let file = load(alloc, circuit)?;
    safe_property_of(alloc, &file, certificate)
}

/// Says whether the certificate, of any version, that the second source's bytes spell is accepted for
/// the circuit that the first's spell (AIGER 1.9, binary where the second byte is `i`, else ASCII): it
/// puts `yes safe P` with the property that the certificate names, or `no NUMBER`, and a line end.
///
/// A yes means that no run of the circuit that keeps the constraints sets that bad literal, or the
/// output that is taken as one, at any time or, for a justice property, holds more rounds of it than
/// the circuit has states. A fault of the first text is reported without reading the second, and a fault
/// of the second, anywhere in it, before every fault of the certificate. Where memory is refused or a
/// source fails, nothing is put.
///
/// The certificate is checked while it is read. It takes no memory beyond the file, the clauses of
/// the invariant, those that the cases share, lemmas too, those of one section, one line of the
/// certificate, and in version 3 the extended circuit. While the first text is read, its bytes are
/// held too.
pub fn run_safe<M: Source, C: Source, W: Sink>(
    alloc: Global,
    circuit: &mut M,
    certificate: &mut C,
    out: &mut W,
) -> Result<bool, RunError>
    requires circuit { M.failed circuit.old < 2 ^ 64 - 1 }
    requires certificate { C.failed certificate.old < 2 ^ 64 - 1 }
    requires out { W.failed out.old < 2 ^ 64 - 1 }
    // Yes: the certificate is accepted, the property is upheld, and the line says so.
    ensures yes { Reads (M.leaves circuit.old) (M.leaves circuit.new) (λ xs _. Reads (C.leaves certificate.old) (C.leaves certificate.new) (λ ys _. IfOk result (λ yes. IsTrue yes → (p : AProperty) × Accepts xs ys p × IsUpheldText xs p × Appends (W.contents out.old) (W.contents out.new) (yes_line Safe p)))) }
    // A yes to a certificate of justice that names a number of rounds bounds them by it.
    ensures rounds { Reads (M.leaves circuit.old) (M.leaves circuit.new) (λ xs _. Reads (C.leaves certificate.old) (C.leaves certificate.new) (λ ys _. IfOk result (λ yes. IsTrue yes → BoundsRounds xs ys))) }
    // A yes is about all the bytes: both sources told their end.
    ensures ended { IfOk result (λ yes. IsTrue yes → IsAtEnd (M.leaves circuit.new) × IsAtEnd (C.leaves certificate.new)) }
    // No: there is a reason, and the line has its number.
    ensures no { Reads (M.leaves circuit.old) (M.leaves circuit.new) (λ xs _. Reads (C.leaves certificate.old) (C.leaves certificate.new) (λ ys _. IfOk result (λ yes. yes ≡ false → (n : ℕ) × IsRefusal xs ys n × Appends (W.contents out.old) (W.contents out.new) (no_line n)))) }
    // Whatever is accepted gets a yes, unless memory runs out or a device fails.
    ensures exact { Reads (M.leaves circuit.old) (M.leaves circuit.new) (λ xs _. Reads (C.leaves certificate.old) (C.leaves certificate.new) (λ ys _. (p : AProperty) → Accepts xs ys p → IfOk result (λ yes. IsTrue yes))) }
    // Where the text spells no circuit, the second source is not read.
    ensures unread { Reads (M.leaves circuit.old) (M.leaves circuit.new) (λ xs _. ((f : File) → SpellsFile xs f → ⊥) → certificate.new ≡ certificate.old) }
    // A device's fault is answered exactly where one of them failed.
    ensures fails { FailsOne result Device (record { circuit = M.failed circuit.old; evidence = C.failed certificate.old; out = W.failed out.old }) (record { circuit = M.failed circuit.new; evidence = C.failed certificate.new; out = W.failed out.new }) }
    // Without an answer, and without a failure of the sink, nothing was put.
    ensures nothing { OnErr result (W.failed out.new ≡ W.failed out.old → out.new ≡ out.old) }
    // After a failure of the sink a beginning of the line was put.
    ensures beginning { Reads (M.leaves circuit.old) (M.leaves circuit.new) (λ xs _. Reads (C.leaves certificate.old) (C.leaves certificate.new) (λ ys _. OnErr result (W.failed out.new ≡ W.failed out.old + 1 → BeginsLine xs ys (W.contents out.old) (W.contents out.new)))) }
{
    accepted_law();
    accepted_rounds_law();
    refused_law();
    let answer = safe_property(alloc, circuit, certificate);
    tell(alloc, Question::Safe, answer, out)
}

/// As `run_safe`, of this property alone: where the certificate is of another one, the answer is `no 30`.
pub fn run_safe_for<M: Source, C: Source, W: Sink>(
    alloc: Global,
    property: Property,
    circuit: &mut M,
    certificate: &mut C,
    out: &mut W,
) -> Result<bool, RunError>
    requires circuit { M.failed circuit.old < 2 ^ 64 - 1 }
    requires certificate { C.failed certificate.old < 2 ^ 64 - 1 }
    requires out { W.failed out.old < 2 ^ 64 - 1 }
    // Yes: the certificate is accepted, the property is upheld, and the line says so.
    ensures yes { Reads (M.leaves circuit.old) (M.leaves circuit.new) (λ xs _. Reads (C.leaves certificate.old) (C.leaves certificate.new) (λ ys _. IfOk result (λ yes. IsTrue yes → Accepts xs ys property × IsUpheldText xs property × Appends (W.contents out.old) (W.contents out.new) (yes_line Safe property)))) }
    // A yes to a certificate of justice that names a number of rounds bounds them by it.
    ensures rounds { Reads (M.leaves circuit.old) (M.leaves circuit.new) (λ xs _. Reads (C.leaves certificate.old) (C.leaves certificate.new) (λ ys _. IfOk result (λ yes. IsTrue yes → BoundsRounds xs ys))) }
    // A yes is about all the bytes: both sources told their end.
    ensures ended { IfOk result (λ yes. IsTrue yes → IsAtEnd (M.leaves circuit.new) × IsAtEnd (C.leaves certificate.new)) }
    // No: there is a reason, and the line has its number.
    ensures no { Reads (M.leaves circuit.old) (M.leaves circuit.new) (λ xs _. Reads (C.leaves certificate.old) (C.leaves certificate.new) (λ ys _. IfOk result (λ yes. yes ≡ false → (n : ℕ) × IsRefusalFor property xs ys n × Appends (W.contents out.old) (W.contents out.new) (no_line n)))) }
    // Whatever is accepted gets a yes, unless memory runs out or a device fails.
    ensures exact { Reads (M.leaves circuit.old) (M.leaves circuit.new) (λ xs _. Reads (C.leaves certificate.old) (C.leaves certificate.new) (λ ys _. Accepts xs ys property → IfOk result (λ yes. IsTrue yes))) }
    // Where the text spells no circuit, the second source is not read.
    ensures unread { Reads (M.leaves circuit.old) (M.leaves circuit.new) (λ xs _. ((f : File) → SpellsFile xs f → ⊥) → certificate.new ≡ certificate.old) }
    // A device's fault is answered exactly where one of them failed.
    ensures fails { FailsOne result Device (record { circuit = M.failed circuit.old; evidence = C.failed certificate.old; out = W.failed out.old }) (record { circuit = M.failed circuit.new; evidence = C.failed certificate.new; out = W.failed out.new }) }
    // Without an answer, and without a failure of the sink, nothing was put.
    ensures nothing { OnErr result (W.failed out.new ≡ W.failed out.old → out.new ≡ out.old) }
    // After a failure of the sink a beginning of the line was put.
    ensures beginning { Reads (M.leaves circuit.old) (M.leaves circuit.new) (λ xs _. Reads (C.leaves certificate.old) (C.leaves certificate.new) (λ ys _. OnErr result (W.failed out.new ≡ W.failed out.old + 1 → BeginsLineFor property xs ys (W.contents out.old) (W.contents out.new)))) }
{
    accepted_law();
    accepted_rounds_law();
    refused_law();
    let answer = about(property, safe_property(alloc, circuit, certificate));
    tell(alloc, Question::Safe, answer, out)
}
