//! From the bytes of a circuit and a stimulus to an answer.

ghost use Rattle.std.specs.Prelude.{◌≡◌, ◌+◌, ◌-◌, ◌<◌, ◌^◌, ℕ, List, IfOk, IsErrOf, IsTrue, MatchResult, OnErr, false};
ghost use Rattle.std.specs.Io.KnownBytes.{Appends};
ghost use Rattle.base.specs.Devices.{IsAtEnd, Reads};
ghost use Rattle.aiger.specs.Layouts.{SpellsFile};
ghost use Rattle.aiger.specs.Loading.{IsFileOf};
ghost use Rattle.graph.specs.declared.circuit.Property.{Property as AProperty};
ghost use Rattle.graph.specs.File.{File};
ghost use Rattle.checker.specs.Lines.{yes_line, no_line};
ghost use Rattle.checker.specs.Replayed.{BeginsRunLine, BeginsRunLineFor, Confirms, IsRunRefusal, IsRunRefusalFor};
ghost use Rattle.checker.specs.AnswerErrors.{IsAnswerError, FailsOne};
ghost use Rattle.checker.specs.declared.line.Question.TheVariants.{Run};
ghost use Rattle.checker.specs.declared.answer_error.AnswerError.TheVariants.{Device as Failure};
ghost use Rattle.checker.specs.declared.run_error.RunError.TheVariants.{Device};

use crate::answer_error::AnswerError;
use crate::asked::about;
use crate::line::{Question, tell};
use crate::run_error::RunError;
use aiger::load;
use base::{Sink, Source};
use graph::{AigerFile, Property};
use replay::judge_source;
use std::alloc::Global;

/// The property of the circuit in the file whose violation is shown, by the bytes of a source.
fn violated_property_of<C: Source>(
    alloc: Global,
    file: &AigerFile,
    stimulus: &mut C,
) -> Result<Property, AnswerError>
    requires stimulus { C.failed stimulus.old < 2 ^ 64 - 1 }
    ensures says { (xs : List ℕ) → IsFileOf xs file.now → Reads (C.leaves stimulus.old) (C.leaves stimulus.new) (λ ys _. MatchResult result (λ p. Confirms xs ys p) (IsAnswerError (IsRunRefusal xs ys))) }
    ensures ended { IfOk result (λ _. IsAtEnd (C.leaves stimulus.new)) }
    ensures device { IsErrOf result Failure → C.failed stimulus.new ≡ C.failed stimulus.old + 1 }
    ensures others { (IsErrOf result Failure → ⊥) → C.failed stimulus.new ≡ C.failed stimulus.old }
{
    let outcome = judge_source(alloc, file.model(), stimulus)?;
    match outcome.refusal {
        None => Ok(outcome.property),
        Some(number) => Err(AnswerError::No(number)),
    }
}

/// The property whose violation is shown, by the bytes of two sources. Where the first spells no
/// circuit, the second is not read.
fn violated_property<M: Source, C: Source>(
    alloc: Global,
    circuit: &mut M,
    stimulus: &mut C,
) -> Result<Property, AnswerError>
    requires circuit { M.failed circuit.old < 2 ^ 64 - 1 }
    requires stimulus { C.failed stimulus.old < 2 ^ 64 - 1 }
    ensures says { Reads (M.leaves circuit.old) (M.leaves circuit.new) (λ xs _. Reads (C.leaves stimulus.old) (C.leaves stimulus.new) (λ ys _. MatchResult result (λ p. Confirms xs ys p) (IsAnswerError (IsRunRefusal xs ys)))) }
    ensures ended { IfOk result (λ _. IsAtEnd (M.leaves circuit.new) × IsAtEnd (C.leaves stimulus.new)) }
    ensures unread { Reads (M.leaves circuit.old) (M.leaves circuit.new) (λ xs _. ((f : File) → SpellsFile xs f → ⊥) → stimulus.new ≡ stimulus.old) }
    ensures fails { FailsOne result Failure (record { circuit = M.failed circuit.old; evidence = C.failed stimulus.old; out = 0 }) (record { circuit = M.failed circuit.new; evidence = C.failed stimulus.new; out = 0 }) }
{
    let file = load(alloc, circuit)?;
    violated_property_of(alloc, &file, stimulus)
}

/// Says whether the stimulus that the second source's bytes spell shows its violation in the circuit
/// that the first's spell (AIGER 1.9, binary where the second byte is `i`, else ASCII): it puts
/// `yes run P` with the property that the stimulus names, or `no NUMBER`, and a line end.
///
/// A yes means that the one replay of the stimulus is a run that keeps the constraints, and sets the
/// bad literal, or the output that is taken as one, at its last time, or closes a lasso in which each
/// wanted literal is set. A fault of the first text is reported without reading the second, and a fault
/// of the second, anywhere in it, before what its replay shows. Where memory is refused or a source
/// fails, nothing is put.
///
/// The stimulus is replayed while it is read. For a bad literal or an output it takes no memory beyond
/// the file, two states, a valuation and one line of the stimulus, however long that is. For a justice
/// property it holds the lines too, and two states and a valuation more. While the first text is read,
/// its bytes are held too.
pub fn run_stimulus<M: Source, C: Source, W: Sink>(
    alloc: Global,
    circuit: &mut M,
    stimulus: &mut C,
    out: &mut W,
) -> Result<bool, RunError>
    requires circuit { M.failed circuit.old < 2 ^ 64 - 1 }
    requires stimulus { C.failed stimulus.old < 2 ^ 64 - 1 }
    requires out { W.failed out.old < 2 ^ 64 - 1 }
    // Yes: the stimulus shows its violation, and the line says so.
    ensures yes { Reads (M.leaves circuit.old) (M.leaves circuit.new) (λ xs _. Reads (C.leaves stimulus.old) (C.leaves stimulus.new) (λ ys _. IfOk result (λ yes. IsTrue yes → (p : AProperty) × Confirms xs ys p × Appends (W.contents out.old) (W.contents out.new) (yes_line Run p)))) }
    // A yes is about all the bytes: both sources told their end.
    ensures ended { IfOk result (λ yes. IsTrue yes → IsAtEnd (M.leaves circuit.new) × IsAtEnd (C.leaves stimulus.new)) }
    // No: there is a reason, and the line has its number.
    ensures no { Reads (M.leaves circuit.old) (M.leaves circuit.new) (λ xs _. Reads (C.leaves stimulus.old) (C.leaves stimulus.new) (λ ys _. IfOk result (λ yes. yes ≡ false → (n : ℕ) × IsRunRefusal xs ys n × Appends (W.contents out.old) (W.contents out.new) (no_line n)))) }
    // Whatever shows its violation gets a yes, unless memory runs out or a device fails.
    ensures exact { Reads (M.leaves circuit.old) (M.leaves circuit.new) (λ xs _. Reads (C.leaves stimulus.old) (C.leaves stimulus.new) (λ ys _. (p : AProperty) → Confirms xs ys p → IfOk result (λ yes. IsTrue yes))) }
    // Where the text spells no circuit, the second source is not read.
    ensures unread { Reads (M.leaves circuit.old) (M.leaves circuit.new) (λ xs _. ((f : File) → SpellsFile xs f → ⊥) → stimulus.new ≡ stimulus.old) }
    // A device's fault is answered exactly where one of them failed.
    ensures fails { FailsOne result Device (record { circuit = M.failed circuit.old; evidence = C.failed stimulus.old; out = W.failed out.old }) (record { circuit = M.failed circuit.new; evidence = C.failed stimulus.new; out = W.failed out.new }) }
    // Without an answer, and without a failure of the sink, nothing was put.
    ensures nothing { OnErr result (W.failed out.new ≡ W.failed out.old → out.new ≡ out.old) }
    // After a failure of the sink a beginning of the line was put.
    ensures beginning { Reads (M.leaves circuit.old) (M.leaves circuit.new) (λ xs _. Reads (C.leaves stimulus.old) (C.leaves stimulus.new) (λ ys _. OnErr result (W.failed out.new ≡ W.failed out.old + 1 → BeginsRunLine xs ys (W.contents out.old) (W.contents out.new)))) }
{
    let answer = violated_property(alloc, circuit, stimulus);
    tell(alloc, Question::Run, answer, out)
}

/// As `run_stimulus`, of this property alone: where the stimulus is of another one, the answer is `no 30`.
pub fn run_stimulus_for<M: Source, C: Source, W: Sink>(
    alloc: Global,
    property: Property,
    circuit: &mut M,
    stimulus: &mut C,
    out: &mut W,
) -> Result<bool, RunError>
    requires circuit { M.failed circuit.old < 2 ^ 64 - 1 }
    requires stimulus { C.failed stimulus.old < 2 ^ 64 - 1 }
    requires out { W.failed out.old < 2 ^ 64 - 1 }
    // Yes: the stimulus shows its violation, and the line says so.
    ensures yes { Reads (M.leaves circuit.old) (M.leaves circuit.new) (λ xs _. Reads (C.leaves stimulus.old) (C.leaves stimulus.new) (λ ys _. IfOk result (λ yes. IsTrue yes → Confirms xs ys property × Appends (W.contents out.old) (W.contents out.new) (yes_line Run property)))) }
    // A yes is about all the bytes: both sources told their end.
    ensures ended { IfOk result (λ yes. IsTrue yes → IsAtEnd (M.leaves circuit.new) × IsAtEnd (C.leaves stimulus.new)) }
    // No: there is a reason, and the line has its number.
    ensures no { Reads (M.leaves circuit.old) (M.leaves circuit.new) (λ xs _. Reads (C.leaves stimulus.old) (C.leaves stimulus.new) (λ ys _. IfOk result (λ yes. yes ≡ false → (n : ℕ) × IsRunRefusalFor property xs ys n × Appends (W.contents out.old) (W.contents out.new) (no_line n)))) }
    // Whatever shows its violation gets a yes, unless memory runs out or a device fails.
    ensures exact { Reads (M.leaves circuit.old) (M.leaves circuit.new) (λ xs _. Reads (C.leaves stimulus.old) (C.leaves stimulus.new) (λ ys _. Confirms xs ys property → IfOk result (λ yes. IsTrue yes))) }
    // Where the text spells no circuit, the second source is not read.
    ensures unread { Reads (M.leaves circuit.old) (M.leaves circuit.new) (λ xs _. ((f : File) → SpellsFile xs f → ⊥) → stimulus.new ≡ stimulus.old) }
    // A device's fault is answered exactly where one of them failed.
    ensures fails { FailsOne result Device (record { circuit = M.failed circuit.old; evidence = C.failed stimulus.old; out = W.failed out.old }) (record { circuit = M.failed circuit.new; evidence = C.failed stimulus.new; out = W.failed out.new }) }
    // Without an answer, and without a failure of the sink, nothing was put.
    ensures nothing { OnErr result (W.failed out.new ≡ W.failed out.old → out.new ≡ out.old) }
    // After a failure of the sink a beginning of the line was put.
    ensures beginning { Reads (M.leaves circuit.old) (M.leaves circuit.new) (λ xs _. Reads (C.leaves stimulus.old) (C.leaves stimulus.new) (λ ys _. OnErr result (W.failed out.new ≡ W.failed out.old + 1 → BeginsRunLineFor property xs ys (W.contents out.old) (W.contents out.new)))) }
{
    let answer = about(property, violated_property(alloc, circuit, stimulus));
    tell(alloc, Question::Run, answer, out)
}
