//! The answers over readers of std, in terms of the bytes that these gave.

ghost use Rattle.std.specs.Prelude.{◌≡◌, ◌+◌, ◌-◌, ◌<◌, ◌^◌, ◌++◌, ℕ, List, IfOk, IfSome, IsTrue, OnErr, false};
ghost use Rattle.std.specs.Io.KnownBytes.{Appends};
ghost use Rattle.aiger.specs.Layouts.{SpellsFile};
ghost use Rattle.graph.specs.declared.circuit.Property.{Property as AProperty};
ghost use Rattle.graph.specs.File.{File};
ghost use Rattle.checker.specs.Lines.{yes_line, no_line};
ghost use Rattle.checker.specs.Readers.{BeginsLineOf, BeginsRunLineOf, Gives, IsDone, IsRefusalOf, IsRunRefusalOf};
ghost use Rattle.checker.specs.Replayed.{Confirms};
ghost use Rattle.checker.specs.AnswerErrors.{FailsOne};
ghost use Rattle.checker.specs.Verdicts.{Accepts, BoundsRounds, IsUpheldText};
ghost use Rattle.checker.specs.declared.line.Question.TheVariants.{Run, Safe};
ghost use Rattle.checker.specs.declared.run_error.RunError.TheVariants.{Device};

use crate::certified::{run_safe, run_safe_for};
use crate::replayed::{run_stimulus, run_stimulus_for};
use crate::run_error::RunError;
use base::{FromRead, Sink};
use graph::Property;
use std::alloc::Global;
use std::io::Read;

/// `run_safe` over two readers, or where a property is wanted `run_safe_for`: a yes is about just the
/// bytes that the two gave in this call.
pub fn safe_of_readers<M: Read, C: Read, W: Sink>(
    alloc: Global,
    wanted: Option<Property>,
    circuit: &mut FromRead<M>,
    certificate: &mut FromRead<C>,
    out: &mut W,
) -> Result<bool, RunError>
    requires circuit { circuit.old.failures < 2 ^ 64 - 1 }
    requires certificate { certificate.old.failures < 2 ^ 64 - 1 }
    requires out { W.failed out.old < 2 ^ 64 - 1 }
    // Yes: of just the bytes that the two gave in this call, and the line says so.
    ensures yes { IfOk result (λ yes. IsTrue yes → (xs : List ℕ) × (ys : List ℕ) × (p : AProperty) × (circuit.new.given ≡ circuit.old.given ++ xs) × (certificate.new.given ≡ certificate.old.given ++ ys) × IfSome wanted (λ q. q ≡ p) × Accepts xs ys p × IsUpheldText xs p × Appends (W.contents out.old) (W.contents out.new) (yes_line Safe p)) }
    // A yes to a certificate of justice that names a number of rounds bounds them by it.
    ensures rounds { IfOk result (λ yes. IsTrue yes → (xs : List ℕ) × (ys : List ℕ) × (circuit.new.given ≡ circuit.old.given ++ xs) × (certificate.new.given ≡ certificate.old.given ++ ys) × BoundsRounds xs ys) }
    // No: there is a reason, in what the two gave and whatever may come after it, and the line has its number.
    ensures no { Gives circuit.old circuit.new M.remaining (λ xs. Gives certificate.old certificate.new C.remaining (λ ys. IfOk result (λ yes. yes ≡ false → (n : ℕ) × IsRefusalOf wanted xs ys n × Appends (W.contents out.old) (W.contents out.new) (no_line n)))) }
    // Whatever is accepted gets a yes, unless memory runs out or a device fails.
    ensures exact { Gives circuit.old circuit.new M.remaining (λ xs. Gives certificate.old certificate.new C.remaining (λ ys. (p : AProperty) → IfSome wanted (λ q. q ≡ p) → Accepts xs ys p → IfOk result (λ yes. IsTrue yes))) }
    // A yes is about all the bytes: both readers told their end.
    ensures ended { IfOk result (λ yes. IsTrue yes → IsDone circuit.new M.remaining × IsDone certificate.new C.remaining) }
    // Where the text spells no circuit, the second reader is not asked.
    ensures unread { Gives circuit.old circuit.new M.remaining (λ xs. ((f : File) → SpellsFile xs f → ⊥) → certificate.new ≡ certificate.old) }
    // A device's fault is answered exactly where one of them failed.
    ensures fails { FailsOne result Device (record { circuit = circuit.old.failures; evidence = certificate.old.failures; out = W.failed out.old }) (record { circuit = circuit.new.failures; evidence = certificate.new.failures; out = W.failed out.new }) }
    // Without an answer, and without a failure of the sink, nothing was put.
    ensures nothing { OnErr result (W.failed out.new ≡ W.failed out.old → out.new ≡ out.old) }
    // After a failure of the sink a beginning of the line was put.
    ensures beginning { Gives circuit.old circuit.new M.remaining (λ xs. Gives certificate.old certificate.new C.remaining (λ ys. OnErr result (W.failed out.new ≡ W.failed out.old + 1 → BeginsLineOf wanted xs ys (W.contents out.old) (W.contents out.new)))) }
{
    match wanted {
        None => run_safe(alloc, circuit, certificate, out),
        Some(property) => run_safe_for(alloc, property, circuit, certificate, out),
    }
}

/// `run_stimulus` over two readers, or where a property is wanted `run_stimulus_for`: a yes is about
/// just the bytes that the two gave in this call.
pub fn run_of_readers<M: Read, C: Read, W: Sink>(
    alloc: Global,
    wanted: Option<Property>,
    circuit: &mut FromRead<M>,
    stimulus: &mut FromRead<C>,
    out: &mut W,
) -> Result<bool, RunError>
    requires circuit { circuit.old.failures < 2 ^ 64 - 1 }
    requires stimulus { stimulus.old.failures < 2 ^ 64 - 1 }
    requires out { W.failed out.old < 2 ^ 64 - 1 }
    // Yes: of just the bytes that the two gave in this call, and the line says so.
    ensures yes { IfOk result (λ yes. IsTrue yes → (xs : List ℕ) × (ys : List ℕ) × (p : AProperty) × (circuit.new.given ≡ circuit.old.given ++ xs) × (stimulus.new.given ≡ stimulus.old.given ++ ys) × IfSome wanted (λ q. q ≡ p) × Confirms xs ys p × Appends (W.contents out.old) (W.contents out.new) (yes_line Run p)) }
    // No: there is a reason, in what the two gave and whatever may come after it, and the line has its number.
    ensures no { Gives circuit.old circuit.new M.remaining (λ xs. Gives stimulus.old stimulus.new C.remaining (λ ys. IfOk result (λ yes. yes ≡ false → (n : ℕ) × IsRunRefusalOf wanted xs ys n × Appends (W.contents out.old) (W.contents out.new) (no_line n)))) }
    // Whatever shows its violation gets a yes, unless memory runs out or a device fails.
    ensures exact { Gives circuit.old circuit.new M.remaining (λ xs. Gives stimulus.old stimulus.new C.remaining (λ ys. (p : AProperty) → IfSome wanted (λ q. q ≡ p) → Confirms xs ys p → IfOk result (λ yes. IsTrue yes))) }
    // A yes is about all the bytes: both readers told their end.
    ensures ended { IfOk result (λ yes. IsTrue yes → IsDone circuit.new M.remaining × IsDone stimulus.new C.remaining) }
    // Where the text spells no circuit, the second reader is not asked.
    ensures unread { Gives circuit.old circuit.new M.remaining (λ xs. ((f : File) → SpellsFile xs f → ⊥) → stimulus.new ≡ stimulus.old) }
    // A device's fault is answered exactly where one of them failed.
    ensures fails { FailsOne result Device (record { circuit = circuit.old.failures; evidence = stimulus.old.failures; out = W.failed out.old }) (record { circuit = circuit.new.failures; evidence = stimulus.new.failures; out = W.failed out.new }) }
    // Without an answer, and without a failure of the sink, nothing was put.
    ensures nothing { OnErr result (W.failed out.new ≡ W.failed out.old → out.new ≡ out.old) }
    // After a failure of the sink a beginning of the line was put.
    ensures beginning { Gives circuit.old circuit.new M.remaining (λ xs. Gives stimulus.old stimulus.new C.remaining (λ ys. OnErr result (W.failed out.new ≡ W.failed out.old + 1 → BeginsRunLineOf wanted xs ys (W.contents out.old) (W.contents out.new)))) }
{
    match wanted {
        None => run_stimulus(alloc, circuit, stimulus, out),
        Some(property) => run_stimulus_for(alloc, property, circuit, stimulus, out),
    }
}
