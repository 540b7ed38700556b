//! The lines that tell an answer.

ghost use Rattle.std.specs.Prelude.{◌≡◌, ◌+◌, ◌-◌, ◌<◌, ◌^◌, ◌++◌, Err, IfOk, OnOk, OnErr, IsErrOf, decimal};
ghost use Rattle.graph.specs.Circuits.{property_text};
ghost use Rattle.checker.specs.Lines.{BeginsToTell, Tells, yes_line as yes_text, no_line as no_text};
ghost use Rattle.checker.specs.declared.answer_error.AnswerError.TheVariants.{Device as Failure};
ghost use Rattle.checker.specs.declared.run_error.RunError.TheVariants.{Device};

use crate::answer_error::AnswerError;
use crate::run_error::RunError;
use base::{Refused, Sink, extend, push, put_all};
use graph::Property;
use itoa::Buffer;
use std::alloc::Global;

/// What is asked of two texts.
#[derive(Clone, Copy)]
pub enum Question {
    /// Whether the second is a certificate that is accepted for the first.
    Safe,
    /// Whether the second is a stimulus that shows its violation in the first.
    Run,
}

/// Adds a number in decimal.
fn push_number(line: &mut Vec<u8>, number: u32) -> Result<(), Refused>
    ensures { OnOk result (line.new.items ≡ line.old.items ++ decimal number) }
{
    let mut buffer = Buffer::new();
    extend(line, buffer.format(number).as_bytes())?;
    Ok(())
}

/// Adds a property's name: `b`, `j` or `o`, and its position.
fn push_property(line: &mut Vec<u8>, property: Property) -> Result<(), Refused>
    ensures { OnOk result (line.new.items ≡ line.old.items ++ property_text property) }
{
    let (letter, position) = match property {
        Property::Bad(n) => (b'b', n),
        Property::Justice(n) => (b'j', n),
        Property::Output(n) => (b'o', n),
    };
    push(line, letter)?;
    push_number(line, position)?;
    Ok(())
}

/// The line that says yes to a property.
fn yes_line(alloc: Global, question: Question, property: Property) -> Result<Vec<u8>, Refused>
    ensures { IfOk result (λ v. v.items ≡ yes_text question property) }
{
    let mut line = Vec::new(alloc);
    match question {
        Question::Safe => extend(&mut line, b"yes safe ")?,
        Question::Run => extend(&mut line, b"yes run ")?,
    }
    push_property(&mut line, property)?;
    push(&mut line, b'\n')?;
    Ok(line)
}

/// The line that says no, with the number of the refusal.
fn no_line(alloc: Global, number: u8) -> Result<Vec<u8>, Refused>
    ensures { IfOk result (λ v. v.items ≡ no_text number) }
{
    let mut line = Vec::new(alloc);
    extend(&mut line, b"no ")?;
    push_number(&mut line, u32::from(number))?;
    push(&mut line, b'\n')?;
    Ok(line)
}

/// Puts the line of an answer at once: `yes`, what was asked and the property, or `no` and a number.
/// Where there is no answer, nothing is put.
pub fn tell<W: Sink>(
    alloc: Global,
    question: Question,
    answer: Result<Property, AnswerError>,
    out: &mut W,
) -> Result<bool, RunError>
    requires { W.failed out.old < 2 ^ 64 - 1 }
    ensures tells { IfOk result (λ yes. Tells question answer yes (W.contents out.old) (W.contents out.new)) }
    ensures device { answer ≡ Err Failure → (result ≡ Err Device) × (out.new ≡ out.old) }
    ensures failed { (answer ≡ Err Failure → ⊥) → IsErrOf result Device → W.failed out.new ≡ W.failed out.old + 1 }
    ensures kept { (IsErrOf result Device → ⊥) → W.failed out.new ≡ W.failed out.old }
    ensures nothing { OnErr result (W.failed out.new ≡ W.failed out.old → out.new ≡ out.old) }
    ensures beginning { OnErr result (W.failed out.new ≡ W.failed out.old + 1 → BeginsToTell question answer (W.contents out.old) (W.contents out.new)) }
{
    let (yes, line) = match answer {
        Ok(property) => (true, yes_line(alloc, question, property)?),
        Err(AnswerError::No(number)) => (false, no_line(alloc, number)?),
        Err(AnswerError::OutOfMemory(refused)) => return Err(RunError::OutOfMemory(refused)),
        Err(AnswerError::Device) => return Err(RunError::Device),
    };
    put_all(out, line.as_slice())?;
    Ok(yes)
}
