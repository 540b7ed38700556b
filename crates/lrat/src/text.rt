//! Texts of lines and of proofs.

ghost use Rattle.base.specs.Witness.{witness};
ghost use Rattle.std.specs.Prelude.{◌≡◌, List, IfOk, MatchResult, length};
ghost use Rattle.scan.specs.Reading.{Gives, ended};
ghost use Rattle.scan.specs.declared.fault.Fault.TheVariants.{Memory};
ghost use Rattle.lrat.specs.Reading.{line_at};
ghost use Rattle.lrat.specs.Texts.{IsRead, SpellsLine, SpellsProof, error_of};
ghost use Rattle.lrat.specs.declared.line.Line.{Line as ALine};

use crate::line::Line;
use crate::lrat_error::LratError;
use crate::proof::Proof;
use crate::reading::next_line;
use scan::{Fault, Kinds, place};
use std::alloc::Global;

/// What is wrong in a text, before its place is known as a byte of the whole.
#[derive(Clone, Copy)]
enum LratFault {
    /// No number, or one that is 0 in place of an id or over its limit.
    Number,
    /// Another byte than the line needs.
    Byte,
    /// A byte that is needed is missing.
    Truncated,
}

/// The faults in a line.
const IN_LINE: Kinds<LratFault> = Kinds {
    truncated: LratFault::Truncated,
    number: LratFault::Number,
    over: LratFault::Number,
    byte: LratFault::Byte,
};

/// The error for a fault in a text of `length` bytes.
fn error(length: usize, fault: Fault<LratFault>) -> LratError
    ensures { result ≡ error_of length fault }
{
    match fault {
        Fault::Memory(refused) => LratError::OutOfMemory(refused),
        Fault::Text { kind, left } => {
            let place = place(length, left);
            match kind {
                LratFault::Number => LratError::Number { place },
                LratFault::Byte => LratError::Byte { place },
                LratFault::Truncated => LratError::Truncated { place },
            }
        }
    }
}

/// The line that the whole text is.
fn only_line(alloc: Global, text: &[u8]) -> Result<Line, Fault<LratFault>>
    ensures { Gives (λ x. x) result (ended (line_at text.now)) }
{
    let (line, rest) = next_line(alloc, text, IN_LINE)?;
    if !rest.is_empty() {
        return Err(Fault::Text {
            kind: LratFault::Byte,
            left: rest.len(),
        });
    }
    Ok(line)
}

/// Reads one line with its line end, and nothing behind it (LRAT 2017): `id literals 0 hints 0` or
/// `id d ids 0`, with one space between numbers in canonical decimal.
pub fn parse_line(alloc: Global, text: &[u8]) -> Result<Line, LratError>
    // What is read is spelled so.
    ensures found { IfOk result (λ line. SpellsLine text.now line) }
    // What is spelled so is read, unless memory runs out.
    ensures only { (line : ALine) → SpellsLine text.now line → IsRead result line }
{
    match only_line(alloc, text) {
        Ok(line) => Ok(line),
        Err(fault) => Err(error(text.len(), fault)),
    }
}

/// The lines that the whole text is.
fn lines(alloc: Global, text: &[u8]) -> Result<Proof, Fault<LratFault>>
    ensures found { IfOk result (λ proof. SpellsProof text.now proof) }
    ensures only { (lines : List ALine) → SpellsProof text.now lines → MatchResult result (λ proof. proof ≡ lines) (λ e. e ≡ Memory witness) }
{
    let mut proof = Proof::new(alloc);
    let mut rest = text;
    'reading: while !rest.is_empty() {
        let (line, after) = next_line(alloc, rest, IN_LINE)?;
        proof.push_line(line)?;
        rest = after;
    }
    Ok(proof)
}

/// Reads lines to the end of the text, each as `parse_line` does. No bytes are the proof without
/// lines. One pass over the text.
pub fn read(alloc: Global, text: &[u8]) -> Result<Proof, LratError>
    // What is read is spelled so.
    ensures found { IfOk result (λ proof. SpellsProof text.now proof) }
    // What is spelled so is read, unless memory runs out.
    ensures only { (lines : List ALine) → SpellsProof text.now lines → IsRead result lines }
{
    match lines(alloc, text) {
        Ok(proof) => Ok(proof),
        Err(fault) => Err(error(text.len(), fault)),
    }
}
