//! Writing the texts of proofs.

ghost use Rattle.std.specs.Prelude.{◌-◌, ◌^◌, ◌<◌, ◌++◌, OnOk, OnErr};
ghost use Rattle.std.specs.Io.KnownBytes.{Appends};
ghost use Rattle.base.specs.Devices.{CountsFailure, PutsBeginning};
ghost use Rattle.lrat.specs.Texts.{Puts, SpellsProof, line_text, proof_text, spaced};

use crate::line::Line;
use crate::lrat_write_error::LratWriteError;
use crate::proof::Proof;
use base::{Failed, Sink, put_all};
use itoa::{Buffer, Integer};

/// Puts a number and the bytes behind it.
fn put_number<I: Integer, W: Sink>(out: &mut W, number: I, behind: &[u8]) -> Result<(), Failed>
    requires { W.failed out.old < 2 ^ 64 - 1 }
    ensures puts { Puts result (W.contents out.old) (W.contents out.new) (I.text number ++ behind.now) }
    ensures counts { CountsFailure (W.failed out.old) (W.failed out.new) result }
{
    let mut buffer = Buffer::new();
    put_all(out, buffer.format(number).as_bytes())?;
    put_all(out, behind)
}

/// Puts the numbers, a space behind each, and the end of their list.
fn put_numbers<I: Integer, W: Sink>(out: &mut W, numbers: &[I], end: &[u8]) -> Result<(), Failed>
    requires { W.failed out.old < 2 ^ 64 - 1 }
    ensures puts { Puts result (W.contents out.old) (W.contents out.new) (spaced I.text numbers.now ++ end.now) }
    ensures counts { CountsFailure (W.failed out.old) (W.failed out.new) result }
{
    for number in numbers {
        put_number(out, *number, b" ")?;
    }
    put_all(out, end)
}

/// Puts a line.
fn put_line<W: Sink>(out: &mut W, line: &Line) -> Result<(), Failed>
    requires { W.failed out.old < 2 ^ 64 - 1 }
    ensures puts { Puts result (W.contents out.old) (W.contents out.new) (line_text line.now) }
    ensures counts { CountsFailure (W.failed out.old) (W.failed out.new) result }
{
    match line {
        Line::Add { id, clause, hints } => {
            put_number(out, *id, b" ")?;
            put_numbers(out, clause.as_slice(), b"0 ")?;
            put_numbers(out, hints.as_slice(), b"0\n")
        }
        Line::Delete { id, ids } => {
            put_number(out, *id, b" d ")?;
            put_numbers(out, ids.as_slice(), b"0\n")
        }
    }
}

/// Puts the lines one after another.
fn put_lines<W: Sink>(out: &mut W, lines: &[Line]) -> Result<(), Failed>
    requires { W.failed out.old < 2 ^ 64 - 1 }
    ensures puts { Puts result (W.contents out.old) (W.contents out.new) (proof_text lines.now) }
    ensures counts { CountsFailure (W.failed out.old) (W.failed out.new) result }
{
    for line in lines {
        put_line(out, line)?;
    }
    Ok(())
}

/// Writes the text of a proof (LRAT 2017), which is the one text that spells it: `read` gives the
/// proof again. After a failure of the sink a beginning of the text was put. It takes no memory.
pub fn write<W: Sink>(proof: &Proof, out: &mut W) -> Result<(), LratWriteError>
    requires { W.failed out.old < 2 ^ 64 - 1 }
    ensures written { OnOk result (Appends (W.contents out.old) (W.contents out.new) (proof_text proof.now)) }
    ensures spelled { SpellsProof (proof_text proof.now) proof.now }
    ensures beginning { OnErr result (PutsBeginning (W.contents out.old) (W.contents out.new) (proof_text proof.now)) }
    ensures counts { CountsFailure (W.failed out.old) (W.failed out.new) result }
{
    put_lines(out, proof.lines())?;
    Ok(())
}
