//! Writing the text of a file.

ghost use Rattle.std.specs.Prelude.{◌≡◌, ◌^◌, ◌<◌, ◌≤◌, ◌-◌, ◌++◌, length, flat_map, option_map, OnOk, OnErr};
ghost use Rattle.std.specs.Io.KnownBytes.{Appends};
ghost use Rattle.base.specs.Devices.{CountsFailure, Puts, PutsBeginning};
ghost use Rattle.aag.specs.Ascii.{SpellsAscii};
ghost use Rattle.aag.specs.Tail.{symbol_line};
ghost use Rattle.aag.specs.Writing.{circuit_text, comment_lines, header_line, trimmed, use_lines, written_text};

use crate::aag_write_error::AagWriteError;
use crate::lines::{GateLine, LatchLine, LiteralLine};
use crate::pieces::{
    Count, JusticeLines, Piece, SizeLine, SymbolLine, put_blocks, put_each, put_number,
};
use base::{Failed, Sink, put_all};
use graph::{AigerFile, Parts, Symbol};

/// The counts up to the last that is not 0.
fn trimmed(counts: &[usize]) -> &[usize]
    requires { length counts.now ≤ 4 }
    ensures { result.now ≡ trimmed counts.now }
{
    let mut kept = counts;
    while let [front @ .., last] = kept
        && *last == 0
    {
        kept = front;
    }
    kept
}

/// Puts the shortest header that begins with this word: of the last four counts none behind the last
/// that is not 0.
pub fn put_header<W: Sink>(out: &mut W, word: &[u8], parts: &Parts) -> Result<(), Failed>
    requires { W.failed out.old < 2 ^ 64 - 1 }
    ensures puts { Puts result (W.contents out.old) (W.contents out.new) (header_line word.now parts.now) }
    ensures counts { CountsFailure (W.failed out.old) (W.failed out.new) result }
{
    let counts = [
        parts.inputs.len(),
        parts.latches.len(),
        parts.outputs.len(),
        parts.gates.len(),
    ];
    let others = [
        parts.bad.len(),
        parts.constraints.len(),
        parts.justice.len(),
        parts.fairness.len(),
    ];
    put_all(out, word)?;
    put_number(out, parts.max_var, b"")?;
    put_each::<Count, W>(out, &counts)?;
    put_each::<Count, W>(out, trimmed(&others))?;
    put_all(out, b"\n")
}

/// Puts what stands between the latches and the gates: outputs, bad literals, constraints, justice
/// properties as all their sizes and then all their literals, and fairness literals.
pub fn put_uses<W: Sink>(out: &mut W, parts: &Parts) -> Result<(), Failed>
    requires { W.failed out.old < 2 ^ 64 - 1 }
    ensures puts { Puts result (W.contents out.old) (W.contents out.new) (use_lines parts.now) }
    ensures counts { CountsFailure (W.failed out.old) (W.failed out.new) result }
{
    put_each::<LiteralLine, W>(out, parts.outputs.as_slice())?;
    put_each::<LiteralLine, W>(out, parts.bad.as_slice())?;
    put_each::<LiteralLine, W>(out, parts.constraints.as_slice())?;
    put_each::<SizeLine, W>(out, parts.justice.as_slice())?;
    put_each::<JusticeLines, W>(out, parts.justice.as_slice())?;
    put_each::<LiteralLine, W>(out, parts.fairness.as_slice())
}

/// Puts the header and the lines of a circuit.
fn put_circuit<W: Sink>(out: &mut W, parts: &Parts) -> Result<(), Failed>
    requires { W.failed out.old < 2 ^ 64 - 1 }
    ensures puts { Puts result (W.contents out.old) (W.contents out.new) (circuit_text parts.now) }
    ensures counts { CountsFailure (W.failed out.old) (W.failed out.new) result }
{
    put_header(out, b"aag ", parts)?;
    put_each::<LiteralLine, W>(out, parts.inputs.as_slice())?;
    put_each::<LatchLine, W>(out, parts.latches.as_slice())?;
    put_uses(out, parts)?;
    put_blocks::<GateLine, W>(out, parts.gates.as_slice())
}

/// The header and the lines of a circuit.
struct Circuit;

impl Piece for Circuit {
    type Item = Parts;

    ghost text = { circuit_text };

    fn put<W: Sink>(out: &mut W, item: &Parts) -> Result<(), Failed> {
        put_circuit(out, item)
    }
}

/// Puts the comment, where there is one: a `c`, a line end and its bytes.
fn put_comment<W: Sink>(out: &mut W, comment: Option<&[u8]>) -> Result<(), Failed>
    requires { W.failed out.old < 2 ^ 64 - 1 }
    ensures puts { Puts result (W.contents out.old) (W.contents out.new) (comment_lines (option_map (λ bytes. bytes.now) comment.entry)) }
    ensures counts { CountsFailure (W.failed out.old) (W.failed out.new) result }
{
    let Some(bytes) = comment else {
        return Ok(());
    };
    put_all(out, b"c\n")?;
    put_all(out, bytes)
}

/// Puts a file that is made of these parts, these symbols and this comment, with the parts as the layout `C` has them.
pub fn put_file<C: Piece<Item = Parts>, W: Sink>(
    out: &mut W,
    parts: &Parts,
    symbols: &[Symbol],
    comment: Option<&[u8]>,
) -> Result<(), Failed>
    requires { W.failed out.old < 2 ^ 64 - 1 }
    ensures puts { Puts result (W.contents out.old) (W.contents out.new) (C.text parts.now ++ flat_map symbol_line symbols.now ++ comment_lines (option_map (λ bytes. bytes.now) comment.entry)) }
    ensures counts { CountsFailure (W.failed out.old) (W.failed out.new) result }
{
    C::put(out, parts)?;
    put_each::<SymbolLine, W>(out, symbols)?;
    put_comment(out, comment)
}

/// Writes the shortest text that spells a file (AIGER 1.9, the ASCII layout): no count behind the
/// last that is needed, no reset that is 0, the symbols in their order, and the comment behind a
/// `c` and a line end. `read` gives the file again where the text has at most 67108864 bytes. After
/// a failure of the sink a beginning of the text was put. It takes no memory, and hands the sink
/// many gates' lines at once, each other number and each name by itself.
pub fn write<W: Sink>(file: &AigerFile, out: &mut W) -> Result<(), AagWriteError>
    requires { W.failed out.old < 2 ^ 64 - 1 }
    ensures written { OnOk result (Appends (W.contents out.old) (W.contents out.new) (written_text file.now)) }
    // What is written spells the file.
    ensures spelled { length (written_text file.now) ≤ 67108864 → SpellsAscii (written_text file.now) file.now }
    ensures beginning { OnErr result (PutsBeginning (W.contents out.old) (W.contents out.new) (written_text file.now)) }
    ensures counts { CountsFailure (W.failed out.old) (W.failed out.new) result }
{
    let parts = file.model().parts();
    let symbols = file.symbols();
    put_file::<Circuit, W>(out, parts, symbols, file.comment())?;
    Ok(())
}
