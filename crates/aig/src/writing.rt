//! Writing the text of a file.

ghost use Rattle.std.specs.Prelude.{◌≡◌, ◌≢◌, ◌^◌, ◌<◌, ◌≤◌, ◌-◌, ◌↔◌, length, Err, OnOk, OnErr};
ghost use Rattle.std.specs.Io.KnownBytes.{Appends};
ghost use Rattle.base.specs.Devices.{CountsFailure, Puts, PutsBeginning};
ghost use Rattle.graph.specs.Circuits.{IsOrdered};
ghost use Rattle.aig.specs.declared.aig_write_error.AigWriteError.TheVariants.{Unordered};
ghost use Rattle.aig.specs.Binary.{SpellsBinary};
ghost use Rattle.aig.specs.Writing.{circuit_text, written_text};

use crate::aig_write_error::AigWriteError;
use crate::lines::{GateDeltas, LatchLine};
use aag::{Piece, put_blocks, put_each, put_file, put_header, put_uses};
use base::{Failed, Sink};
use graph::{AigerFile, Parts};

/// Puts the header, the lines and the gates of a circuit.
fn put_circuit<W: Sink>(out: &mut W, parts: &Parts) -> Result<(), Failed>
    requires { W.failed out.old < 2 ^ 64 - 1 }
    ensures puts { Puts result (W.contents out.old) (W.contents out.new) (circuit_text parts.now) }
    ensures counts { CountsFailure (W.failed out.old) (W.failed out.new) result }
{
    put_header(out, b"aig ", parts)?;
    put_each::<LatchLine, W>(out, parts.latches.as_slice())?;
    put_uses(out, parts)?;
    put_blocks::<GateDeltas, W>(out, parts.gates.as_slice())
}

/// The header, the lines and the gates of a circuit.
struct Circuit;

impl Piece for Circuit {
    type Item = Parts;

    ghost text = { circuit_text };

    fn put<W: Sink>(out: &mut W, item: &Parts) -> Result<(), Failed> {
        put_circuit(out, item)
    }
}

/// Writes the shortest text that spells a file (AIGER 1.9, the binary layout): no count behind the
/// last that is needed, no reset that is 0, the symbols in their order, and the comment behind a
/// `c` and a line end. `read` gives the file again where the text has at most 67108864 bytes. A
/// circuit that is not ordered has no such text, and nothing is put of it. After a failure of the
/// sink a beginning of the text was put. It takes no memory, and hands the sink each number and
/// each name by itself, and many gates' differences at once.
pub fn write<W: Sink>(file: &AigerFile, out: &mut W) -> Result<(), AigWriteError>
    requires { W.failed out.old < 2 ^ 64 - 1 }
    ensures written { OnOk result (Appends (W.contents out.old) (W.contents out.new) (written_text file.now)) }
    // What is written spells the file.
    ensures spelled { IsOrdered file.now.model → length (written_text file.now) ≤ 67108864 → SpellsBinary (written_text file.now) file.now }
    ensures unordered { (result ≡ Err Unordered) ↔ (IsOrdered file.now.model → ⊥) }
    ensures untouched { result ≡ Err Unordered → out.new ≡ out.old }
    ensures beginning { OnErr result (PutsBeginning (W.contents out.old) (W.contents out.new) (written_text file.now)) }
    ensures counts { result ≢ Err Unordered → CountsFailure (W.failed out.old) (W.failed out.new) result }
{
    if !file.model().is_ordered() {
        return Err(AigWriteError::Unordered);
    }
    put_file::<Circuit, W>(out, file.model().parts(), file.symbols(), file.comment())?;
    Ok(())
}
