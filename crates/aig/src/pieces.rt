//! What is written item by item.

ghost use Rattle.std.specs.Prelude.{◌≡◌, ◌+◌, ◌<◌, ◌≤◌, ◌++◌, ◌∷◌, drop, length};
ghost use Rattle.aig.specs.Delta.{delta_text};
ghost use Rattle.aig.specs.Writing.{gate_text, latch_line};

use crate::lines::{GateDeltas, LatchLine};
use aag::{Piece, ShortPiece, put_number};
use base::{Failed, Sink, put_all};
use graph::{Gate, Latch};

/// Writes a byte before `end`, and answers where that is.
#[inline(always)]
fn write_byte(block: &mut [u8], end: usize, byte: u8) -> usize
    requires room { 0 < end }
    requires inside { end ≤ length block.old }
    ensures start { result + 1 ≡ end }
    ensures written { drop result block.new ≡ byte ∷ drop end block.old }
{
    block[end - 1] = byte;
    end - 1
}

/// Writes a number in groups of seven bits, the lowest first, so that they end at `end`, and answers
/// where they begin.
fn write_delta(block: &mut [u8], end: usize, number: u32) -> usize
    requires room { 5 ≤ end }
    requires inside { end ≤ length block.old }
    ensures ends { result ≤ end }
    ensures short { end ≤ result + 5 }
    ensures written { drop result block.new ≡ delta_text number ++ drop end block.old }
{
    if number < 128 {
        return write_byte(block, end, number as u8);
    }
    let first = 128 + (number % 128) as u8;
    let rest = number / 128;
    if rest < 128 {
        let start = write_byte(block, end, rest as u8);
        return write_byte(block, start, first);
    }
    let second = 128 + (rest % 128) as u8;
    let rest = rest / 128;
    if rest < 128 {
        let start = write_byte(block, end, rest as u8);
        let start = write_byte(block, start, second);
        return write_byte(block, start, first);
    }
    let third = 128 + (rest % 128) as u8;
    let rest = rest / 128;
    if rest < 128 {
        let start = write_byte(block, end, rest as u8);
        let start = write_byte(block, start, third);
        let start = write_byte(block, start, second);
        return write_byte(block, start, first);
    }
    let fourth = 128 + (rest % 128) as u8;
    let start = write_byte(block, end, (rest / 128) as u8);
    let start = write_byte(block, start, fourth);
    let start = write_byte(block, start, third);
    let start = write_byte(block, start, second);
    write_byte(block, start, first)
}

impl Piece for LatchLine {
    type Item = Latch;

    ghost text = { latch_line };

    fn put<W: Sink>(out: &mut W, item: &Latch) -> Result<(), Failed> {
        if item.reset.0 == 0 {
            return put_number(out, item.next.0, b"\n");
        }
        put_number(out, item.next.0, b" ")?;
        put_number(out, item.reset.0, b"\n")
    }
}

impl ShortPiece for GateDeltas {
    type Item = Gate;

    ghost text = { gate_text };

    fn write(block: &mut [u8], end: usize, item: &Gate) -> usize {
        let start = write_delta(block, end, item.rhs0.0.saturating_sub(item.rhs1.0));
        write_delta(block, start, item.lhs.0.saturating_sub(item.rhs0.0))
    }
}
