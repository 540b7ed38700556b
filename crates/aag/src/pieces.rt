//! What is written item by item.

ghost use Rattle.std.specs.Prelude.{◌≡◌, ◌^◌, ◌+◌, ◌*◌, ◌<◌, ◌≤◌, ◌-◌, ◌++◌, ◌∷◌, decimal, drop, flat_map, length};
ghost use Rattle.base.specs.Devices.{CountsFailure, Puts};
ghost use Rattle.scan.specs.Lists.{spaced};
ghost use Rattle.aag.specs.Tail.{letter_of, symbol_line};
ghost use Rattle.aag.specs.Writing.{gate_line, latch_line, literal_line, size_line};

use crate::lines::{GateLine, LatchLine, LiteralLine};
use base::{Failed, Seq, Sink, put_all};
use graph::{Gate, Latch, Lit, Symbol, SymbolKind};
use itoa::{Buffer, Integer, write_digits};

/// Puts a number and the bytes behind it.
pub fn put_number<I: Integer, W: Sink>(out: &mut W, number: I, behind: &[u8]) -> Result<(), Failed>
    requires { W.failed out.old < 2 ^ 64 - 1 }
    ensures puts { Puts result (W.contents out.old) (W.contents out.new) (I.text number ++ behind.now) }
    ensures counts { CountsFailure (W.failed out.old) (W.failed out.new) result }
{
    let mut buffer = Buffer::new();
    put_all(out, buffer.format(number).as_bytes())?;
    put_all(out, behind)
}

/// One kind of what is written: what it holds, and its text.
pub trait Piece {
    ghost use Rattle.std.specs.Prelude.{ℕ, List};

    /// What a piece holds.
    type Item;

    /// The text of a piece.
    ghost text: { Self.Item → List ℕ };

    /// Puts the text of a piece.
    fn put<W: Sink>(out: &mut W, item: &Self::Item) -> Result<(), Failed>
        requires { W.failed out.old < 2 ^ 64 - 1 }
        ensures puts { Puts result (W.contents out.old) (W.contents out.new) (text item.now) }
        ensures counts { CountsFailure (W.failed out.old) (W.failed out.new) result };
}

/// Puts pieces of one kind one after another.
pub fn put_each<P: Piece, W: Sink>(out: &mut W, items: &[P::Item]) -> Result<(), Failed>
    requires { W.failed out.old < 2 ^ 64 - 1 }
    ensures puts { Puts result (W.contents out.old) (W.contents out.new) (flat_map P.text items.now) }
    ensures counts { CountsFailure (W.failed out.old) (W.failed out.new) result }
{
    for item in items {
        P::put(out, item)?;
    }
    Ok(())
}

/// A count of a header, behind a space.
pub struct Count;

impl Piece for Count {
    type Item = usize;

    ghost text = { spaced };

    fn put<W: Sink>(out: &mut W, item: &usize) -> Result<(), Failed> {
        put_all(out, b" ")?;
        put_number(out, *item, b"")
    }
}

impl Piece for LiteralLine {
    type Item = Lit;

    ghost text = { literal_line };

    fn put<W: Sink>(out: &mut W, item: &Lit) -> Result<(), Failed> {
        put_number(out, item.0, b"\n")
    }
}

impl Piece for LatchLine {
    type Item = Latch;

    ghost text = { latch_line };

    fn put<W: Sink>(out: &mut W, item: &Latch) -> Result<(), Failed> {
        put_number(out, item.lit.0, b" ")?;
        if item.reset.0 == 0 {
            return put_number(out, item.next.0, b"\n");
        }
        put_number(out, item.next.0, b" ")?;
        put_number(out, item.reset.0, b"\n")
    }
}

/// One kind of what is written in blocks: what it holds, and its text, of at most 33 bytes.
pub trait ShortPiece {
    ghost use Rattle.std.specs.Prelude.{ℕ, List, ◌++◌, drop};

    /// What a piece holds.
    type Item;

    /// The text of a piece.
    ghost text: { Self.Item → List ℕ };

    /// Writes the text of a piece into a block, so that it ends at `end`, and answers where it
    /// begins.
    fn write(block: &mut [u8], end: usize, item: &Self::Item) -> usize
        requires room { 33 ≤ end }
        requires inside { end ≤ length block.old }
        ensures ends { result ≤ end }
        ensures short { end ≤ result + 33 }
        ensures written { drop result block.new ≡ text item.now ++ drop end block.old };
}

/// How many bytes a block has, and how many pieces go into one.
const BLOCK: usize = 3_960;

const PIECES: usize = 120;

/// Writes pieces one after another, so that they end where the block ends, and answers where they
/// begin. It begins with the last, so that no byte is moved.
fn write_block<P: ShortPiece>(block: &mut [u8], items: &[P::Item]) -> usize
    requires room { 33 * length items.now ≤ length block.old }
    ensures inside { result ≤ length block.old }
    ensures written { drop result block.new ≡ flat_map P.text items.now }
{
    let mut start = block.len();
    let mut left = items.len();
    'writing: while left > 0 {
        left -= 1;
        start = P::write(block, start, &items[left]);
    }
    start
}

/// Puts short pieces of one kind one after another, many at once.
pub fn put_blocks<P: ShortPiece, W: Sink>(out: &mut W, items: &[P::Item]) -> Result<(), Failed>
    requires { W.failed out.old < 2 ^ 64 - 1 }
    ensures puts { Puts result (W.contents out.old) (W.contents out.new) (flat_map P.text items.now) }
    ensures counts { CountsFailure (W.failed out.old) (W.failed out.new) result }
{
    let mut block = [0u8; BLOCK];
    let mut rest = items;
    'putting: while !rest.is_empty() {
        let (some, later) = rest.split_at(rest.len().min(PIECES));
        let start = write_block::<P>(&mut block, some);
        put_all(out, &block[start..])?;
        rest = later;
    }
    Ok(())
}

/// Writes a number and the byte behind it, so that they end at `end`, and answers where they begin.
fn write_number(block: &mut [u8], end: usize, number: u32, behind: u8) -> usize
    requires room { 11 ≤ end }
    requires inside { end ≤ length block.old }
    ensures ends { result ≤ end }
    ensures short { end ≤ result + 11 }
    ensures written { drop result block.new ≡ decimal number ++ behind ∷ drop end block.old }
{
    block[end - 1] = behind;
    write_digits(u64::from(number), block, end - 1)
}

impl ShortPiece for GateLine {
    type Item = Gate;

    ghost text = { gate_line };

    fn write(block: &mut [u8], end: usize, item: &Gate) -> usize {
        let start = write_number(block, end, item.rhs1.0, b'\n');
        let start = write_number(block, start, item.rhs0.0, b' ');
        write_number(block, start, item.lhs.0, b' ')
    }
}

/// The line of a justice property's size.
pub struct SizeLine;

impl Piece for SizeLine {
    type Item = Seq<Lit>;

    ghost text = { size_line };

    fn put<W: Sink>(out: &mut W, item: &Seq<Lit>) -> Result<(), Failed> {
        put_number(out, item.len(), b"\n")
    }
}

/// The lines of a justice property's literals.
pub struct JusticeLines;

impl Piece for JusticeLines {
    type Item = Seq<Lit>;

    ghost text = { λ lits. flat_map literal_line lits };

    fn put<W: Sink>(out: &mut W, item: &Seq<Lit>) -> Result<(), Failed> {
        put_each::<LiteralLine, W>(out, item.as_slice())
    }
}

/// The letter of a kind.
fn letter_of(kind: SymbolKind) -> u8
    ensures { result ≡ letter_of kind }
{
    match kind {
        SymbolKind::Input => b'i',
        SymbolKind::Latch => b'l',
        SymbolKind::Output => b'o',
        SymbolKind::Bad => b'b',
        SymbolKind::Constraint => b'c',
        SymbolKind::Justice => b'j',
        SymbolKind::Fairness => b'f',
    }
}

/// The line of a symbol.
pub struct SymbolLine;

impl Piece for SymbolLine {
    type Item = Symbol;

    ghost text = { symbol_line };

    fn put<W: Sink>(out: &mut W, item: &Symbol) -> Result<(), Failed> {
        put_all(out, &[letter_of(item.kind)])?;
        put_number(out, item.position, b" ")?;
        put_all(out, item.name.as_slice())?;
        put_all(out, b"\n")
    }
}
