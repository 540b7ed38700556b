//! The bits of a file: its literals, each with its name.

ghost use Rattle.std.specs.Prelude.{◌≡◌, ◌<◌, ◌++◌, [], ℕ, All, IfOk, OnOk, length, map, slice_index_or};
ghost use Rattle.wave_signals.specs.Bits.{AreAllBits, AreBits, AreShown, IsNameOf, is_hidden_name, shown_of};

use crate::names::split_name;
use base::{Refused, filled_like, push};
use graph::{AigerFile, Latch, Lit, Symbol, SymbolKind};
use std::alloc::Global;
use std::cmp::Ordering;

/// The name of what has no symbol.
const NO_NAME: &[u8] = &[];

/// A literal, with its name.
#[derive(Clone, Copy)]
pub struct Bit<'a> {
    pub kind: SymbolKind,
    /// Its position among its kind.
    pub position: usize,
    pub lit: Lit,
    /// Its symbol's name, empty where it has none.
    pub name: &'a [u8],
    /// The name without its index.
    pub base: &'a [u8],
    /// The index in brackets at the name's end.
    pub index: Option<u32>,
}

/// The symbol's name of each literal of a kind, empty where no symbol names it.
fn names_of<'a>(
    alloc: Global,
    kind: SymbolKind,
    lits: &[Lit],
    symbols: &'a [Symbol],
) -> Result<Vec<&'a [u8]>, Refused>
    requires inside { All (λ s. s.kind ≡ kind → s.position < length lits.now) symbols.now }
    requires named { All (λ s. 0 < length s.name) symbols.now }
    ensures long { IfOk result (λ v. length v.items ≡ length lits.now) }
    ensures names { IfOk result (λ v. (k : ℕ) → k < length lits.now → (d : _) → IsNameOf symbols.now kind k (slice_index_or v.items k d).now) }
{
    let mut names: Vec<&'a [u8]> = filled_like(alloc, NO_NAME, lits)?;
    for symbol in symbols {
        if symbol.kind == kind {
            names[symbol.position as usize] = symbol.name.as_slice();
        }
    }
    Ok(names)
}

/// Adds a bit for each literal of a kind.
fn push_bits<'a>(
    alloc: Global,
    bits: &mut Vec<Bit<'a>>,
    kind: SymbolKind,
    lits: &[Lit],
    symbols: &'a [Symbol],
) -> Result<(), Refused>
    requires inside { All (λ s. s.kind ≡ kind → s.position < length lits.now) symbols.now }
    requires named { All (λ s. 0 < length s.name) symbols.now }
    ensures { OnOk result ((row : _) × (bits.new.items ≡ bits.old.items ++ row) × AreBits symbols.now kind lits.now row) }
{
    let names = names_of(alloc, kind, lits, symbols)?;
    for (k, lit) in lits.iter().enumerate() {
        let name = names[k];
        let (base, index) = split_name(name);
        push(
            bits,
            Bit {
                kind,
                position: k,
                lit: *lit,
                name,
                base,
                index,
            },
        )?;
    }
    Ok(())
}

/// The literals of the latches.
pub fn latch_literals(alloc: Global, latches: &[Latch]) -> Result<Vec<Lit>, Refused>
    ensures { IfOk result (λ v. v.items ≡ map (λ l. l.lit) latches.now) }
{
    let mut lits = Vec::new(alloc);
    for latch in latches {
        push(&mut lits, latch.lit)?;
    }
    Ok(lits)
}

/// Adds the bits of a file to a list that is empty, in the order of its kinds.
fn push_all<'a>(
    alloc: Global,
    bits: &mut Vec<Bit<'a>>,
    file: &'a AigerFile,
    latches: &[Lit],
) -> Result<(), Refused>
    requires empty { bits.old.items ≡ [] }
    requires latches { latches.now ≡ map (λ l. l.lit) file.now.model.latches }
    ensures { OnOk result (AreAllBits file.now bits.new.items) }
{
    let model = file.model();
    let symbols = file.symbols();
    push_bits(alloc, bits, SymbolKind::Input, model.inputs(), symbols)?;
    push_bits(alloc, bits, SymbolKind::Latch, latches, symbols)?;
    push_bits(alloc, bits, SymbolKind::Output, model.outputs(), symbols)?;
    push_bits(alloc, bits, SymbolKind::Bad, model.bad(), symbols)?;
    push_bits(
        alloc,
        bits,
        SymbolKind::Constraint,
        model.constraints(),
        symbols,
    )?;
    push_bits(alloc, bits, SymbolKind::Fairness, model.fairness(), symbols)
}

/// The bits of a file, in the order of its kinds.
fn all_bits(alloc: Global, file: &AigerFile) -> Result<Vec<Bit<'_>>, Refused>
    ensures { IfOk result (λ v. AreAllBits file.now v.items) }
{
    let latches = latch_literals(alloc, file.model().latches())?;
    let mut bits = Vec::new(alloc);
    push_all(alloc, &mut bits, file, &latches)?;
    Ok(bits)
}

/// Whether the name begins with a dollar sign.
fn is_hidden(name: &[u8]) -> bool
    ensures { result ≡ is_hidden_name name.now }
{
    match name {
        [] => false,
        [byte, ..] => *byte == b'$',
    }
}

/// The bits that are shown.
fn shown<'a>(alloc: Global, bits: &[Bit<'a>], all: bool) -> Result<Vec<Bit<'a>>, Refused>
    ensures { IfOk result (λ v. v.items ≡ shown_of all bits.now) }
{
    let mut shown = Vec::new(alloc);
    for bit in bits {
        if all || !is_hidden(bit.name) {
            push(&mut shown, *bit)?;
        }
    }
    Ok(shown)
}

/// The place of a kind in the order in which signals are put.
fn rank(kind: SymbolKind) -> u8 {
    match kind {
        SymbolKind::Input => 0,
        SymbolKind::Latch => 1,
        SymbolKind::Output => 2,
        SymbolKind::Bad => 3,
        SymbolKind::Constraint => 4,
        SymbolKind::Justice => 5,
        SymbolKind::Fairness => 6,
    }
}

/// Orders bits by their kind, their name without its index, the index and the position.
fn by_name(one: &Bit<'_>, other: &Bit<'_>) -> Ordering {
    rank(one.kind)
        .cmp(&rank(other.kind))
        .then(one.base.cmp(other.base))
        .then(one.index.cmp(&other.index))
        .then(one.position.cmp(&other.position))
}

/// The bits of a file that are shown, by their names.
pub fn sorted_bits(alloc: Global, file: &AigerFile, all: bool) -> Result<Vec<Bit<'_>>, Refused>
    ensures { IfOk result (λ v. AreShown file.now all v.items) }
{
    let bits = all_bits(alloc, file)?;
    let mut shown = shown(alloc, &bits, all)?;
    shown.sort_unstable_by(by_name);
    Ok(shown)
}
