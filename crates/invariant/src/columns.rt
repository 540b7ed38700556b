//! The columns of a PLA.

ghost use Rattle.std.specs.Prelude.{◌≡◌, ◌<◌, ℕ, None, Some, codes, get_or, length, option_map, IfOk, ◌==◌, if◌then◌else◌};
ghost use Rattle.scan.specs.Bytes.{tag_at};
ghost use Rattle.scan.specs.Reading.{Gives};
ghost use Rattle.graph.specs.Symbols.{index_of};
ghost use Rattle.invariant.specs.Plas.{columns_at, named_from, symbol_name};
ghost use Rattle.invariant.specs.PlaReading.{is_symbol_of, name_by};

use crate::invariant_fault::{IN_LINE, InvariantFault};
use crate::names::{behind, behind_latch, own_name};
use base::{Refused, copied, filled_like, push};
use graph::{AigerFile, Latch, Symbol, SymbolKind};
use scan::{Fault, tag};
use std::alloc::Global;

/// Whether a symbol of this kind names a latch.
fn names_latch(kind: SymbolKind) -> bool
    ensures { result ≡ (index_of kind == 1) }
{
    matches!(kind, SymbolKind::Latch)
}

/// Takes the symbol at position `i` for what it names, where that is a latch.
fn give(places: &mut [Option<usize>], kind: SymbolKind, position: u32, i: usize)
    ensures length { length places.new ≡ length places.old }
    ensures place { (k : ℕ) → k < length places.old → get_or places.new k None ≡ (if is_symbol_of kind position k then Some i else get_or places.old k None) }
{
    let place = position as usize;
    if names_latch(kind) && place < places.len() {
        places[place] = Some(i);
    }
}

/// For each latch, where the symbol stands that names it.
fn places(
    alloc: Global,
    latches: &[Latch],
    symbols: &[Symbol],
) -> Result<Vec<Option<usize>>, Refused>
    ensures length { IfOk result (λ places. length places.items ≡ length latches.now) }
    ensures named { IfOk result (λ places. (k : ℕ) → k < length latches.now → name_by symbols.now (get_or places.items k None) ≡ symbol_name None symbols.now k) }
{
    let mut places = filled_like(alloc, None, latches)?;
    for (i, symbol) in symbols.iter().enumerate() {
        give(&mut places, symbol.kind, symbol.position, i);
    }
    Ok(places)
}

/// The name of the symbol at this place.
fn name(symbols: &[Symbol], place: Option<usize>) -> Option<&[u8]>
    ensures { option_map (λ name. name.now) result ≡ name_by symbols.now place }
{
    match place {
        None => None,
        Some(i) => match symbols.get(i) {
            None => None,
            Some(symbol) => Some(symbol.name.as_slice()),
        },
    }
}

/// The latches whose names come next, in their order, and what follows those.
fn named<'a>(
    alloc: Global,
    latches: &[Latch],
    symbols: &[Symbol],
    text: &'a [u8],
) -> Result<(Vec<Latch>, &'a [u8]), Refused>
    ensures { IfOk result (λ x. (x.0.items, x.1.now) ≡ named_from (symbol_name None symbols.now) 0 latches.now text.now) }
{
    let places = places(alloc, latches, symbols)?;
    let mut columns = Vec::new(alloc);
    let mut rest = text;
    let mut own = own_name(text);
    for (k, latch) in latches.iter().enumerate() {
        let name = name(symbols, places[k]);
        if let Some(after) = behind_latch(rest, name, k, own) {
            push(&mut columns, *latch)?;
            rest = after;
            own = own_name(rest);
        }
    }
    Ok((columns, rest))
}

/// What follows the end of the names. Another name there is that of no latch, or of one that came before.
#[tactic(auto, unfolding(scan::specs::Bytes::tag_at))]
fn names_end(text: &[u8]) -> Result<&[u8], Fault<InvariantFault>>
    ensures { Gives (λ rest. rest.now) result (tag_at (codes "\n.ob inv\n") text.now) }
{
    match text {
        [b' ', name @ ..] => Err(Fault::Text {
            kind: InvariantFault::Latch,
            left: name.len(),
        }),
        _ => tag(text, b"\n.ob inv\n", IN_LINE),
    }
}

/// The latches of the columns, and what follows their names.
pub fn columns<'a>(
    alloc: Global,
    file: &AigerFile,
    text: &'a [u8],
) -> Result<(Vec<Latch>, &'a [u8]), Fault<InvariantFault>>
    ensures { Gives (λ x. (x.0.items, x.1.now)) result (columns_at file.now text.now) }
{
    let latches = file.model().latches();
    let Some(names) = behind(text, b".ilb") else {
        let columns = copied(alloc, latches)?;
        return Ok((columns, text));
    };
    let (columns, rest) = named(alloc, latches, file.symbols(), names)?;
    let rest = names_end(rest)?;
    Ok((columns, rest))
}
