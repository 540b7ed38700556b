//! Symbols.

ghost use Rattle.std.specs.Prelude.{◌≡◌, IfOk, IfErr};
ghost use Rattle.scan.specs.Reading.{Gives};
ghost use Rattle.graph.specs.Symbols.{symbol_counts, AreSymbols, IsName, IsFree};
ghost use Rattle.aag.specs.Symbols.{kind_of, kind_at, label_at, symbol_at, symbols_at};
ghost use Rattle.aag.specs.Whole.{Refuses, GivesOnly, Adds};

use crate::comments::ends_symbols;
use crate::name::name;
use crate::read_fault::ReadFault;
use base::Seq;
use graph::{Parts, Symbol, SymbolKind, Symbols};
use scan::{Fault, byte, number};
use std::alloc::Global;

/// The kind that this letter stands for.
fn kind_of(letter: u8) -> Option<SymbolKind>
    ensures { result ≡ kind_of letter }
{
    match letter {
        b'i' => Some(SymbolKind::Input),
        b'l' => Some(SymbolKind::Latch),
        b'o' => Some(SymbolKind::Output),
        b'b' => Some(SymbolKind::Bad),
        b'c' => Some(SymbolKind::Constraint),
        b'j' => Some(SymbolKind::Justice),
        b'f' => Some(SymbolKind::Fairness),
        _ => None,
    }
}

/// The kind that the next letter stands for, and what follows the letter.
#[tactic(auto, unfolding(crate::specs::Symbols::kind_at))]
fn kind<L>(text: &[u8]) -> Result<(SymbolKind, &[u8]), Fault<ReadFault<L>>>
    ensures { Gives (λ x. (x.0, x.1.now)) result (kind_at text.now) }
{
    let [letter, rest @ ..] = text else {
        return Err(Fault::Text {
            kind: ReadFault::Truncated,
            left: 0,
        });
    };
    match kind_of(*letter) {
        Some(kind) => Ok((kind, rest)),
        None => Err(Fault::Text {
            kind: ReadFault::Symbol,
            left: text.len(),
        }),
    }
}

/// The name behind a symbol's position, and what follows its line.
fn label<L: Copy>(alloc: Global, text: &[u8]) -> Result<(Seq<u8>, &[u8]), Fault<ReadFault<L>>>
    ensures value { Gives (λ x. (x.0, x.1.now)) result (label_at text.now) }
    ensures named { IfOk result (λ x. IsName x.0) }
{
    let rest = byte(text, b' ', ReadFault::<L>::IN_SYMBOL)?;
    name(alloc, rest)
}

/// Adds the next symbol, and answers what follows its line. What is wrong with its position goes
/// before what is wrong behind it. After a refusal the symbols are of no use.
fn add_symbol<'a, L: Copy>(
    alloc: Global,
    symbols: &mut Symbols,
    text: &'a [u8],
) -> Result<&'a [u8], Fault<ReadFault<L>>>
    ensures added { IfOk result (λ rest. Adds symbols.old symbols.new (symbol_at text.now) rest.now) }
    ensures refused { IfErr result (λ e. Refuses (λ s. IsFree symbols.old.counts symbols.old.symbols s.0) e (symbol_at text.now)) }
{
    let (kind, digits) = kind::<L>(text)?;
    let (position, behind) = number(digits, u32::MAX, ReadFault::<L>::IN_SYMBOL)?;
    if !symbols.is_free(kind, position) {
        return Err(Fault::Text {
            kind: ReadFault::Symbol,
            left: digits.len(),
        });
    }
    let (name, rest) = label::<L>(alloc, behind)?;
    let symbol = Symbol {
        kind,
        position,
        name,
    };
    if !symbols.add(symbol)? {
        // it is free
        unreachable!()
    }
    Ok(rest)
}

/// The symbols of these parts that the text begins with, and what follows the last one's line. A
/// symbol that names nothing, or a second of the same, is refused.
pub fn symbols<'a, L: Copy>(
    alloc: Global,
    parts: &Parts,
    text: &'a [u8],
) -> Result<(Symbols, &'a [u8]), Fault<ReadFault<L>>>
    ensures value { GivesOnly (λ x. AreSymbols (symbol_counts parts.now) x.0) (λ x. (x.0.symbols, x.1.now)) result (symbols_at text.now) }
    ensures counts { IfOk result (λ x. x.0.counts ≡ symbol_counts parts.now) }
{
    let mut symbols = Symbols::new(alloc, parts)?;
    let mut rest = text;
    for _ in 0..text.len() + 1 {
        if ends_symbols(rest) {
            return Ok((symbols, rest));
        }
        rest = add_symbol::<L>(alloc, &mut symbols, rest)?;
    }
    Err(Fault::Text {
        kind: ReadFault::Truncated,
        left: 0,
    })
}
