//! Names of what a circuit has.

ghost use Rattle.std.specs.Prelude.{◌≡◌, ◌≤◌, IfErr};
ghost use Rattle.transforms.specs.Extracted.{IsUnmade};

use crate::error::TransformError;
use base::{Refused, Seq, filled_like, push};
use graph::{AigerFile, MOST_VARIABLES, Model, Symbol, SymbolKind};
use std::alloc::Global;

/// The greatest count of anything.
const MOST: usize = MOST_VARIABLES as usize;

/// What stands before the number of a literal in the name of the latch that notes it.
pub const SEEN: &str = "seen.";

/// Adds a name.
pub fn add_name(
    alloc: Global,
    symbols: &mut Vec<Symbol>,
    kind: SymbolKind,
    position: u32,
    name: &[u8],
) -> Result<(), Refused> {
    let name = Seq::from_slice(alloc, name)?;
    push(
        symbols,
        Symbol {
            kind,
            position,
            name,
        },
    )
}

/// How many there are, which the limits of a circuit keep at 4,194,303 at most.
pub fn count(length: usize) -> u32
    ensures { length ≤ 4194303 → result ≡ length }
{
    if length < MOST {
        length as u32
    } else {
        MOST_VARIABLES
    }
}

/// Notes that what is at the position has a name.
fn note(named: &mut [bool], position: u32) {
    if let Some(named) = named.get_mut(position as usize) {
        *named = true;
    }
}

/// Adds a name for each that has none: the letters and its position.
fn add_unnamed(
    alloc: Global,
    symbols: &mut Vec<Symbol>,
    kind: SymbolKind,
    letters: &str,
    named: &[bool],
) -> Result<(), TransformError>
    ensures { IfErr result IsUnmade }
{
    let mut position = 0u32;
    for is_named in named {
        if !*is_named {
            let Ok(name) = format!(in alloc; "{letters}{position}") else {
                return Err(TransformError::Name);
            };
            add_name(alloc, symbols, kind, position, name.as_bytes())?;
        }
        position = position.saturating_add(1);
    }
    Ok(())
}

/// Adds a name for each input and latch of the circuit that has none: `i0` or `lo0`, with its position.
pub fn name_others(
    alloc: Global,
    symbols: &mut Vec<Symbol>,
    circuit: &Model,
) -> Result<(), TransformError>
    ensures { IfErr result IsUnmade }
{
    let mut inputs = filled_like(alloc, false, circuit.inputs())?;
    let mut latches = filled_like(alloc, false, circuit.latches())?;
    for symbol in symbols.as_slice() {
        match symbol.kind {
            SymbolKind::Input => note(inputs.as_mut_slice(), symbol.position),
            SymbolKind::Latch => note(latches.as_mut_slice(), symbol.position),
            _ => {}
        }
    }
    add_unnamed(alloc, symbols, SymbolKind::Input, "i", inputs.as_slice())?;
    add_unnamed(alloc, symbols, SymbolKind::Latch, "lo", latches.as_slice())
}

/// Adds what the name of something in the circuit becomes in a circuit with one bad literal for the justice property at the
/// position. An output's name, and that of another property, becomes nothing.
fn add_old(
    alloc: Global,
    symbols: &mut Vec<Symbol>,
    symbol: &Symbol,
    justice: u32,
) -> Result<(), Refused> {
    let name = symbol.name.as_slice();
    match symbol.kind {
        SymbolKind::Input | SymbolKind::Latch | SymbolKind::Constraint => {
            add_name(alloc, symbols, symbol.kind, symbol.position, name)
        }
        SymbolKind::Justice if symbol.position == justice => {
            add_name(alloc, symbols, SymbolKind::Bad, 0, name)
        }
        _ => Ok(()),
    }
}

/// The names of what the circuit has, in a circuit with one bad literal for the justice property at the position: each input
/// and latch has one.
pub fn old_names(
    alloc: Global,
    file: &AigerFile,
    justice: u32,
) -> Result<Vec<Symbol>, TransformError>
    ensures { IfErr result IsUnmade }
{
    let mut symbols = Vec::new(alloc);
    for symbol in file.symbols() {
        add_old(alloc, &mut symbols, symbol, justice)?;
    }
    name_others(alloc, &mut symbols, file.model())?;
    Ok(symbols)
}

/// Adds names for the latches from the position on: the letters, and numbers from 0.
pub fn add_numbered(
    alloc: Global,
    symbols: &mut Vec<Symbol>,
    letters: &str,
    first: u32,
    latches: u32,
) -> Result<(), TransformError>
    ensures { IfErr result IsUnmade }
{
    for position in first..latches {
        let number = position.saturating_sub(first);
        let Ok(name) = format!(in alloc; "{letters}{number}") else {
            return Err(TransformError::Name);
        };
        add_name(alloc, symbols, SymbolKind::Latch, position, name.as_bytes())?;
    }
    Ok(())
}
