//! The shadow circuit of a justice property as a file, with names.

ghost use Rattle.std.specs.Prelude.{◌≡◌, ◌<◌, ◌≤◌, length, IfOk, IfErr};
ghost use Rattle.live_safe.specs.Shadow.{shadow_of};
ghost use Rattle.transforms.specs.Extracted.{IsUnmade};
ghost use Rattle.transforms.specs.Shadowed.{IsRefused};

use crate::error::TransformError;
use crate::symbols::{SEEN, add_name, add_numbered, count, old_names};
use base::{Refused, Seq, extend, push};
use graph::{AigerFile, Model, Symbol, SymbolKind};
use live_safe::to_safety;
use std::alloc::Global;

/// The name of the input that asks for the copy of the latches.
const SAVE: &[u8] = b"save";
/// The name of the latch that says whether there is one.
const SAVED: &[u8] = b"saved";
/// What stands before a latch's name in that of its copy.
const COPY: &[u8] = b"copy.";

/// Adds the name of a latch's copy.
fn add_copy(
    alloc: Global,
    symbols: &mut Vec<Symbol>,
    position: u32,
    latch: &[u8],
) -> Result<(), Refused> {
    let mut name = Vec::new(alloc);
    extend(&mut name, COPY)?;
    extend(&mut name, latch)?;
    add_name(alloc, symbols, SymbolKind::Latch, position, name.as_slice())
}

/// Adds the names of the copies of the latches that have these names: the first copy is the latch at the position.
fn add_copies(
    alloc: Global,
    symbols: &mut Vec<Symbol>,
    old: &[Symbol],
    first: u32,
) -> Result<(), Refused> {
    for symbol in old {
        if symbol.kind == SymbolKind::Latch {
            let position = first.saturating_add(symbol.position);
            add_copy(alloc, symbols, position, symbol.name.as_slice())?;
        }
    }
    Ok(())
}

/// Adds the names of what the shadow circuit has and the circuit, whose names are the old ones, has not.
fn add_new(
    alloc: Global,
    new: &mut Vec<Symbol>,
    old: &[Symbol],
    circuit: &Model,
    shadow: &Model,
) -> Result<(), TransformError>
    ensures { IfErr result IsUnmade }
{
    let latches = count(circuit.latches().len());
    add_name(
        alloc,
        new,
        SymbolKind::Input,
        count(circuit.inputs().len()),
        SAVE,
    )?;
    add_name(alloc, new, SymbolKind::Latch, latches, SAVED)?;
    let copies = latches.saturating_add(1);
    add_copies(alloc, new, old, copies)?;
    let seen = copies.saturating_add(latches);
    add_numbered(alloc, new, SEEN, seen, count(shadow.latches().len()))
}

/// Adds names behind others.
fn append(symbols: &mut Vec<Symbol>, more: Vec<Symbol>) -> Result<(), Refused> {
    for symbol in more {
        push(symbols, symbol)?;
    }
    Ok(())
}

/// The names in the shadow circuit: those of the circuit, those of the copies, and those of what is new.
fn names(
    alloc: Global,
    file: &AigerFile,
    shadow: &Model,
    justice: u32,
) -> Result<Vec<Symbol>, TransformError>
    ensures { IfErr result IsUnmade }
{
    let mut symbols = old_names(alloc, file, justice)?;
    let mut new = Vec::new(alloc);
    add_new(alloc, &mut new, symbols.as_slice(), file.model(), shadow)?;
    append(&mut symbols, new)?;
    Ok(symbols)
}

/// The file of the shadow circuit of the justice property at the position. Its inputs, latches and constraints have the
/// names that they have in the circuit's file, and the bad literal that of the justice property; an input or latch without a name is
/// called `i0` or `lo0`, with its position. The copy of a latch is called `copy.` and the latch's name, the new input `save`, the
/// latch that it sets `saved`, and the latches that note the literals `seen.0`, `seen.1` and so on.
pub fn shadow_file(
    alloc: Global,
    file: &AigerFile,
    position: u32,
) -> Result<AigerFile, TransformError>
    ensures shadow { IfOk result (λ f. f.model ≡ shadow_of file.now.model position) }
    ensures exists { IfOk result (λ _. position < length file.now.model.justice) }
    ensures within { IfOk result (λ _. (shadow_of file.now.model position).max_var ≤ 4194303) }
    ensures refused { IfErr result (IsRefused file.now.model position) }
{
    let model = to_safety(alloc, file.model(), position)?;
    let symbols = names(alloc, file, &model, position)?;
    let shadow = AigerFile::new(alloc, model, Seq::from_vec(symbols), None)?;
    Ok(shadow)
}
