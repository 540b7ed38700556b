//! The names of what the witness circuit shares with the model.

ghost use Rattle.std.specs.Prelude.{◌≡◌, ◌+◌, ◌≤◌, ◌++◌, ◌∷◌, [], length, map, IfErr, IfOk, OnOk};
ghost use Rattle.graph.specs.declared.symbol.SymbolKind.TheVariants.{Input as AnInput, Latch as ALatch};
ghost use Rattle.witness_circuits.specs.Causes.{IsUnmade};
ghost use Rattle.witness_circuits.specs.Names.{shared_from, shared_name, shared_names as shared_names_of};

use crate::error::MakeError;
use base::{Seq, push};
use graph::{Latch, Lit, Model, Symbol, SymbolKind};
use std::alloc::Global;

/// The name of what is the model's literal.
fn name_of(alloc: Global, lit: Lit) -> Result<Seq<u8>, MakeError>
    ensures names { IfOk result (λ name. name ≡ shared_name lit) }
    ensures refused { IfErr result IsUnmade }
{
    let number = lit.0;
    let Ok(name) = format!(in alloc; "= {number}") else {
        return Err(MakeError::Name);
    };
    let name = Seq::from_slice(alloc, name.as_bytes())?;
    Ok(name)
}

/// Adds the name of what is the model's literal, at a position among its kind.
fn add(
    alloc: Global,
    symbols: &mut Vec<Symbol>,
    kind: SymbolKind,
    position: u32,
    lit: Lit,
) -> Result<(), MakeError>
    ensures names { OnOk result (symbols.new.items ≡ symbols.old.items ++ record { kind = kind; position = position; name = shared_name lit } ∷ []) }
    ensures refused { IfErr result IsUnmade }
{
    let name = name_of(alloc, lit)?;
    let symbol = Symbol {
        kind,
        position,
        name,
    };
    push(symbols, symbol)?;
    Ok(())
}

/// Adds the names of the inputs.
fn add_inputs(alloc: Global, symbols: &mut Vec<Symbol>, inputs: &[Lit]) -> Result<(), MakeError>
    requires { length inputs.now ≤ 4194303 }
    ensures names { OnOk result (symbols.new.items ≡ symbols.old.items ++ shared_from AnInput inputs.now 0) }
    ensures refused { IfErr result IsUnmade }
{
    for i in 0..inputs.len() {
        add(alloc, symbols, SymbolKind::Input, i as u32, inputs[i])?;
    }
    Ok(())
}

/// Adds the names of the latches.
fn add_latches(alloc: Global, symbols: &mut Vec<Symbol>, latches: &[Latch]) -> Result<(), MakeError>
    requires { length latches.now ≤ 4194303 }
    ensures names { OnOk result (symbols.new.items ≡ symbols.old.items ++ shared_from ALatch (map (λ l. l.lit) latches.now) 0) }
    ensures refused { IfErr result IsUnmade }
{
    for i in 0..latches.len() {
        add(alloc, symbols, SymbolKind::Latch, i as u32, latches[i].lit)?;
    }
    Ok(())
}

/// The names of the model's inputs and latches.
pub fn shared_names(alloc: Global, circuit: &Model) -> Result<Vec<Symbol>, MakeError>
    ensures names { IfOk result (λ symbols. symbols.items ≡ shared_names_of circuit.now) }
    ensures refused { IfErr result IsUnmade }
{
    circuit.well_formed();
    let mut symbols = Vec::new(alloc);
    add_inputs(alloc, &mut symbols, circuit.inputs())?;
    add_latches(alloc, &mut symbols, circuit.latches())?;
    Ok(symbols)
}
