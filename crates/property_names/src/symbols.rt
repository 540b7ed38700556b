//! Properties by their names in a circuit's symbol table.

ghost use Rattle.std.specs.Prelude.{◌≡◌, ◌<◌, ◌^◌, Some, IfOk, IfSome};
ghost use Rattle.graph.specs.Circuits.{position_of, property_text};
ghost use Rattle.graph.specs.declared.circuit.Property.{Property as AProperty};
ghost use Rattle.property_names.specs.Symbols.{IsAskedBy, IsCalled, IsOf};
ghost use Rattle.property_names.specs.declared.symbols.Asked.TheVariants.{Property as AsksProperty};

use crate::property_name::property_named;
use graph::{AigerFile, Property, Symbol, SymbolKind};

/// What a word asks for.
#[derive(Clone, Copy)]
pub enum Asked<'a> {
    /// The property of this kind and position.
    Property(Property),
    /// The property that has this name in the circuit's symbol table.
    Symbol(&'a str),
}

/// Why a name is of no property.
#[derive(Clone, Copy)]
pub enum NameError {
    /// No property has it.
    Unknown,
    /// Several properties have it.
    Several,
}

/// Whether the word is digits, behind `b`, `j` or `o` or alone.
fn is_numbered(word: &[u8]) -> bool {
    let digits = match word {
        [b'b' | b'j' | b'o', digits @ ..] => digits,
        _ => word,
    };
    digits.iter().all(|byte| byte.is_ascii_digit())
}

/// What the word asks for. A word of digits, behind `b`, `j` or `o` or alone, is no symbol's name, and it asks for
/// nothing where it names no property.
pub fn asked_by(word: &str) -> Option<Asked<'_>>
    ensures asks { IfSome result (IsAskedBy word.now) }
    ensures named { (p : AProperty) → word.now ≡ property_text p → position_of p < 2 ^ 32 → result ≡ Some (AsksProperty p) }
{
    match property_named(word) {
        Some(property) => Some(Asked::Property(property)),
        None if is_numbered(word.as_bytes()) => None,
        None => Some(Asked::Symbol(word)),
    }
}

/// The property that the symbol names, where it may be one.
pub fn property_of(symbol: &Symbol, are_outputs_bad: bool) -> Option<Property>
    ensures { IfSome result (IsOf symbol.now) }
{
    match symbol.kind {
        SymbolKind::Bad => Some(Property::Bad(symbol.position)),
        SymbolKind::Justice => Some(Property::Justice(symbol.position)),
        SymbolKind::Output if are_outputs_bad => Some(Property::Output(symbol.position)),
        _ => None,
    }
}

/// The property that the symbol gives this name.
fn called_by(symbol: &Symbol, name: &[u8], are_outputs_bad: bool) -> Option<Property>
    ensures of { IfSome result (IsOf symbol.now) }
    ensures named { IfSome result (λ _. symbol.now.name ≡ name.now) }
{
    if symbol.name.as_slice() == name {
        property_of(symbol, are_outputs_bad)
    } else {
        None
    }
}

/// The one property of the circuit that has this name in the symbol table.
pub fn property_called(file: &AigerFile, name: &str) -> Result<Property, NameError>
    ensures { IfOk result (IsCalled file.now.symbols name.now) }
{
    let are_outputs_bad = file.model().parts().are_outputs_bad();
    let symbols = file.symbols();
    let mut found = None;
    for symbol in symbols {
        if let Some(property) = called_by(symbol, name.as_bytes(), are_outputs_bad) {
            if found.is_some() {
                return Err(NameError::Several);
            }
            found = Some(property);
        }
    }
    found.ok_or(NameError::Unknown)
}

/// The name of the property in the circuit's symbol table, where it has one.
pub fn symbol_of(file: &AigerFile, property: Property) -> Option<&[u8]>
    ensures { IfSome result (λ name. IsCalled file.now.symbols name.now property) }
{
    let are_outputs_bad = file.model().parts().are_outputs_bad();
    for symbol in file.symbols() {
        if property_of(symbol, are_outputs_bad) == Some(property) {
            return Some(symbol.name.as_slice());
        }
    }
    None
}
