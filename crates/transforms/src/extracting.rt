//! The circuit of one property alone.

ghost use Rattle.std.specs.Prelude.{◌≡◌, [], IfOk, IfErr, MatchOption, OnOk, filter, map};
ghost use Rattle.graph.specs.declared.circuit.Lit.{Lit};
ghost use Rattle.graph.specs.Circuits.{IsWatched, position_of, variable, place};
ghost use Rattle.transforms.specs.Extracted.{HasCause, IsPartOf, IsUnmade, StandsFor, bad_of, extract, kept_latch, outputs_of};

use crate::error::TransformError;
use crate::symbols::{add_name, name_others};
use base::{Refused, Seq};
use cones::value_laws;
use graph::{AigerFile, Gate, Latch, Lit, Model, Parts, Property, ReadError, Symbol, SymbolKind};
use property_names::symbol_of;
use sequential_cones::{cone_of, is_marked};
use std::alloc::Global;

/// The literal that a property watches, where the circuit has that bad literal, or that output as one.
fn watched(circuit: &Model, property: Property) -> Option<Lit>
    ensures { MatchOption result ((a : Lit) → IsWatched circuit.now property a → ⊥) (IsWatched circuit.now property) }
{
    match property {
        Property::Bad(n) => circuit.bad().get(n as usize).copied(),
        Property::Output(n) if circuit.parts().are_outputs_bad() => {
            circuit.outputs().get(n as usize).copied()
        }
        _ => None,
    }
}

/// The gates that are marked.
fn gates_in(alloc: Global, marks: &[bool], gates: &[Gate]) -> Result<Seq<Gate>, Refused>
    ensures { IfOk result (λ kept. kept ≡ filter (λ g. place marks.now (variable g.lhs)) gates.now) }
{
    let mut kept = Seq::new(alloc);
    'choosing: for gate in gates {
        if is_marked(marks, gate.lhs.variable()) {
            kept.push(*gate)?;
        }
    }
    Ok(kept)
}

/// The latch where it is marked, and else one that keeps its value.
fn latch_in(marks: &[bool], latch: Latch) -> Latch
    ensures { result ≡ kept_latch marks.now latch }
{
    if is_marked(marks, latch.lit.variable()) {
        latch
    } else {
        Latch {
            next: latch.lit,
            ..latch
        }
    }
}

/// The latches, of which each that is not marked keeps its value.
fn latches_in(alloc: Global, marks: &[bool], latches: &[Latch]) -> Result<Seq<Latch>, Refused>
    ensures { IfOk result (λ kept. kept ≡ map (kept_latch marks.now) latches.now) }
{
    let mut kept = Seq::new(alloc);
    for latch in latches {
        kept.push(latch_in(marks, *latch))?;
    }
    Ok(kept)
}

/// Leaves the gates out that are not marked, and has the latches that are not marked keep their values.
fn narrow(alloc: Global, parts: &mut Parts, marks: &[bool]) -> Result<(), Refused>
    ensures { OnOk result (parts.new ≡ record parts.old { latches = map (kept_latch marks.now) parts.old.latches; gates = filter (λ g. place marks.now (variable g.lhs)) parts.old.gates }) }
{
    parts.gates = gates_in(alloc, marks, parts.gates.as_slice())?;
    parts.latches = latches_in(alloc, marks, parts.latches.as_slice())?;
    Ok(())
}

/// Leaves all properties out but this one, which watches the literal.
fn watch(alloc: Global, parts: &mut Parts, property: Property, watched: Lit) -> Result<(), Refused>
    ensures { OnOk result (parts.new ≡ record parts.old { outputs = outputs_of property watched; bad = bad_of property watched; justice = []; fairness = [] }) }
{
    parts.outputs = Seq::new(alloc);
    parts.bad = Seq::new(alloc);
    parts.justice = Seq::new(alloc);
    parts.fairness = Seq::new(alloc);
    match property {
        Property::Output(_) => parts.outputs.push(watched),
        _ => parts.bad.push(watched),
    }
}

/// The parts of the circuit of the property that watches this literal, with what is marked.
fn parts_of(
    alloc: Global,
    circuit: &Model,
    property: Property,
    watched: Lit,
    marks: &[bool],
) -> Result<Parts, Refused>
    ensures { IfOk result (λ parts. parts ≡ extract circuit.now property watched marks.now) }
{
    let mut parts = circuit.parts().copy(alloc)?;
    narrow(alloc, &mut parts, marks)?;
    watch(alloc, &mut parts, property, watched)?;
    Ok(parts)
}

/// The circuit of the property that watches this literal: all inputs and latches, the constraints, the gates on which
/// they and the property rest, and of the properties this one.
fn part_of(
    alloc: Global,
    circuit: &Model,
    property: Property,
    watched: Lit,
) -> Result<Model, ReadError>
    requires { IsWatched circuit.now property watched }
    ensures part { IfOk result (IsPartOf circuit.now property) }
    ensures stands { IfOk result (StandsFor circuit.now property) }
{
    circuit.well_formed();
    let marks = cone_of(alloc, circuit, watched)?;
    let parts = parts_of(alloc, circuit, property, watched, &marks)?;
    let part = Model::from_parts(alloc, parts)?;
    value_laws(circuit);
    value_laws(&part);
    Ok(part)
}

/// The names in the circuit of the property: each input and latch has one.
fn names(alloc: Global, file: &AigerFile, property: Property) -> Result<Vec<Symbol>, TransformError>
    ensures { IfErr result IsUnmade }
{
    let mut symbols = Vec::new(alloc);
    for symbol in file.symbols() {
        if matches!(
            symbol.kind,
            SymbolKind::Input | SymbolKind::Latch | SymbolKind::Constraint
        ) {
            let name = symbol.name.as_slice();
            add_name(alloc, &mut symbols, symbol.kind, symbol.position, name)?;
        }
    }
    name_others(alloc, &mut symbols, file.model())?;
    let kind = match property {
        Property::Output(_) => SymbolKind::Output,
        _ => SymbolKind::Bad,
    };
    if let Some(name) = symbol_of(file, property) {
        add_name(alloc, &mut symbols, kind, 0, name)?;
    }
    Ok(symbols)
}

/// The file of the circuit of the property that watches this literal, with names.
fn named_part(
    alloc: Global,
    file: &AigerFile,
    property: Property,
    watched: Lit,
) -> Result<AigerFile, TransformError>
    requires { IsWatched file.now.model property watched }
    ensures part { IfOk result (λ f. IsPartOf file.now.model property f.model) }
    ensures stands { IfOk result (λ f. StandsFor file.now.model property f.model) }
    ensures refused { IfErr result IsUnmade }
{
    let part = part_of(alloc, file.model(), property, watched)?;
    let symbols = Seq::from_vec(names(alloc, file, property)?);
    let named = AigerFile::new(alloc, part, symbols, None)?;
    Ok(named)
}

/// The position of a property among those of its kind.
fn position(property: Property) -> u32
    ensures { result ≡ position_of property }
{
    match property {
        Property::Bad(n) | Property::Justice(n) | Property::Output(n) => n,
    }
}

/// The file of the circuit of a property, which is no justice property: all inputs and latches, each with a name, the constraints, and
/// the gates on which they and the property rest. A latch on which they don't rest keeps its value.
pub fn extracted(
    alloc: Global,
    file: &AigerFile,
    property: Property,
) -> Result<AigerFile, TransformError>
    ensures part { IfOk result (λ f. IsPartOf file.now.model property f.model) }
    ensures stands { IfOk result (λ f. StandsFor file.now.model property f.model) }
    ensures refused { IfErr result (HasCause file.now.model property) }
{
    let Some(watched) = watched(file.model(), property) else {
        return Err(TransformError::NoProperty(position(property)));
    };
    named_part(alloc, file, property, watched)
}
