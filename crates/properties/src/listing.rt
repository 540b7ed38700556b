//! Which properties a circuit has.

ghost use Rattle.std.specs.Prelude.{◌≡◌, ◌<◌, ◌++◌, IfOk, OnOk, All, AllPairs, Contains, length, map};
ghost use Rattle.std.specs.List.{range_with_len};
ghost use Rattle.graph.specs.declared.circuit.Property.{Property as AProperty};
ghost use Rattle.graph.specs.Circuits.{AreOutputsBad, HasProperty};
ghost use Rattle.properties.specs.Order.{ComesBefore, property_at};

use base::{Refused, push};
use graph::{Model, Property};
use std::alloc::Global;

/// A kind of properties.
#[derive(Clone, Copy, PartialEq, Eq)]
enum Kind {
    /// bad literals
    Bad,
    /// justice properties
    Justice,
    /// outputs that are taken as bad literals
    Output,
}

impl Kind {
    /// The property of this kind at a position.
    fn at(self, position: u32) -> Property
        ensures { result ≡ property_at self position }
    {
        match self {
            Kind::Bad => Property::Bad(position),
            Kind::Justice => Property::Justice(position),
            Kind::Output => Property::Output(position),
        }
    }
}

/// Adds the first properties of a kind, as many as `count` says.
fn push_kind(to: &mut Vec<Property>, kind: Kind, count: u32) -> Result<(), Refused>
    ensures { OnOk result (to.new.items ≡ to.old.items ++ map (property_at kind) (range_with_len 0 count)) }
{
    for position in 0..count {
        push(to, kind.at(position))?;
    }
    Ok(())
}

/// How many outputs are taken as bad literals: all or none.
fn bad_outputs(circuit: &Model) -> u32
    ensures all { AreOutputsBad circuit.now → result ≡ length circuit.now.outputs }
    ensures some { 0 < result → AreOutputsBad circuit.now }
{
    let parts = circuit.parts();
    if parts.are_outputs_bad() {
        parts.outputs.len() as u32
    } else {
        0
    }
}

/// Each property of the circuit, once, in the order of the file: the bad literals and then the justice
/// properties, each kind by position. Where the circuit has none of them, no constraint and no fairness
/// literal, they are its outputs.
pub fn all_properties(alloc: Global, circuit: &Model) -> Result<Vec<Property>, Refused>
    ensures each { (p : AProperty) → HasProperty circuit.now p → IfOk result (λ v. Contains v.items p) }
    ensures only { IfOk result (λ v. All (HasProperty circuit.now) v.items) }
    ensures ordered { IfOk result (λ v. AllPairs ComesBefore v.items) }
{
    let parts = circuit.parts();
    let mut properties = Vec::new(alloc);
    push_kind(&mut properties, Kind::Bad, parts.bad.len() as u32)?;
    push_kind(&mut properties, Kind::Justice, parts.justice.len() as u32)?;
    push_kind(&mut properties, Kind::Output, bad_outputs(circuit))?;
    Ok(properties)
}
