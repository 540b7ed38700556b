//! Carrying a circuit's gates over, one after the other.

ghost use Rattle.std.specs.Prelude.{◌≡◌, ◌+◌, ◌<◌, ◌≤◌, length, OnOk};
ghost use Rattle.std.specs.HashMap.{get};
ghost use Rattle.graph.specs.Circuits.{variable};
ghost use Rattle.graph.specs.WellFormed.{IsModel};
ghost use Rattle.shrink.specs.Hashed.{AreCarried, image_of, renamed};
ghost use Rattle.shrink.specs.Making.{AreMade, IsTable, same_sides};

use crate::making::Making;
use base::Refused;
use graph::{Lit, Parts};

/// The literal that a literal is carried to: that of its variable, negated where it is.
pub fn rename(image: &[Lit], lit: Lit) -> Lit
    requires in_range { variable lit < length image.now }
    requires room { (image_of image.now (variable lit)).0 < 4294967295 }
    ensures { result ≡ renamed image.now lit }
{
    let image = image[lit.variable() as usize];
    if !lit.is_negated() {
        image
    } else if image.is_negated() {
        Lit(image.0 - 1)
    } else {
        Lit(image.0 + 1)
    }
}

/// Carries the gates over in an order in which each comes after those that it reads.
pub fn carry_gates(
    parts: &Parts,
    order: &[u32],
    first: u32,
    image: &mut [Lit],
    making: &mut Making,
) -> Result<(), Refused>
    requires model { IsModel parts.now order.now }
    requires room { first + length order.now ≤ 4194304 }
    requires begins { AreCarried parts.now order.now first image.old making.old.gates image.old 0 }
    requires made { AreMade first making.old.gates }
    requires table { IsTable first making.old.gates (get same_sides making.old.table) }
    ensures made { OnOk result (AreMade first making.new.gates) }
    ensures carried { OnOk result (AreCarried parts.now order.now first image.old making.new.gates image.new (length order.now)) }
    ensures table { OnOk result (IsTable first making.new.gates (get same_sides making.new.table)) }
{
    let gates = parts.gates.as_slice();
    for position in order {
        let gate = gates[*position as usize];
        let left = rename(image, gate.rhs0);
        let right = rename(image, gate.rhs1);
        image[gate.lhs.variable() as usize] = making.and(first, left, right)?;
    }
    Ok(())
}
