//! The gates of listed variables, and marks that are taken away.

ghost use Rattle.std.specs.Prelude.{◌≡◌, ℕ, ◌<◌, false, length, All, Contains, IfOk};
ghost use Rattle.graph.specs.Circuits.{place};
ghost use Rattle.cones.specs.Marks.{IsMarked};
ghost use Rattle.cones.specs.Reach.{gates_in};

use crate::table::GateTable;
use base::{Refused, push};
use graph::Gate;
use std::alloc::Global;

/// The gates of those of the variables that are gates'.
pub fn gates_of(alloc: Global, table: &GateTable, list: &[u32]) -> Result<Vec<Gate>, Refused>
    ensures { IfOk result (λ gates. gates.items ≡ gates_in table.now list.now) }
{
    let mut gates = Vec::new(alloc);
    for variable in list {
        if let Some(gate) = table.gate_of(*variable) {
            push(&mut gates, gate)?;
        }
    }
    Ok(gates)
}

/// Takes the listed marks away. It costs the list.
pub fn unmark(marks: &mut [bool], list: &[u32])
    requires range { All (λ v. v < length marks.old) list.now }
    requires listed { (v : ℕ) → IsMarked marks.old v → Contains list.now v }
    ensures places { length marks.new ≡ length marks.old }
    ensures clear { (v : ℕ) → place marks.new v ≡ false }
{
    for variable in list {
        marks[*variable as usize] = false;
    }
}
