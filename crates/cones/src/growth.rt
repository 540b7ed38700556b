//! Cones that grow from question to question.

ghost use Rattle.std.specs.Prelude.{◌≡◌, ◌+◌, ◌≤◌, ◌++◌, ℤ, List, length, flat_map, All, Contains, IfOk, OnOk};
ghost use Rattle.graph.specs.Circuits.{variable};
ghost use Rattle.cnf.specs.Clauses.{gate_clauses};
ghost use Rattle.cones.specs.Marks.{IsMarked, IsCone};
ghost use Rattle.cones.specs.Partial.{HasGates};
ghost use Rattle.cones.specs.Reach.{IsGateTable, IsInside};

use crate::gates::gates_of;
use crate::reach::{Reach, extend};
use crate::table::GateTable;
use base::Refused;
use graph::{Gate, Lit, Model};
use std::alloc::Global;

/// Marks the cone of the literals beside those that were marked before, and answers the gates that
/// are new: with their clauses, clauses of the old cones' gates become clauses of all. It costs
/// what is new. After an `Err` the marks are worth nothing.
pub fn grow_cone(
    alloc: Global,
    circuit: &Model,
    table: &GateTable,
    wanted: &[Lit],
    marks: &mut [bool],
) -> Result<Vec<Gate>, Refused>
    requires table { IsGateTable circuit.now table.now }
    requires places { length marks.old ≡ circuit.now.max_var + 1 }
    requires wanted { All (λ a. variable a ≤ circuit.now.max_var) wanted.now }
    requires cone { IsCone circuit.now (IsMarked marks.old) }
    ensures places { OnOk result (length marks.new ≡ circuit.now.max_var + 1) }
    ensures cone { OnOk result (IsCone circuit.now (IsMarked marks.new)) }
    ensures kept { OnOk result (IsInside marks.old marks.new) }
    ensures wanted { OnOk result (All (λ a. IsMarked marks.new (variable a)) wanted.now) }
    ensures gates { IfOk result (λ gates. All (Contains circuit.now.gates) gates.items) }
    ensures clauses { (cs : List (List ℤ)) → HasGates circuit.now (IsMarked marks.old) cs →
        IfOk result (λ gates. HasGates circuit.now (IsMarked marks.new) (cs ++ flat_map (gate_clauses circuit.now.max_var 0) gates.items)) }
{
    circuit.well_formed();
    let list = extend(alloc, circuit, table, Reach::Cone, &[], wanted, marks)?;
    let gates = gates_of(alloc, table, &list)?;
    Ok(gates)
}
