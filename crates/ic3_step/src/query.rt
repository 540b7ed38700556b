//! The part of a circuit that a query is about.

ghost use Rattle.std.specs.Prelude.{◌≡◌, ◌++◌, map, All, IfOk, OnOk};
ghost use Rattle.cnf.specs.Clauses.{literal, truth_clause};
ghost use Rattle.cones.specs.Reach.{IsGateTable};
ghost use Rattle.ic3_step.specs.Replies.{IsUsable};
ghost use Rattle.ic3_step.specs.Queries.{IsUnasked, ArePartGates, IsPartFor};

use crate::asking::push_lits;
use crate::part_gates::PartGates;
use base::{Refused, copied, extend, push};
use cnf::TimeFrame;
use cones::{GateTable, Reach, unmark};
use graph::{Lit, Model};
use solver::Part;
use std::alloc::Global;

/// The literals, and the constraints of the circuit.
fn roots_of(alloc: Global, circuit: &Model, lits: &[Lit]) -> Result<Vec<Lit>, Refused>
    ensures { IfOk result (λ v. v.items ≡ lits.now ++ circuit.now.constraints) }
{
    let mut roots = copied(alloc, lits)?;
    extend(&mut roots, circuit.constraints())?;
    Ok(roots)
}

/// What is true, and the constraints.
fn wanted(alloc: Global, circuit: &Model) -> Result<Vec<i32>, Refused>
    ensures { IfOk result (λ v. v.items ≡ truth_clause circuit.now.max_var 0 ++ map (literal circuit.now.max_var 0) circuit.now.constraints) }
{
    circuit.well_formed();
    let mut literals = Vec::new(alloc);
    push(&mut literals, TimeFrame::first(circuit).truth())?;
    push_lits(&mut literals, circuit, circuit.constraints())?;
    Ok(literals)
}

/// The gates of which the literals and the constraints are made, and the literals that are true at every
/// time. It costs these. After an `Err` the marks are worth nothing.
pub(crate) fn part_of(
    alloc: Global,
    circuit: &Model,
    table: &GateTable,
    asked: &mut [bool],
    part_gates: &PartGates,
    lits: &[Lit],
) -> Result<Part, Refused>
    requires table { IsGateTable circuit.now table.now }
    requires part_gates { ArePartGates circuit.now part_gates.now }
    requires unasked { IsUnasked circuit.now asked.old }
    requires lits { All (IsUsable circuit.now) lits.now }
    ensures unasked { OnOk result (IsUnasked circuit.now asked.new) }
    ensures part { IfOk result (IsPartFor circuit.now lits.now) }
{
    circuit.well_formed();
    let roots = roots_of(alloc, circuit, lits)?;
    let list = cones::extend(alloc, circuit, table, Reach::Cone, &[], &roots, asked)?;
    let gates = part_gates.gates_of(alloc, &list)?;
    unmark(asked, &list);
    let literals = wanted(alloc, circuit)?;
    Ok(Part { gates, literals })
}
