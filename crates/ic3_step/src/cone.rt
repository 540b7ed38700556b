//! The cone of a circuit whose gates' clauses a solver has, and how it grows.

ghost use Rattle.std.specs.Prelude.{◌≡◌, ℤ, List, ◌+◌, ◌<◌, ◌≤◌, ◌^◌, ◌++◌, ◌∷◌, ℕ, false, length, map, flat_map, All, IfOk, OnOk};
ghost use Rattle.lrat.specs.Shared.{unit_clauses};
ghost use Rattle.graph.specs.Circuits.{variable, place};
ghost use Rattle.cnf.specs.Clauses.{literal, truth_clause, gate_clauses, frame_at};
ghost use Rattle.cnf.specs.Formulas.{IsInRange, IsGateIn};
ghost use Rattle.cones.specs.Marks.{IsMarked};
ghost use Rattle.cones.specs.Reach.{IsGateTable};
ghost use Rattle.ic3_step.specs.Replies.{IsUsable};
ghost use Rattle.ic3_step.specs.Contents.{IsGrown, IsMoreOf};
ghost use Rattle.ic3_step.specs.Queries.{IsUnasked, ArePartGates, IsPartFor};

use crate::part_gates::PartGates;
use crate::query::part_of;
use base::{Refused, filled};
use cnf::TimeFrame;
use cones::{GateTable, grow_cone};
use engine::EngineError;
use graph::{Gate, Lit, Model};
use solver::{Part, Sat};
use std::alloc::Global;

/// The gates of a circuit, and a mark for each variable of the cone whose gates' clauses a solver has.
#[derive(Drop)]
pub(crate) struct Cone {
    pub table: GateTable,
    pub marks: Vec<bool>,
    /// a mark for each variable, of which none is set between two queries
    pub asked: Vec<bool>,
    /// the gates as a part has them
    pub part_gates: PartGates,
}

impl Cone {
    /// Nothing of the circuit yet. It costs the circuit.
    pub(crate) fn new(alloc: Global, circuit: &Model) -> Result<Cone, Refused>
        ensures table { IfOk result (λ c. IsGateTable circuit.now c.table) }
        ensures places { IfOk result (λ c. length c.marks.items ≡ circuit.now.max_var + 1) }
        ensures clear { IfOk result (λ c. (v : ℕ) → place c.marks.items v ≡ false) }
        ensures unasked { IfOk result (λ c. IsUnasked circuit.now c.asked.items) }
        ensures part_gates { IfOk result (λ c. ArePartGates circuit.now c.part_gates) }
    {
        circuit.well_formed();
        let table = GateTable::new(alloc, circuit)?;
        let marks = filled(alloc, false, circuit.max_var() as usize + 1)?;
        let asked = filled(alloc, false, circuit.max_var() as usize + 1)?;
        let part_gates = PartGates::new(alloc, circuit)?;
        Ok(Cone {
            table,
            marks,
            asked,
            part_gates,
        })
    }

    /// The part of the circuit that the literals and the constraints are made of. It costs that part. After an `Err` the
    /// marks are worth nothing.
    pub(crate) fn part_for(
        &mut self,
        alloc: Global,
        circuit: &Model,
        lits: &[Lit],
    ) -> Result<Part, Refused>
        requires table { IsGateTable circuit.now self.old.table }
        requires unasked { IsUnasked circuit.now self.old.asked.items }
        requires part_gates { ArePartGates circuit.now self.old.part_gates }
        requires lits { All (IsUsable circuit.now) lits.now }
        ensures marks { self.new.marks ≡ self.old.marks }
        ensures grown { (cs : List (List ℤ)) → IsGrown circuit.now self.old cs → OnOk result (IsGrown circuit.now self.new cs) }
        ensures part { IfOk result (IsPartFor circuit.now lits.now) }
    {
        part_of(
            alloc,
            circuit,
            &self.table,
            &mut self.asked,
            &self.part_gates,
            lits,
        )
    }
}

/// Adds each literal of the circuit as a unit.
fn add_units<S: Sat>(
    solver: &mut S,
    alloc: Global,
    time: TimeFrame,
    lits: &[Lit],
) -> Result<(), EngineError>
    requires first { time.offset ≡ 0 }
    requires fits { time.max_var + 1 < 2 ^ 31 }
    requires vars { time.max_var + 1 ≤ S.vars solver.old }
    requires range { All (IsInRange time.max_var) lits.now }
    ensures vars { S.vars solver.new ≡ S.vars solver.old }
    ensures clauses { OnOk result (S.clauses solver.new ≡ S.clauses solver.old ++ unit_clauses (map (literal time.max_var 0) lits.now)) }
{
    for lit in lits {
        solver.add(alloc, &[time.literal(*lit)])?;
    }
    Ok(())
}

/// Adds the unit of what is true, and those of the constraints.
pub(crate) fn add_constraints<S: Sat>(
    solver: &mut S,
    alloc: Global,
    circuit: &Model,
) -> Result<(), EngineError>
    requires { circuit.now.max_var + 1 ≤ S.vars solver.old }
    ensures vars { S.vars solver.new ≡ S.vars solver.old }
    ensures clauses { OnOk result (S.clauses solver.new ≡ S.clauses solver.old ++ truth_clause circuit.now.max_var 0 ∷ unit_clauses (map (literal circuit.now.max_var 0) circuit.now.constraints)) }
{
    circuit.well_formed();
    let time = TimeFrame::first(circuit);
    solver.add(alloc, &[time.truth()])?;
    add_units(solver, alloc, time, circuit.constraints())
}

/// Adds the clauses of a gate.
fn add_gate<S: Sat>(
    solver: &mut S,
    alloc: Global,
    time: TimeFrame,
    gate: Gate,
) -> Result<(), EngineError>
    requires first { time.offset ≡ 0 }
    requires fits { time.max_var + 1 < 2 ^ 31 }
    requires vars { time.max_var + 1 ≤ S.vars solver.old }
    requires range { IsGateIn time.max_var gate }
    ensures vars { S.vars solver.new ≡ S.vars solver.old }
    ensures clauses { OnOk result (S.clauses solver.new ≡ S.clauses solver.old ++ gate_clauses time.max_var 0 gate) }
{
    let left = time.literal(gate.lhs);
    let not_left = time.denial(gate.lhs);
    solver.add(alloc, &[not_left, time.literal(gate.rhs0)])?;
    solver.add(alloc, &[not_left, time.literal(gate.rhs1)])?;
    solver.add(
        alloc,
        &[left, time.denial(gate.rhs0), time.denial(gate.rhs1)],
    )?;
    Ok(())
}

/// Adds the clauses of each gate.
fn add_gates<S: Sat>(
    solver: &mut S,
    alloc: Global,
    time: TimeFrame,
    gates: &[Gate],
) -> Result<(), EngineError>
    requires first { time.offset ≡ 0 }
    requires fits { time.max_var + 1 < 2 ^ 31 }
    requires vars { time.max_var + 1 ≤ S.vars solver.old }
    requires range { All (IsGateIn time.max_var) gates.now }
    ensures vars { S.vars solver.new ≡ S.vars solver.old }
    ensures clauses { OnOk result (S.clauses solver.new ≡ S.clauses solver.old ++ flat_map (gate_clauses time.max_var 0) gates.now) }
{
    for gate in gates {
        add_gate(solver, alloc, time, *gate)?;
    }
    Ok(())
}

/// Adds what the solver doesn't have yet of the clauses of the literals' cone. It costs what it adds.
/// After an `Err` the solver is to be loaded again.
pub(crate) fn grow<S: Sat>(
    solver: &mut S,
    alloc: Global,
    circuit: &Model,
    cone: &mut Cone,
    lits: &[Lit],
) -> Result<(), EngineError>
    requires vars { circuit.now.max_var + 1 ≤ S.vars solver.old }
    requires lits { All (IsUsable circuit.now) lits.now }
    requires grown { IsGrown circuit.now cone.old (S.clauses solver.old) }
    ensures vars { S.vars solver.new ≡ S.vars solver.old }
    ensures grown { OnOk result (IsGrown circuit.now cone.new (S.clauses solver.new)) }
    ensures kept { OnOk result ((v : ℕ) → IsMarked cone.old.marks.items v → IsMarked cone.new.marks.items v) }
    ensures marked { OnOk result (All (λ a. IsMarked cone.new.marks.items (variable a)) lits.now) }
    ensures added { OnOk result (IsMoreOf (frame_at circuit.now 0) (S.clauses solver.old) (S.clauses solver.new)) }
{
    circuit.well_formed();
    let gates = grow_cone(alloc, circuit, &cone.table, lits, &mut cone.marks)?;
    add_gates(solver, alloc, TimeFrame::first(circuit), &gates)?;
    Ok(())
}
