//! One time of the circuit: the literals of clauses for the cone's variables, by a table.

ghost use Rattle.std.specs.Prelude.{◌≡◌, ℕ, ℤ, List, ◌+◌, ◌<◌, ◌≤◌, ◌++◌, length, map, All, OnOk, IfErr};
ghost use Rattle.lrat.specs.Literals.{IsLiteral};
ghost use Rattle.lrat.specs.Shared.{unit_clauses};
ghost use Rattle.graph.specs.Circuits.{variable};
ghost use Rattle.cuts.specs.Cuts.{IsLeaf};
ghost use Rattle.unrolling.specs.Cones.{IsConeOf};
ghost use Rattle.base.specs.Budget.{Spends};
ghost use Rattle.unrolling.specs.Merged.{IsReady};
ghost use Rattle.unrolling.specs.Encodings.{IsEncoding, IsGrown, Told, told};
ghost use Rattle.unrolling.specs.Unrollings.{Leaves, IsTable, AreFresh, AreStates, by_table, literal_at, literal_of};
ghost use Rattle.engine.specs.declared.engine_error.EngineError.TheVariants.{Limit};
ghost use Rattle.solver.specs.Full.{full};

use crate::clauses::{add_one, negated, positive};
use crate::cone::Cone;
use crate::encoder::Encoder;
use crate::function::Function;
use crate::sweeping::Sweeping;
use base::{Budget, Refused};
use cuts::Cut;
use engine::EngineError;
use graph::{Lit, Model};
use solver::{PartSat, Sat};
use std::alloc::Global;

/// The literal at a place.
pub fn entry(literals: &[i32], place: u32) -> i32
    requires { place < length literals.now }
    ensures { result ≡ literal_at literals.now place }
{
    literals[place as usize]
}

/// The literal of clauses for a literal of the circuit.
pub fn literal(table: &[i32], lit: Lit) -> i32
    requires in_range { variable lit < length table.now }
    requires small { All (IsLiteral 2147483647) table.now }
    ensures { result ≡ literal_of table.now lit }
{
    let literal = table[lit.variable() as usize];
    if lit.is_negated() {
        negated(literal)
    } else {
        literal
    }
}

/// Gives the cone's inputs the variables behind the first ones.
pub fn fill_inputs(circuit: &Model, cone: &Cone, first: u32, table: &mut [i32])
    requires cone { IsConeOf circuit.now cone.now }
    requires small { first + length cone.now.inputs.items ≤ 2147483647 }
    requires whole { length table.old ≡ circuit.now.max_var + 1 }
    ensures table { (s : Leaves) (d : Told) (t n : ℕ) → first + length cone.now.inputs.items ≤ n → AreFresh circuit.now cone.now s t first →
        IsTable circuit.now cone.now s d t n 0 0 0 table.old → IsTable circuit.now cone.now s d t n (length cone.now.inputs.items) 0 0 table.new }
    ensures whole { length table.new ≡ length table.old }
    ensures literals { (n : ℕ) → first + length cone.now.inputs.items ≤ n → All (IsLiteral n) table.old → All (IsLiteral n) table.new }
{
    circuit.well_formed();
    let inputs = circuit.inputs();
    for (index, position) in cone.inputs.iter().enumerate() {
        table[inputs[*position as usize].variable() as usize] = positive(first + 1 + index as u32);
    }
}

/// Gives the cone's latches their literals.
pub fn fill_latches(circuit: &Model, cone: &Cone, state: &[i32], table: &mut [i32])
    requires cone { IsConeOf circuit.now cone.now }
    requires lengths { length state.now ≡ length cone.now.latches.items }
    requires whole { length table.old ≡ circuit.now.max_var + 1 }
    ensures table { (s : Leaves) (d : Told) (t n : ℕ) → AreStates circuit.now cone.now s d t n state.now →
        IsTable circuit.now cone.now s d t n (length cone.now.inputs.items) 0 0 table.old →
        IsTable circuit.now cone.now s d t n (length cone.now.inputs.items) (length cone.now.latches.items) 0 table.new }
    ensures whole { length table.new ≡ length table.old }
    ensures literals { (n : ℕ) → All (IsLiteral n) state.now → All (IsLiteral n) table.old → All (IsLiteral n) table.new }
{
    circuit.well_formed();
    let latches = circuit.latches();
    for (index, position) in cone.latches.iter().enumerate() {
        table[latches[*position as usize].lit.variable() as usize] = state[index];
    }
}

/// The function of the table's literals that the cut is of its leaves.
fn function_of(table: &[i32], cut: Cut) -> Function
    requires { (u : ℕ) → IsLeaf cut u → u < length table.now }
    ensures { result ≡ by_table table.now cut }
{
    let (first, second, third, fourth) = cut.leaves;
    Function {
        table: cut.table,
        leaves: (
            entry(table, first),
            entry(table, second),
            entry(table, third),
            entry(table, fourth),
        ),
    }
}

/// Makes the literal of the cone's cell at this place.
fn encode_cell(
    circuit: &Model,
    cone: &Cone,
    encoder: &mut Encoder,
    table: &mut [i32],
    place: usize,
) -> Result<(), Refused>
    requires cone { IsConeOf circuit.now cone.now }
    requires inside { place < length cone.now.cells.items }
    requires whole { length table.old ≡ circuit.now.max_var + 1 }
    requires literals { All (IsLiteral encoder.old.variables) table.old }
    requires encoding { IsEncoding encoder.old }
    requires room { encoder.old.variables < 2147483647 }
    ensures grown { OnOk result (IsGrown 1 encoder.old encoder.new) }
    ensures whole { length table.new ≡ length table.old }
    ensures literals { OnOk result (All (IsLiteral encoder.new.variables) table.new) }
    ensures table { (s : Leaves) (cs : List (List ℤ)) (t : ℕ) → IsTable circuit.now cone.now s (told encoder.old cs) t encoder.old.variables (length cone.now.inputs.items) (length cone.now.latches.items) place table.old →
        OnOk result (IsTable circuit.now cone.now s (told encoder.new cs) t encoder.new.variables (length cone.now.inputs.items) (length cone.now.latches.items) (place + 1) table.new) }
{
    circuit.well_formed();
    let cell = cone.cells[place];
    table[cell.variable as usize] = encoder.literal(function_of(table, cell.cut))?;
    Ok(())
}

/// Makes the literal of the cone's cell at this place: of equal ones the earliest that is known.
fn merge_cell<S: PartSat>(
    circuit: &Model,
    cone: &Cone,
    encoder: &mut Encoder,
    sweeping: &mut Sweeping<S>,
    table: &mut [i32],
    place: usize,
    budget: &mut Budget,
) -> Result<(), Refused>
    requires cone { IsConeOf circuit.now cone.now }
    requires inside { place < length cone.now.cells.items }
    requires whole { length table.old ≡ circuit.now.max_var + 1 }
    requires literals { All (IsLiteral encoder.old.variables) table.old }
    requires encoding { IsEncoding encoder.old }
    requires room { encoder.old.variables < 2147483647 }
    requires ready { IsReady encoder.old sweeping.old.given.items (S.vars sweeping.old.solver) (S.clauses sweeping.old.solver) sweeping.old.representatives }
    ensures grown { OnOk result (IsGrown 1 encoder.old encoder.new) }
    ensures whole { length table.new ≡ length table.old }
    ensures spends { Spends budget.old budget.new }
    ensures literals { OnOk result (All (IsLiteral encoder.new.variables) table.new) }
    ensures ready { OnOk result (IsReady encoder.new sweeping.new.given.items (S.vars sweeping.new.solver) (S.clauses sweeping.new.solver) sweeping.new.representatives) }
    ensures table { (s : Leaves) (cs : List (List ℤ)) (t : ℕ) → IsTable circuit.now cone.now s (told encoder.old cs) t encoder.old.variables (length cone.now.inputs.items) (length cone.now.latches.items) place table.old →
        OnOk result (IsTable circuit.now cone.now s (told encoder.new cs) t encoder.new.variables (length cone.now.inputs.items) (length cone.now.latches.items) (place + 1) table.new) }
{
    circuit.well_formed();
    encode_cell(circuit, cone, encoder, table, place)?;
    let variable = cone.cells[place].variable;
    let literal = entry(table, variable);
    table[variable as usize] = sweeping.merged(encoder, literal, budget)?;
    Ok(())
}

/// Makes the literals of the cone's cells.
pub fn encode_cells<S: PartSat>(
    circuit: &Model,
    cone: &Cone,
    encoder: &mut Encoder,
    sweeping: &mut Sweeping<S>,
    table: &mut [i32],
    budget: &mut Budget,
) -> Result<(), Refused>
    requires cone { IsConeOf circuit.now cone.now }
    requires whole { length table.old ≡ circuit.now.max_var + 1 }
    requires literals { All (IsLiteral encoder.old.variables) table.old }
    requires encoding { IsEncoding encoder.old }
    requires room { encoder.old.variables + length cone.now.cells.items ≤ 2147483647 }
    requires ready { IsReady encoder.old sweeping.old.given.items (S.vars sweeping.old.solver) (S.clauses sweeping.old.solver) sweeping.old.representatives }
    ensures grown { OnOk result (IsGrown (length cone.now.cells.items) encoder.old encoder.new) }
    ensures whole { length table.new ≡ length table.old }
    ensures spends { Spends budget.old budget.new }
    ensures literals { OnOk result (All (IsLiteral encoder.new.variables) table.new) }
    ensures ready { OnOk result (IsReady encoder.new sweeping.new.given.items (S.vars sweeping.new.solver) (S.clauses sweeping.new.solver) sweeping.new.representatives) }
    ensures table { (s : Leaves) (cs : List (List ℤ)) (t : ℕ) → IsTable circuit.now cone.now s (told encoder.old cs) t encoder.old.variables (length cone.now.inputs.items) (length cone.now.latches.items) 0 table.old →
        OnOk result (IsTable circuit.now cone.now s (told encoder.new cs) t encoder.new.variables (length cone.now.inputs.items) (length cone.now.latches.items) (length cone.now.cells.items) table.new) }
{
    for place in 0..cone.cells.len() {
        merge_cell(circuit, cone, encoder, sweeping, table, place, budget)?;
    }
    Ok(())
}

/// Adds each literal as a clause.
pub fn add_units<S: Sat>(
    solver: &mut S,
    alloc: Global,
    table: &[i32],
    lits: &[Lit],
) -> Result<(), EngineError>
    requires range { All (λ a. variable a < length table.now) lits.now }
    requires literals { All (IsLiteral (S.vars solver.old)) table.now }
    requires small { S.vars solver.old ≤ 2147483647 }
    ensures vars { S.vars solver.new ≡ S.vars solver.old }
    ensures clauses { OnOk result (S.clauses solver.new ≡ S.clauses solver.old ++ unit_clauses (map (literal_of table.now) lits.now)) }
    ensures limit { IfErr result (λ e. e ≡ Limit full → S.is_full solver.new) }
{
    for lit in lits {
        add_one(solver, alloc, literal(table, *lit))?;
    }
    Ok(())
}
