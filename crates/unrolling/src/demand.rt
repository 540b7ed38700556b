//! Functions that are given to a solver where they are asked for.

ghost use Rattle.std.specs.Prelude.{◌≡◌, ◌+◌, ◌-◌, ◌<◌, ◌≤◌, ◌∷◌, [], ◌++◌, ◌^◌, length, map, slice_index, All, OnOk, IfErr, unsigned_abs};
ghost use Rattle.lrat.specs.Literals.{IsLiteral};
ghost use Rattle.graph.specs.Circuits.{variable};
ghost use Rattle.cones.specs.Marks.{IsMarked};
ghost use Rattle.cones.specs.Reach.{Grows, IsFrom};
ghost use Rattle.unrolling.specs.Encodings.{IsEncoding, OnFour, AreLeaves};
ghost use Rattle.unrolling.specs.Demands.{AreGiven, IsGivenOne, IsMore, IsSaid, side_clause, cube_clause};
ghost use Rattle.unrolling.specs.Unrollings.{literal_of};
ghost use Rattle.engine.specs.declared.engine_error.EngineError.TheVariants.{Limit};
ghost use Rattle.solver.specs.Full.{full};

use crate::clauses::{negated, positive};
use crate::encoder::Encoder;
use crate::frame::literal;
use crate::function::Function;
use base::{Refused, push};
use engine::EngineError;
use graph::Lit;
use solver::Sat;
use std::alloc::Global;
use truth_tables::{Covers, Cube, Side, complement};

/// What the clauses of functions are made of.
#[derive(Drop)]
pub struct CoverClauses {
    /// the covers of the functions that were given
    by_table: Covers,
    /// the clause of one cube
    clause: Vec<i32>,
}

impl CoverClauses {
    /// No function was given yet.
    pub fn new(alloc: Global) -> CoverClauses {
        CoverClauses {
            by_table: Covers::new(alloc),
            clause: Vec::new(alloc),
        }
    }

    /// The allocator of the clause.
    pub fn allocator(&self) -> Global {
        *self.clause.allocator()
    }
}

/// Marks the literal's variable, and adds it to the list where it was not marked.
fn want(marks: &mut [bool], list: &mut Vec<u32>, literal: i32) -> Result<(), Refused>
    requires { unsigned_abs literal < length marks.old }
    ensures grows { OnOk result (Grows (unsigned_abs literal ∷ []) marks.old list.old.items marks.new list.new.items) }
    ensures from { OnOk result (IsFrom (unsigned_abs literal ∷ []) marks.old marks.new) }
{
    let variable = literal.unsigned_abs();
    if !marks[variable as usize] {
        marks[variable as usize] = true;
        push(list, variable)?;
    }
    Ok(())
}

/// Marks the variables of the table's literals for these.
fn want_all(
    marks: &mut [bool],
    list: &mut Vec<u32>,
    table: &[i32],
    lits: &[Lit],
) -> Result<(), Refused>
    requires some { 0 < length marks.old }
    requires small { length marks.old ≤ 2147483648 }
    requires literals { All (IsLiteral (length marks.old - 1)) table.now }
    requires range { All (λ a. variable a < length table.now) lits.now }
    ensures grows { OnOk result (Grows (map (λ a. unsigned_abs (literal_of table.now a)) lits.now) marks.old list.old.items marks.new list.new.items) }
    ensures from { OnOk result (IsFrom (map (λ a. unsigned_abs (literal_of table.now a)) lits.now) marks.old marks.new) }
{
    for lit in lits {
        want(marks, list, literal(table, *lit))?;
    }
    Ok(())
}

/// Marks the literals' variables, and adds those to the list that were not marked.
fn want_each(marks: &mut [bool], list: &mut Vec<u32>, literals: &[i32]) -> Result<(), Refused>
    requires { All (λ l. unsigned_abs l < length marks.old) literals.now }
    ensures grows { OnOk result (Grows (map unsigned_abs literals.now) marks.old list.old.items marks.new list.new.items) }
    ensures from { OnOk result (IsFrom (map unsigned_abs literals.now) marks.old marks.new) }
{
    for literal in literals {
        want(marks, list, *literal)?;
    }
    Ok(())
}

/// Adds to the clause what is true where the leaf is not as the cube wants it.
fn add_side(clause: &mut Vec<i32>, side: Side, leaf: i32) -> Result<(), Refused>
    requires { unsigned_abs leaf < 2 ^ 31 }
    ensures { OnOk result (clause.new.items ≡ clause.old.items ++ side_clause side leaf) }
{
    match side {
        Side::Free => Ok(()),
        Side::True => push(clause, negated(leaf)),
        Side::False => push(clause, leaf),
    }
}

/// Makes the clause by which the literal is true where the leaves are in the cube.
fn fill_clause(
    clause: &mut Vec<i32>,
    literal: i32,
    leaves: (i32, i32, i32, i32),
    cube: &Cube,
) -> Result<(), Refused>
    requires { OnFour (λ l. unsigned_abs l < 2 ^ 31) leaves }
    ensures { OnOk result (clause.new.items ≡ cube_clause literal leaves cube.now) }
{
    let (first, second, third, fourth) = leaves;
    clause.clear();
    push(clause, literal)?;
    add_side(clause, cube.first, first)?;
    add_side(clause, cube.second, second)?;
    add_side(clause, cube.third, third)?;
    add_side(clause, cube.fourth, fourth)
}

/// Gives the solver the clauses by which the literal is true where the leaves are in one of the cubes.
fn add_cover<S: Sat>(
    solver: &mut S,
    alloc: Global,
    literal: i32,
    leaves: (i32, i32, i32, i32),
    cubes: &[Cube],
    clause: &mut Vec<i32>,
) -> Result<(), EngineError>
    requires literal { IsLiteral (S.vars solver.old) literal }
    requires leaves { OnFour (IsLiteral (S.vars solver.old)) leaves }
    requires small { S.vars solver.old ≤ 2147483647 }
    ensures vars { S.vars solver.new ≡ S.vars solver.old }
    ensures clauses { OnOk result (S.clauses solver.new ≡ S.clauses solver.old ++ map (cube_clause literal leaves) cubes.now) }
    ensures limit { IfErr result (λ e. e ≡ Limit full → S.is_full solver.new) }
{
    for cube in cubes {
        fill_clause(clause, literal, leaves, cube)?;
        solver.add(alloc, clause)?;
    }
    Ok(())
}

/// Gives the solver the clauses by which the literal has the function's value: those of a cover of the function, and those of a
/// cover of its complement.
fn add_function<S: Sat>(
    solver: &mut S,
    literal: i32,
    function: Function,
    covers: &mut CoverClauses,
) -> Result<(), EngineError>
    requires literal { IsLiteral (S.vars solver.old) literal }
    requires leaves { AreLeaves (S.vars solver.old) function }
    requires small { S.vars solver.old ≤ 2147483647 }
    ensures vars { S.vars solver.new ≡ S.vars solver.old }
    ensures said { OnOk result (IsSaid literal function (S.clauses solver.old) (S.clauses solver.new)) }
    ensures limit { IfErr result (λ e. e ≡ Limit full → S.is_full solver.new) }
{
    let alloc = covers.allocator();
    let leaves = function.leaves;
    let on = covers.by_table.of(alloc, function.table)?;
    add_cover(solver, alloc, literal, leaves, on, &mut covers.clause)?;
    let off = covers.by_table.of(alloc, complement(function.table))?;
    add_cover(
        solver,
        alloc,
        negated(literal),
        leaves,
        off,
        &mut covers.clause,
    )
}

/// Gives the solver the clauses of the listed variable, and marks what it depends on.
fn give_one<S: Sat>(
    solver: &mut S,
    encoder: &Encoder,
    covers: &mut CoverClauses,
    marks: &mut [bool],
    list: &mut Vec<u32>,
    place: usize,
) -> Result<(), EngineError>
    requires encoding { IsEncoding encoder.now }
    requires places { length marks.old ≡ S.vars solver.old + 1 }
    requires small { S.vars solver.old ≤ 2147483647 }
    requires inside { place < length list.old.items }
    requires only { All (λ v. (v < length marks.old) × IsMarked marks.old v) list.old.items }
    requires range { encoder.now.variables < length marks.old }
    ensures vars { S.vars solver.new ≡ S.vars solver.old }
    ensures grows { OnOk result (Grows [] marks.old list.old.items marks.new list.new.items) }
    ensures given { OnOk result (IsGivenOne encoder.now marks.old marks.new (S.clauses solver.old) (S.clauses solver.new) (slice_index list.old.items place)) }
    ensures limit { IfErr result (λ e. e ≡ Limit full → S.is_full solver.new) }
{
    let variable = list[place];
    let function = encoder.function_of(variable);
    let (first, second, third, fourth) = function.leaves;
    if first == 0 {
        return Ok(());
    }
    add_function(solver, positive(variable), function, covers)?;
    want_each(marks, list, &[first, second, third, fourth])?;
    Ok(())
}

/// Gives the solver the functions on which the constraints and the bad literals depend, where it
/// has not got them.
pub fn give<S: Sat>(
    solver: &mut S,
    encoder: &Encoder,
    covers: &mut CoverClauses,
    marks: &mut [bool],
    table: &[i32],
    constraints: &[Lit],
    bad: &[Lit],
) -> Result<(), EngineError>
    requires encoding { IsEncoding encoder.now }
    requires given { AreGiven encoder.now marks.old (S.clauses solver.old) }
    requires places { length marks.old ≡ S.vars solver.old + 1 }
    requires small { S.vars solver.old ≤ 2147483647 }
    requires literals { All (IsLiteral encoder.now.variables) table.now }
    requires constraints { All (λ a. variable a < length table.now) constraints.now }
    requires bad { All (λ a. variable a < length table.now) bad.now }
    ensures vars { S.vars solver.new ≡ S.vars solver.old }
    ensures places { length marks.new ≡ length marks.old }
    ensures given { OnOk result (AreGiven encoder.now marks.new (S.clauses solver.new)) }
    ensures more { OnOk result (IsMore encoder.now.functions.items (S.clauses solver.old) (S.clauses solver.new)) }
    ensures constraints { OnOk result (All (λ a. IsMarked marks.new (unsigned_abs (literal_of table.now a))) constraints.now) }
    ensures bad { OnOk result (All (λ a. IsMarked marks.new (unsigned_abs (literal_of table.now a))) bad.now) }
    ensures limit { IfErr result (λ e. e ≡ Limit full → S.is_full solver.new) }
{
    let mut list = Vec::new(covers.allocator());
    want_all(marks, &mut list, table, constraints)?;
    want_all(marks, &mut list, table, bad)?;
    let mut next: usize = 0;
    'giving: while next < list.len() {
        give_one(solver, encoder, covers, marks, &mut list, next)?;
        next += 1;
    }
    Ok(())
}
