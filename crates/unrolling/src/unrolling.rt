//! The times of a circuit in a solver, one after the other.

ghost use Rattle.std.specs.Prelude.{◌≡◌, ℤ, List, ◌+◌, ◌<◌, ◌≤◌, [], false, true, length, map, replicate, set, All, IfOk, OnOk, IfErr, unsigned_abs};
ghost use Rattle.lrat.specs.Literals.{IsLiteral};
ghost use Rattle.cnf.specs.Clauses.{next_of};
ghost use Rattle.cnf.specs.Tables.{IsTableOf};
ghost use Rattle.unrolling.specs.Cones.{IsConeOf, latch_at};
ghost use Rattle.base.specs.Budget.{Spends};
ghost use Rattle.unrolling.specs.Merged.{IsReady};
ghost use Rattle.unrolling.specs.Encodings.{IsEncoding, IsExtended, told};
ghost use Rattle.unrolling.specs.Demands.{AreGiven, AreAdded};
ghost use Rattle.cones.specs.Marks.{IsMarked};
ghost use Rattle.unrolling.specs.Unrollings.{Leaves, IsTable, AreStates, later, constant_of, AreInitial, literal_at, literal_of};
ghost use Rattle.unrolling.specs.Times.{IsAt, HasRoom, leaves_of};
ghost use Rattle.engine.specs.declared.engine_error.EngineError.TheVariants.{Limit};
ghost use Rattle.solver.specs.Full.{full};

use crate::clauses::{add_one, positive};
use crate::cone::Cone;
use crate::demand::{CoverClauses, give};
use crate::encoder::Encoder;
use crate::frame::{add_units, encode_cells, entry, fill_inputs, fill_latches, literal};
use crate::sweeping::Sweeping;
use base::{Budget, Refused, filled, push};
use cnf::NextTable;
use engine::EngineError;
use graph::{Latch, Model};
use solver::{PartSat, Sat};
use std::alloc::Global;

/// What is known of the times that were encoded.
#[derive(Drop)]
pub struct Unrolling {
    pub encoder: Encoder,
    /// the literals of the latches at the first time, by their positions
    pub initial: Vec<i32>,
    /// for each time, how many variables come before those of its inputs
    pub firsts: Vec<u32>,
    /// the literals of the cone's latches at the next time
    pub state: Vec<i32>,
    /// the literals of the cone's variables at the time that was encoded last
    pub table: Vec<i32>,
    /// for each variable whether the solver has the clauses of what it depends on
    pub given: Vec<bool>,
    /// what the clauses of functions are made of
    pub covers: CoverClauses,
}

/// The constant that the latch is reset to, or what is false.
fn constant(latch: Latch) -> i32
    ensures { result ≡ constant_of latch }
{
    if latch.reset.0 == 1 { 1 } else { -1 }
}

/// The constants that the latches are reset to, and what is false for the others.
fn resets(alloc: Global, latches: &[Latch]) -> Result<Vec<i32>, Refused>
    ensures { IfOk result (λ initial. initial.items ≡ map constant_of latches.now) }
{
    let mut initial = Vec::new(alloc);
    for latch in latches {
        push(&mut initial, constant(*latch))?;
    }
    Ok(initial)
}

/// Gives a variable to each of the cone's latches that is reset to no constant: the k-th latch has
/// the variable k + 2.
fn open_latches(circuit: &Model, cone: &Cone, initial: &mut [i32])
    requires cone { IsConeOf circuit.now cone.now }
    requires constants { initial.old ≡ map constant_of circuit.now.latches }
    ensures { AreInitial circuit.now cone.now initial.new }
{
    circuit.well_formed();
    let latches = circuit.latches();
    for (index, position) in cone.latches.iter().enumerate() {
        if latches[*position as usize].reset.0 > 1 {
            initial[*position as usize] = positive(index as u32 + 2);
        }
    }
}

/// The literals of the latches at the first time.
fn initial_of(alloc: Global, circuit: &Model, cone: &Cone) -> Result<Vec<i32>, Refused>
    requires cone { IsConeOf circuit.now cone.now }
    ensures { IfOk result (λ initial. AreInitial circuit.now cone.now initial.items) }
{
    circuit.well_formed();
    let mut initial = resets(alloc, circuit.latches())?;
    open_latches(circuit, cone, &mut initial);
    Ok(initial)
}

/// The literals of the cone's latches at the first time, among those of all latches.
fn first_state(alloc: Global, cone: &Cone, initial: &[i32]) -> Result<Vec<i32>, Refused>
    requires { All (λ i. i < length initial.now) cone.now.latches.items }
    ensures { IfOk result (λ state. state.items ≡ map (literal_at initial.now) cone.now.latches.items) }
{
    let mut state = Vec::new(alloc);
    for position in &cone.latches {
        push(&mut state, entry(initial, *position))?;
    }
    Ok(state)
}

/// The literals of the cone's latches at the next time.
fn next_state(circuit: &Model, cone: &Cone, nexts: &NextTable, table: &[i32], state: &mut [i32])
    requires cone { IsConeOf circuit.now cone.now }
    requires nexts { IsTableOf circuit.now.latches nexts.now }
    requires whole { length table.now ≡ circuit.now.max_var + 1 }
    requires small { All (IsLiteral 2147483647) table.now }
    requires lengths { length state.old ≡ length cone.now.latches.items }
    ensures { state.new ≡ map (λ i. literal_of table.now (next_of circuit.now.latches (latch_at circuit.now.latches i).lit)) cone.now.latches.items }
{
    circuit.well_formed();
    let latches = circuit.latches();
    for (index, position) in cone.latches.iter().enumerate() {
        state[index] = literal(table, nexts.next_of(latches[*position as usize].lit));
    }
}

/// The variables that were given before the first time: the one that is true.
pub fn given_first(alloc: Global, places: usize) -> Result<Vec<bool>, Refused>
    requires some { 1 < places }
    requires few { places ≤ 2147483648 }
    ensures marks { IfOk result (λ given. given.items ≡ set (replicate places false) 1 true) }
    ensures len { IfOk result (λ given. length given.items ≡ places) }
{
    let mut given = filled(alloc, false, places)?;
    given[1] = true;
    Ok(given)
}

/// No time yet. The solver begins anew with room for `times` of them.
pub fn begin<S: Sat>(
    solver: &mut S,
    alloc: Global,
    circuit: &Model,
    cone: &Cone,
    times: u32,
) -> Result<Unrolling, EngineError>
    requires cone { IsConeOf circuit.now cone.now }
    requires few { times ≤ 256 }
    ensures at { IfOk result (λ u. IsAt circuit.now cone.now u (S.clauses solver.new)) }
    ensures none { IfOk result (λ u. u.firsts.items ≡ []) }
    ensures room { IfOk result (λ u. HasRoom cone.now times u (S.vars solver.new)) }
    ensures places { IfOk result (λ u. length u.given.items ≡ S.vars solver.new + 1) }
    ensures small { OnOk result (S.vars solver.new ≤ 2147483647) }
    ensures limit { IfErr result (λ e. e ≡ Limit full → S.is_full solver.new) }
{
    circuit.well_formed();
    let used = cone.latches.len() as u32 + 1;
    let each = cone.inputs.len() as u32 + cone.cells.len() as u32;
    let places = used + times * each;
    solver.reset(alloc, places)?;
    add_one(solver, alloc, 1)?;
    let initial = initial_of(alloc, circuit, cone)?;
    let state = first_state(alloc, cone, &initial)?;
    let table = filled(alloc, -1, circuit.max_var() as usize + 1)?;
    let encoder = Encoder::new(alloc, used);
    let given = given_first(alloc, places as usize + 1)?;
    Ok(Unrolling {
        encoder,
        initial,
        firsts: Vec::new(alloc),
        state,
        table,
        given,
        covers: CoverClauses::new(alloc),
    })
}

/// Makes the literals of one time.
fn encode_frame<S: PartSat>(
    circuit: &Model,
    cone: &Cone,
    encoder: &mut Encoder,
    sweeping: &mut Sweeping<S>,
    state: &[i32],
    table: &mut [i32],
    budget: &mut Budget,
) -> Result<(), Refused>
    requires cone { IsConeOf circuit.now cone.now }
    requires whole { length table.old ≡ circuit.now.max_var + 1 }
    requires literals { All (IsLiteral encoder.old.variables) table.old }
    requires lengths { length state.now ≡ length cone.now.latches.items }
    requires states { All (IsLiteral encoder.old.variables) state.now }
    requires encoding { IsEncoding encoder.old }
    requires room { encoder.old.variables + (length cone.now.inputs.items + length cone.now.cells.items) ≤ 2147483647 }
    requires ready { IsReady encoder.old sweeping.old.given.items (S.vars sweeping.old.solver) (S.clauses sweeping.old.solver) sweeping.old.representatives }
    ensures whole { length table.new ≡ length table.old }
    ensures literals { OnOk result (All (IsLiteral encoder.new.variables) table.new) }
    ensures few { OnOk result (encoder.new.variables ≤ encoder.old.variables + (length cone.now.inputs.items + length cone.now.cells.items)) }
    ensures spends { Spends budget.old budget.new }
    ensures ready { OnOk result (IsReady encoder.new sweeping.new.given.items (S.vars sweeping.new.solver) (S.clauses sweeping.new.solver) sweeping.new.representatives) }
    ensures encoding { OnOk result (IsEncoding encoder.new) }
    ensures extended { OnOk result (IsExtended (encoder.old.variables + length cone.now.inputs.items) encoder.old.functions.items encoder.new.variables encoder.new.functions.items) }
    ensures table { (s : Leaves) (cs : List (List ℤ)) → AreStates circuit.now cone.now s (told encoder.old cs) (length s.firsts) encoder.old.variables state.now →
        OnOk result (IsTable circuit.now cone.now (later s encoder.old.variables) (told encoder.new cs) (length s.firsts) encoder.new.variables
        (length cone.now.inputs.items) (length cone.now.latches.items) (length cone.now.cells.items) table.new) }
{
    circuit.well_formed();
    let first = encoder.variables;
    encoder.variables += cone.inputs.len() as u32;
    table[0] = -1;
    fill_inputs(circuit, cone, first, table);
    fill_latches(circuit, cone, state, table);
    encode_cells(circuit, cone, encoder, sweeping, table, budget)?;
    Ok(())
}

/// Gives the solver the constraints of one time, and what these and the bad literals depend on.
fn give_frame<S: Sat>(
    solver: &mut S,
    circuit: &Model,
    encoder: &Encoder,
    covers: &mut CoverClauses,
    table: &[i32],
    given: &mut [bool],
) -> Result<(), EngineError>
    requires whole { length table.now ≡ circuit.now.max_var + 1 }
    requires literals { All (IsLiteral encoder.now.variables) table.now }
    requires encoding { IsEncoding encoder.now }
    requires given { AreGiven encoder.now given.old (S.clauses solver.old) }
    requires places { length given.old ≡ S.vars solver.old + 1 }
    requires small { S.vars solver.old ≤ 2147483647 }
    ensures vars { S.vars solver.new ≡ S.vars solver.old }
    ensures marks { length given.new ≡ length given.old }
    ensures given { OnOk result (AreGiven encoder.now given.new (S.clauses solver.new)) }
    ensures bad { OnOk result (All (λ a. IsMarked given.new (unsigned_abs (literal_of table.now a))) circuit.now.bad) }
    ensures added { OnOk result (AreAdded circuit.now encoder.now table.now (S.clauses solver.old) (S.clauses solver.new)) }
    ensures limit { IfErr result (λ e. e ≡ Limit full → S.is_full solver.new) }
{
    circuit.well_formed();
    give(
        solver,
        encoder,
        covers,
        given,
        table,
        circuit.constraints(),
        circuit.bad(),
    )?;
    add_units(solver, covers.allocator(), table, circuit.constraints())?;
    Ok(())
}

impl Unrolling {
    /// The allocator of the literals.
    pub fn allocator(&self) -> Global {
        *self.firsts.allocator()
    }

    /// Makes the literals of the next time, and adds its constraints.
    pub fn encode<S: PartSat>(
        &mut self,
        solver: &mut S,
        circuit: &Model,
        cone: &Cone,
        nexts: &NextTable,
        sweeping: &mut Sweeping<S>,
        budget: &mut Budget,
    ) -> Result<(), EngineError>
        requires cone { IsConeOf circuit.now cone.now }
        requires nexts { IsTableOf circuit.now.latches nexts.now }
        requires at { IsAt circuit.now cone.now self.old (S.clauses solver.old) }
        requires room { HasRoom cone.now 1 self.old (S.vars solver.old) }
        requires places { length self.old.given.items ≡ S.vars solver.old + 1 }
        requires small { S.vars solver.old ≤ 2147483647 }
        requires ready { IsReady self.old.encoder sweeping.old.given.items (S.vars sweeping.old.solver) (S.clauses sweeping.old.solver) sweeping.old.representatives }
        ensures vars { S.vars solver.new ≡ S.vars solver.old }
        ensures spends { Spends budget.old budget.new }
        ensures ready { OnOk result (IsReady self.new.encoder sweeping.new.given.items (S.vars sweeping.new.solver) (S.clauses sweeping.new.solver) sweeping.new.representatives) }
        ensures at { OnOk result (IsAt circuit.now cone.now self.new (S.clauses solver.new)) }
        ensures bad { OnOk result (All (λ a. IsMarked self.new.given.items (unsigned_abs (literal_of self.new.table.items a))) circuit.now.bad) }
        ensures stands { OnOk result (IsTable circuit.now cone.now (leaves_of self.new) (told self.new.encoder (S.clauses solver.new)) (length self.old.firsts.items) self.new.encoder.variables
            (length cone.now.inputs.items) (length cone.now.latches.items) (length cone.now.cells.items) self.new.table.items) }
        ensures more { OnOk result (length self.new.firsts.items ≡ length self.old.firsts.items + 1) }
        ensures few { OnOk result (self.new.encoder.variables ≤ self.old.encoder.variables + (length cone.now.inputs.items + length cone.now.cells.items)) }
        ensures places { OnOk result (length self.new.given.items ≡ length self.old.given.items) }
        ensures limit { IfErr result (λ e. e ≡ Limit full → S.is_full solver.new) }
    {
        circuit.well_formed();
        push(&mut self.firsts, self.encoder.variables)?;
        encode_frame(
            circuit,
            cone,
            &mut self.encoder,
            sweeping,
            self.state.as_slice(),
            self.table.as_mut_slice(),
            budget,
        )?;
        give_frame(
            solver,
            circuit,
            &self.encoder,
            &mut self.covers,
            self.table.as_slice(),
            self.given.as_mut_slice(),
        )?;
        let table = self.table.as_slice();
        next_state(circuit, cone, nexts, table, self.state.as_mut_slice());
        Ok(())
    }
}
