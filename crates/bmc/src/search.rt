//! The search through one number of steps after the other.

ghost use Rattle.std.specs.Prelude.{◌≡◌, ◌+◌, ◌≤◌, length, IfOk, None, IfErr};
ghost use Rattle.base.specs.Budget.{Spends, Steps};
ghost use Rattle.cnf.specs.Tables.{IsTableOf};
ghost use Rattle.engine.specs.Findings.{IsForBad, IsSo};
ghost use Rattle.unrolling.specs.Cones.{IsConeOf};
ghost use Rattle.bmc.specs.Depths.{EndsAt, IsFoundBy, IsOfSteps, IsShortest, IsWithinDepth};
ghost use Rattle.unrolling.specs.Merged.{IsReady};
ghost use Rattle.unrolling.specs.Times.{IsAt, HasRoom};
ghost use Rattle.bmc.specs.Times.{IsBadAnswer, IsBadModel};
ghost use Rattle.engine.specs.declared.engine_error.EngineError.TheVariants.{Limit};
ghost use Rattle.solver.specs.Full.{full};

use crate::reading::{lines, state_of};
use base::{Budget, Refused};
use cnf::NextTable;
use engine::{Counters, Engine, EngineError, Finding, Progress, Reason, Silent};
use graph::Model;
use solver::{Answer, PartSat, Sat, count};
use std::alloc::Global;
use unrolling::{Cone, Sweeping, Unrolling, begin, cone_of, literal};

/// The solver that has the times, and the one that shows which of their functions are equal.
#[derive(Drop)]
pub struct Solvers<S> {
    pub times: S,
    pub sweeping: Sweeping<S>,
}

/// Bounded search (Biere, Cimatti, Clarke, Zhu 1999) through runs of 0 steps, 1 step, up to a
/// depth, by any solver. A contract sees the depth and the solver.
#[derive(Drop)]
pub struct Bmc<S, P> {
    solvers: Solvers<S>,
    depth: u32,
    /// where each search reports its progress
    progress: P,
    /// how many queries were asked
    queries: u64,
}

impl<S, P> std::marker::Model for Bmc<S, P> {
    ghost use Rattle.std.specs.Prelude.{◌≤◌};
    ghost use Rattle.bmc.specs.Depths.{Bounded};

    ghost Value = { Bounded S };

    ghost view = { λ b. record { depth = b.depth; solver = b.solvers.times } };

    ghost invariant = { λ b. b.depth ≤ 255 };
}

/// The run that a model is.
fn run_of(
    alloc: Global,
    circuit: &Model,
    cone: &Cone,
    unrolling: &Unrolling,
    values: &[bool],
    steps: u32,
) -> Result<Finding, Refused>
    requires for_bad { IsForBad circuit.now }
    requires cone { IsConeOf circuit.now cone.now }
    requires model { IsBadModel circuit.now cone.now unrolling.now steps values.now }
    ensures { (after : Steps) → IfOk result (EndsAt circuit.now steps after) }
{
    circuit.well_formed();
    circuit.order();
    let initial = state_of(alloc, values, unrolling.initial.as_slice())?;
    let inputs = lines(alloc, circuit, cone, values, unrolling.firsts.as_slice())?;
    Ok(Finding::Run { initial, inputs })
}

/// What the solver's answer says of the runs of this number of steps: a model is one that sets the bad literal at its last time, and by
/// a core there is none.
fn found_by(
    alloc: Global,
    circuit: &Model,
    cone: &Cone,
    unrolling: &Unrolling,
    answer: Answer,
    steps: u32,
) -> Result<Option<Finding>, Refused>
    requires for_bad { IsForBad circuit.now }
    requires cone { IsConeOf circuit.now cone.now }
    requires model { IsBadAnswer circuit.now cone.now unrolling.now steps answer }
    ensures { IfOk result (IsFoundBy circuit.now steps answer) }
{
    match answer {
        Answer::Model(values) => {
            let run = run_of(alloc, circuit, cone, unrolling, values.as_slice(), steps)?;
            Ok(Some(run))
        }
        Answer::Core(_) => Ok(None),
        Answer::Spent => Ok(Some(Finding::Unknown(Reason::Budget))),
    }
}

/// Looks for a run of one step more that sets the bad literal at its last time.
fn reach<S: PartSat>(
    solvers: &mut Solvers<S>,
    circuit: &Model,
    cone: &Cone,
    nexts: &NextTable,
    unrolling: &mut Unrolling,
    steps: u32,
    budget: &mut Budget,
) -> Result<Option<Finding>, EngineError>
    requires for_bad { IsForBad circuit.now }
    requires cone { IsConeOf circuit.now cone.now }
    requires nexts { IsTableOf circuit.now.latches nexts.now }
    requires at { IsAt circuit.now cone.now unrolling.old (S.clauses solvers.old.times) }
    requires times { length unrolling.old.firsts.items ≡ steps }
    requires room { HasRoom cone.now 1 unrolling.old (S.vars solvers.old.times) }
    requires places { length unrolling.old.given.items ≡ S.vars solvers.old.times + 1 }
    requires small { S.vars solvers.old.times ≤ 2147483647 }
    requires ready { IsReady unrolling.old.encoder solvers.old.sweeping.given.items (S.vars solvers.old.sweeping.solver) (S.clauses solvers.old.sweeping.solver) solvers.old.sweeping.representatives }
    ensures vars { S.vars solvers.new.times ≡ S.vars solvers.old.times }
    ensures spends { Spends budget.old budget.new }
    ensures at { IfOk result (λ found. found ≡ None → IsAt circuit.now cone.now unrolling.new (S.clauses solvers.new.times)) }
    ensures ready { IfOk result (λ found. found ≡ None →
        IsReady unrolling.new.encoder solvers.new.sweeping.given.items (S.vars solvers.new.sweeping.solver) (S.clauses solvers.new.sweeping.solver) solvers.new.sweeping.representatives) }
    ensures times { IfOk result (λ found. found ≡ None → length unrolling.new.firsts.items ≡ steps + 1) }
    ensures places { IfOk result (λ found. found ≡ None → length unrolling.new.given.items ≡ length unrolling.old.given.items) }
    ensures few { IfOk result (λ found. found ≡ None →
        unrolling.new.encoder.variables ≤ unrolling.old.encoder.variables + (length cone.now.inputs.items + length cone.now.cells.items)) }
    ensures lawful { IfOk result (IsOfSteps circuit.now steps budget.new) }
    ensures limit { IfErr result (λ e. e ≡ Limit full → S.is_full solvers.new.times) }
{
    if !budget.tick() {
        return Ok(Some(Finding::Unknown(Reason::Budget)));
    }
    circuit.well_formed();
    let alloc = unrolling.allocator();
    let times = &mut solvers.times;
    unrolling.encode(times, circuit, cone, nexts, &mut solvers.sweeping, budget)?;
    let bad = literal(unrolling.table.as_slice(), circuit.bad()[0]);
    let answer = solvers.times.solve(alloc, &[bad], budget)?;
    Ok(found_by(alloc, circuit, cone, unrolling, answer, steps)?)
}

/// Looks through runs of 0 steps, 1 step, up to `depth` steps, and counts the queries.
fn search_up_to<S: PartSat, P: Progress>(
    solvers: &mut Solvers<S>,
    alloc: Global,
    circuit: &Model,
    depth: u32,
    progress: &mut P,
    queries: &mut u64,
    budget: &mut Budget,
) -> Result<Finding, EngineError>
    requires small { depth ≤ 255 }
    requires for_bad { IsForBad circuit.now }
    ensures spends { Spends budget.old budget.new }
    ensures so { IfOk result (IsSo circuit.now budget.new) }
    ensures shortest { IfOk result (IsShortest circuit.now) }
    ensures depth { IfOk result (IsWithinDepth depth) }
    ensures limit { IfErr result (λ e. e ≡ Limit full → S.is_full solvers.new.times) }
{
    circuit.well_formed();
    let nexts = NextTable::new(alloc, circuit)?;
    let cone = cone_of(alloc, circuit, &nexts)?;
    let mut unrolling = begin(&mut solvers.times, alloc, circuit, &cone, depth + 1)?;
    solvers.sweeping.begin(budget)?;
    'deepening: for steps in 0..depth + 1 {
        progress.depth_begun(steps, unrolling.encoder.variables, budget);
        count(queries);
        match reach(
            solvers,
            circuit,
            &cone,
            &nexts,
            &mut unrolling,
            steps,
            budget,
        )? {
            Some(finding) => return Ok(finding),
            None => {}
        }
    }
    Ok(Finding::Unknown(Reason::Depth(depth)))
}

impl<S: PartSat> Bmc<S, Silent> {
    /// A search of up to `depth` steps, at most 255, by a solver that has the times; the other one is asked which functions are equal.
    pub fn new(alloc: Global, solver: S, questions: S, depth: u32) -> Bmc<S, Silent>
        requires { depth ≤ 255 }
        ensures { result ≡ record { depth = depth; solver = solver } }
    {
        Bmc {
            solvers: Solvers {
                times: solver,
                sweeping: Sweeping::new(alloc, questions),
            },
            depth,
            progress: Silent,
            queries: 0,
        }
    }

    /// The same search, of which this is told: each number of steps with which it begins.
    pub fn with_progress<P: Progress>(self, progress: P) -> Bmc<S, P>
        ensures { result ≡ self }
    {
        Bmc {
            solvers: self.solvers,
            depth: self.depth,
            progress,
            queries: self.queries,
        }
    }
}

impl<S: PartSat, P: Progress> Engine for Bmc<S, P> {
    ghost honest = { λ _. Unit {0} };

    ghost answers = { λ b m _ r after. IfOk r (IsSo m after) × IfOk r (IsShortest m) × IfOk r (IsWithinDepth b.depth) };

    /// Looks for the shortest run that sets the bad literal. Each number of steps costs a step of
    /// the budget, and what the solver spends. It is over the limit only where all ids of the solver are
    /// taken then.
    fn find(
        &mut self,
        alloc: Global,
        circuit: &Model,
        budget: &mut Budget,
    ) -> Result<Finding, EngineError>
        requires { IsForBad circuit.now }
        ensures depth_stays { self.new.depth ≡ self.old.depth }
        ensures spends { Spends budget.old budget.new }
        ensures so { IfOk result (IsSo circuit.now budget.new) }
        ensures shortest { IfOk result (IsShortest circuit.now) }
        ensures depth { IfOk result (IsWithinDepth self.old.depth) }
        ensures limit { IfErr result (λ e. e ≡ Limit full → S.is_full self.new.solver) }
    {
        search_up_to(
            &mut self.solvers,
            alloc,
            circuit,
            self.depth,
            &mut self.progress,
            &mut self.queries,
            budget,
        )
    }

    fn count(&self, counters: &mut Counters) -> Result<(), Refused> {
        let sweeping = &self.solvers.sweeping;
        counters.add("bmc", "queries", self.queries)?;
        counters.add("bmc", "merged", sweeping.representatives.count())?;
        counters.add_statistics("bmc", &self.solvers.times.statistics())?;
        counters.add_statistics("bmc", &sweeping.solver.statistics())
    }
}
