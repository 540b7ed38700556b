//! A solver's questions about a reduced circuit.

ghost use Rattle.std.specs.Prelude.{◌≡◌, ◌+◌, All, IfOk, IfSome, OnOk};
ghost use Rattle.base.specs.Budget.{Spends};
ghost use Rattle.lrat.specs.Literals.{IsLiteral};

use crate::reduced::{Reduced, negated};
use crate::sweeping::sweep_pairs;
use crate::unit::unit;
use base::{Budget, Refused, Seq, push};
use cnf::shared_base;
use graph::{Lit, Model};
use latch_classes::Situation;
use lrat::Clause;
use solver::{Answer, PartSat, Sat, SatError};
use std::alloc::Global;
use sweep::Near;

/// How many steps a question may cost before signals are swept.
const SOON: u64 = 3_000;

/// Adds clauses.
fn add_clauses<S: Sat>(solver: &mut S, alloc: Global, clauses: &[Clause]) -> Result<(), SatError>
    requires { All (All (IsLiteral (S.vars solver.old))) clauses.now }
    ensures { S.vars solver.new ≡ S.vars solver.old }
{
    for clause in clauses {
        solver.add(alloc, clause.as_slice())?;
    }
    Ok(())
}

/// Begins anew with the circuit at one time.
fn load<S: Sat>(solver: &mut S, alloc: Global, circuit: &Model) -> Result<(), SatError>
    ensures { OnOk result (S.vars solver.new ≡ circuit.now.max_var + 1) }
{
    circuit.well_formed();
    let none: &[Seq<Lit>] = &[];
    let base = shared_base(alloc, circuit, none)?;
    solver.reset(alloc, circuit.max_var() + 1)?;
    add_clauses(solver, alloc, base.clauses.as_slice())
}

/// The value of a literal.
fn value_of(values: &[bool], lit: Lit) -> bool {
    match values.get(lit.variable() as usize) {
        Some(value) => *value != lit.is_negated(),
        None => false,
    }
}

/// Part of a reduced circuit that a solver has loaded.
#[derive(Drop)]
pub(crate) struct Loaded {
    pub reduced: Reduced,
    /// the gates that questions are about
    model: Model,
    near: Near,
    /// whether its signals are swept
    is_swept: bool,
}

impl Loaded {
    /// Loads the gates of which these literals and the constraints of the circuit are made. None where they are no circuit.
    pub(crate) fn new<S: PartSat>(
        solver: &mut S,
        alloc: Global,
        circuit: &Model,
        reduced: Reduced,
        lits: &[Lit],
    ) -> Result<Option<Loaded>, SatError>
        ensures { IfOk result (λ r. IfSome r (λ l. S.vars solver.new ≡ l.model.max_var + 1)) }
    {
        let Some(model) = reduced.part(alloc, circuit, lits)? else {
            return Ok(None);
        };
        load(solver, alloc, &model)?;
        let near = Near::new(alloc, &model)?;
        Ok(Some(Loaded {
            reduced,
            model,
            near,
            is_swept: false,
        }))
    }

    /// What the solver says of the units by the gates that they are made of: with few steps, and where these are not enough behind a
    /// sweep.
    fn answer<S: PartSat>(
        &mut self,
        solver: &mut S,
        alloc: Global,
        units: &[i32],
        budget: &mut Budget,
    ) -> Result<Answer, SatError>
        requires vars { S.vars solver.old ≡ self.old.model.max_var + 1 }
        requires units { All (IsLiteral (S.vars solver.old)) units.now }
        ensures model { self.new.model ≡ self.old.model }
        ensures vars { S.vars solver.new ≡ S.vars solver.old }
        ensures spends { Spends budget.old budget.new }
    {
        let part = self.near.part_of(alloc, &self.model, units)?;
        if !self.is_swept {
            let mut piece = Budget::new(budget.left().min(SOON));
            let answer = solver.solve_part(alloc, &part, units, &mut piece)?;
            budget.spend(piece.spent());
            match answer {
                Answer::Spent => {}
                answer => return Ok(answer),
            }
            self.is_swept = true;
            sweep_pairs(solver, alloc, &self.model, budget)?;
        }
        solver.solve_part(alloc, &part, units, budget)
    }

    /// Whether the literal can be true where the other one is false, and how.
    pub(crate) fn differing<S: PartSat>(
        &mut self,
        solver: &mut S,
        alloc: Global,
        high: Lit,
        low: Lit,
        budget: &mut Budget,
    ) -> Result<Answer, SatError>
        requires vars { S.vars solver.old ≡ self.old.model.max_var + 1 }
        ensures model { self.new.model ≡ self.old.model }
        ensures vars { S.vars solver.new ≡ S.vars solver.old }
        ensures spends { Spends budget.old budget.new }
    {
        self.model.well_formed();
        let truth = self.model.max_var() + 1;
        let mut units = Vec::new(alloc);
        push(&mut units, unit(truth, negated(low)))?;
        push(&mut units, unit(truth, high))?;
        self.answer(solver, alloc, units.as_slice(), budget)
    }

    /// The value of a literal of the circuit, as it is read.
    fn read_value(&self, values: &[bool], lit: Lit) -> bool {
        value_of(values, self.reduced.first(lit))
    }

    /// The values of the latches, as they are read.
    fn state(&self, alloc: Global, circuit: &Model, values: &[bool]) -> Result<Vec<bool>, Refused> {
        let mut state = Vec::new(alloc);
        for latch in circuit.latches() {
            push(&mut state, self.read_value(values, latch.lit))?;
        }
        Ok(state)
    }

    /// The circuit's state and inputs by the values of a reduced one.
    pub(crate) fn situation(
        &self,
        alloc: Global,
        circuit: &Model,
        values: &[bool],
    ) -> Result<Situation, Refused> {
        let state = self.state(alloc, circuit, values)?;
        let mut inputs = Vec::new(alloc);
        for input in circuit.inputs() {
            push(&mut inputs, value_of(values, *input))?;
        }
        Ok(Situation { state, inputs })
    }
}
