//! Rounds of induction.

ghost use Rattle.std.specs.Prelude.{◌≡◌, ◌<◌, ◌≤◌, ◌+◌, ◌++◌, [], true, All, Contains, IfOk, IfSome, IsTrue, OnOk, None, Some, length, slice_index_or};
ghost use Rattle.base.specs.Budget.{Spends};
ghost use Rattle.graph.specs.WellFormed.{used};
ghost use Rattle.lrat.specs.Literals.{IsLiteral};
ghost use Rattle.lrat.specs.Shared.{unit_clauses};
ghost use Rattle.cnf.specs.Clauses.{bad_units, shared_clauses, step_clauses, step_units as step_units_of};
ghost use Rattle.cnf.specs.Formulas.{bad_literal};
ghost use Rattle.cnf.specs.Invariants.{AreContradictory, IsInvariant};
ghost use Rattle.cnf.specs.Tables.{IsTableOf};
ghost use Rattle.graph.specs.declared.parts.Parts.{Parts};
ghost use Rattle.engine.specs.Findings.{IsForBad};
ghost use Rattle.merged.specs.Laws.{AreInductive};
ghost use Rattle.correspondence.specs.Equal.{IsEquality};
ghost use Rattle.correspondence.specs.declared.rounds.Reply.TheVariants.{Holds, Spent};
ghost use Rattle.correspondence.specs.Found.{IsCorrespondence};
ghost use Rattle.correspondence.specs.Rounds.{IsCoreOf, IsRound};

use crate::equal_latches::Correspondence;
use crate::equalities::{Equalities, Member};
use crate::sweeping::sweep_pairs;
use base::{Budget, Refused, Seq, push};
use cnf::{NextTable, bad_unit, shared_base, step_units};
use engine::Progress;
use graph::{Lit, MOST_VARIABLES, Model};
use latch_classes::{Search, Situation};
use lrat::Clause;
use solver::{Answer, Part, PartSat, Sat, SatError};
use std::alloc::Global;
use sweep::{Near, ask};

/// The greatest number of clauses of an invariant.
const GREATEST: usize = MOST_VARIABLES as usize;

/// How many steps a question may cost before signals are swept.
const SOON: u64 = 300_000;

/// How many where half of the latches may be equal to others, as where two circuits are compared.
const SOONER: u64 = 30_000;

/// How many where signals were swept in an earlier round.
const AGAIN: u64 = 3_000;

/// What a question about the bad literal is about.
const NO_MEMBER: Member = Member { place: 0, class: 0 };

/// What a round says of the classes.
#[derive(Drop)]
pub(crate) enum Round {
    /// Latches that are equal stay equal.
    Fixed(Correspondence),
    /// A class was split.
    Split,
    /// The classes don't exclude the bad literal, so no later ones do. Nothing else was asked.
    Open,
    /// There are too many clauses, or the budget is exhausted.
    Over,
}

/// What is found of a clause after a step.
#[derive(Clone, Copy)]
enum Reply {
    /// It holds.
    Holds,
    /// Its class was split.
    Split,
    /// The budget is exhausted.
    Spent,
}

/// Clauses that are inductive, and whether they exclude the bad literal.
fn found(clauses: Seq<Seq<Lit>>, excluded: bool) -> Correspondence
    ensures { (m : Parts) → AreInductive m clauses → (IsTrue excluded → IsInvariant m clauses) → IsCorrespondence m result }
{
    if excluded {
        Correspondence::Invariant(clauses)
    } else {
        Correspondence::Inductive(clauses)
    }
}

/// Whether a clause holds after a step: what it is about, the units of its step case, and the gates that say what they are.
#[derive(Drop)]
struct Question {
    member: Member,
    units: Vec<i32>,
    part: Part,
}

/// Rounds of induction over classes of a circuit's latches.
#[derive(Drop)]
pub(crate) struct Induction<'a> {
    /// the classes, and the means to split them
    pub search: Search<'a>,
    /// whether signals are swept in this round
    is_swept: bool,
    /// how many steps a question may cost before they are
    soon: u64,
    /// how many rounds there were
    pub count: u64,
}

/// Adds clauses.
fn add_clauses<S: Sat>(solver: &mut S, alloc: Global, clauses: &[Clause]) -> Result<(), SatError>
    requires { All (All (IsLiteral (S.vars solver.old))) clauses.now }
    ensures vars { S.vars solver.new ≡ S.vars solver.old }
    ensures clauses { OnOk result (S.clauses solver.new ≡ S.clauses solver.old ++ clauses.now) }
{
    for clause in clauses {
        solver.add(alloc, clause.as_slice())?;
    }
    Ok(())
}

/// Begins anew with the circuit at one time, and the clauses.
fn load<S: Sat>(
    solver: &mut S,
    alloc: Global,
    circuit: &Model,
    clauses: &[Seq<Lit>],
) -> Result<(), SatError>
    requires all { All (IsEquality circuit.now) clauses.now }
    requires few { length clauses.now ≤ 4194303 }
    ensures vars { OnOk result (S.vars solver.new ≡ circuit.now.max_var + 1) }
    ensures clauses { OnOk result (S.clauses solver.new ≡ shared_clauses circuit.now clauses.now) }
{
    circuit.well_formed();
    let base = shared_base(alloc, circuit, clauses)?;
    solver.reset(alloc, circuit.max_var() + 1)?;
    add_clauses(solver, alloc, base.clauses.as_slice())
}

/// How many of the clauses have two literals.
fn count_of_pairs(clauses: &[Seq<Lit>]) -> usize {
    let mut count = 0_usize;
    for clause in clauses {
        if clause.len() == 2 {
            count = count.saturating_add(1);
        }
    }
    count
}

/// How many steps a question may cost before signals are swept, where these clauses say which latches are equal.
fn soon_of(circuit: &Model, clauses: &[Seq<Lit>]) -> u64 {
    if count_of_pairs(clauses) >= circuit.latches().len() / 2 {
        SOONER
    } else {
        SOON
    }
}

/// The value of a literal's variable.
fn value_of(values: &[bool], lit: Lit) -> bool {
    match values.get(lit.variable() as usize) {
        Some(value) => *value,
        None => false,
    }
}

/// The state and the inputs of a model.
fn situation_of(alloc: Global, circuit: &Model, values: &[bool]) -> Result<Situation, Refused> {
    let mut state = Vec::new(alloc);
    for latch in circuit.latches() {
        push(&mut state, value_of(values, latch.lit))?;
    }
    let mut inputs = Vec::new(alloc);
    for input in circuit.inputs() {
        push(&mut inputs, value_of(values, *input))?;
    }
    Ok(Situation { state, inputs })
}

impl<'a> Induction<'a> {
    /// No round yet.
    pub(crate) fn new(search: Search<'a>) -> Induction<'a> {
        Induction {
            search,
            is_swept: false,
            soon: u64::MAX,
            count: 0,
        }
    }

    /// Whether the latch is still in its class.
    fn is_still(&self, member: Member) -> bool {
        self.search.classes.class_of(member.place) == Some(member.class)
    }

    /// What the clause at a place is about, where its latch is still in its class.
    fn member_at(&self, equalities: &Equalities, place: usize) -> Option<Member> {
        match equalities.members.get(place) {
            Some(member) => {
                if self.is_still(*member) {
                    Some(*member)
                } else {
                    None
                }
            }
            None => None,
        }
    }

    /// Splits the classes by a model in which the latch comes to differ from its class.
    fn split_by(
        &mut self,
        alloc: Global,
        circuit: &Model,
        member: Member,
        values: &[bool],
        budget: &mut Budget,
    ) -> Result<(), Refused>
        ensures { Spends budget.old budget.new }
    {
        let situation = situation_of(alloc, circuit, values)?;
        self.search.chase(alloc, situation, budget)?;
        if self.is_still(member) {
            self.search.classes.part(member.place)?;
        }
        Ok(())
    }

    /// Has the solver learn which signals are equal.
    fn sweep<S: PartSat>(
        &mut self,
        solver: &mut S,
        alloc: Global,
        circuit: &Model,
        equalities: &Equalities,
        budget: &mut Budget,
    ) -> Result<(), SatError>
        requires { S.vars solver.old ≡ circuit.now.max_var + 1 }
        ensures vars { S.vars solver.new ≡ S.vars solver.old }
        ensures clauses { S.clauses solver.new ≡ S.clauses solver.old }
        ensures spends { Spends budget.old budget.new }
    {
        self.is_swept = true;
        self.soon = AGAIN;
        sweep_pairs(
            solver,
            alloc,
            circuit,
            equalities.clauses.as_slice(),
            budget,
        )
    }

    /// What the solver says of the units: with few steps, and where these are not enough behind a sweep.
    fn answer<S: PartSat>(
        &mut self,
        solver: &mut S,
        alloc: Global,
        circuit: &Model,
        equalities: &Equalities,
        question: &Question,
        budget: &mut Budget,
    ) -> Result<Answer, SatError>
        requires vars { S.vars solver.old ≡ circuit.now.max_var + 1 }
        requires units { All (IsLiteral (circuit.now.max_var + 1)) question.now.units.items }
        ensures vars { S.vars solver.new ≡ S.vars solver.old }
        ensures clauses { S.clauses solver.new ≡ S.clauses solver.old }
        ensures spends { Spends budget.old budget.new }
        ensures core { IfOk result (IsCoreOf (S.clauses solver.old) question.now.units.items budget.new) }
    {
        let (part, units) = (&question.part, question.units.as_slice());
        if !self.is_swept {
            let mut piece = Budget::new(budget.left().min(self.soon));
            let answer = ask(solver, alloc, part, units, &mut piece)?;
            budget.spend(piece.spent());
            match answer {
                Answer::Spent => {}
                answer => return Ok(answer),
            }
            self.sweep(solver, alloc, circuit, equalities, budget)?;
        }
        ask(solver, alloc, part, units, budget)
    }

    /// Asks whether a clause holds after a step from the states that satisfy all of them, and splits the classes where
    /// it does not.
    fn ask_step<S: PartSat>(
        &mut self,
        solver: &mut S,
        alloc: Global,
        circuit: &Model,
        equalities: &Equalities,
        question: &Question,
        budget: &mut Budget,
    ) -> Result<Reply, SatError>
        requires vars { S.vars solver.old ≡ circuit.now.max_var + 1 }
        requires units { All (IsLiteral (circuit.now.max_var + 1)) question.now.units.items }
        ensures vars { S.vars solver.new ≡ S.vars solver.old }
        ensures clauses { S.clauses solver.new ≡ S.clauses solver.old }
        ensures spends { Spends budget.old budget.new }
        ensures holds { IfOk result (λ r. r ≡ Holds → AreContradictory (S.clauses solver.old ++ unit_clauses question.now.units.items)) }
        ensures spent { IfOk result (λ r. r ≡ Spent → budget.new.left ≡ 0) }
    {
        match self.answer(solver, alloc, circuit, equalities, question, budget)? {
            Answer::Core(_) => Ok(Reply::Holds),
            Answer::Model(values) => {
                self.split_by(alloc, circuit, question.member, values.as_slice(), budget)?;
                Ok(Reply::Split)
            }
            Answer::Spent => Ok(Reply::Spent),
        }
    }

    /// The question about the clause at a place, where its latch is still in its class.
    fn question(
        &self,
        alloc: Global,
        circuit: &Model,
        table: &NextTable,
        near: &mut Near,
        equalities: &Equalities,
        place: usize,
    ) -> Result<Option<Question>, Refused>
        requires table { IsTableOf circuit.now.latches table.now }
        requires all { All (IsEquality circuit.now) equalities.now.clauses }
        ensures { IfOk result (λ r. IfSome r (λ q. (q.units.items ≡ step_units_of circuit.now (slice_index_or equalities.now.clauses place [])) × All (IsLiteral (circuit.now.max_var + 1)) q.units.items × (place < length equalities.now.clauses))) }
    {
        let Some(member) = self.member_at(equalities, place) else {
            return Ok(None);
        };
        let clauses = equalities.clauses.as_slice();
        if place >= clauses.len() {
            return Ok(None);
        }
        let units = step_units(alloc, circuit, table, clauses[place].as_slice())?;
        let part = near.part_of(alloc, circuit, units.as_slice())?;
        Ok(Some(Question {
            member,
            units,
            part,
        }))
    }

    /// Asks so of each clause whose latch is still in its class. Answers whether each holds, where the budget is not exhausted
    /// before.
    fn ask_steps<S: PartSat>(
        &mut self,
        solver: &mut S,
        alloc: Global,
        circuit: &Model,
        equalities: &Equalities,
        budget: &mut Budget,
    ) -> Result<Option<bool>, SatError>
        requires vars { S.vars solver.old ≡ circuit.now.max_var + 1 }
        requires all { All (IsEquality circuit.now) equalities.now.clauses }
        requires loaded { S.clauses solver.old ≡ shared_clauses circuit.now equalities.now.clauses }
        ensures spends { Spends budget.old budget.new }
        ensures hold { IfOk result (λ r. r ≡ Some true → All (λ c. AreContradictory (step_clauses circuit.now equalities.now.clauses c)) equalities.now.clauses) }
        ensures none { IfOk result (λ r. r ≡ None → budget.new.left ≡ 0) }
    {
        let table = NextTable::new(alloc, circuit)?;
        let mut near = Near::new(alloc, circuit)?;
        let mut all_hold = true;
        'asking: for place in 0..equalities.clauses.len() {
            let question = self.question(alloc, circuit, &table, &mut near, equalities, place)?;
            let reply = match question {
                Some(question) => {
                    self.ask_step(solver, alloc, circuit, equalities, &question, budget)?
                }
                None => Reply::Split,
            };
            match reply {
                Reply::Holds => {}
                Reply::Split => all_hold = false,
                Reply::Spent => return Ok(None),
            }
        }
        Ok(Some(all_hold))
    }
}

impl<'a> Induction<'a> {
    /// Whether the clauses, which are loaded, exclude the bad literal. No where earlier ones did not.
    fn excludes<S: PartSat>(
        &mut self,
        solver: &mut S,
        circuit: &Model,
        bad: Lit,
        is_open: bool,
        equalities: &Equalities,
        budget: &mut Budget,
    ) -> Result<bool, SatError>
        requires vars { S.vars solver.old ≡ circuit.now.max_var + 1 }
        requires bad { Contains (used circuit.now) bad }
        ensures vars { S.vars solver.new ≡ S.vars solver.old }
        ensures clauses { S.clauses solver.new ≡ S.clauses solver.old }
        ensures spends { Spends budget.old budget.new }
        ensures excluded { IfOk result (λ yes. IsTrue yes → AreContradictory (S.clauses solver.old ++ unit_clauses (bad_units circuit.now bad))) }
    {
        if is_open {
            return Ok(false);
        }
        let alloc = equalities.allocator();
        let mut units = Vec::new(alloc);
        push(&mut units, bad_unit(circuit, bad))?;
        let part = Near::new(alloc, circuit)?.part_of(alloc, circuit, units.as_slice())?;
        let question = Question {
            member: NO_MEMBER,
            units,
            part,
        };
        match self.answer(solver, alloc, circuit, equalities, &question, budget)? {
            Answer::Core(_) => Ok(true),
            _ => Ok(false),
        }
    }

    /// Asks whether the classes, whose clauses are loaded, exclude the bad literal, and whether equal latches stay equal.
    /// Ends where they first don't exclude it.
    fn ask_all<S: PartSat>(
        &mut self,
        solver: &mut S,
        circuit: &Model,
        bad: Lit,
        is_open: bool,
        equalities: Equalities,
        budget: &mut Budget,
    ) -> Result<Round, SatError>
        requires for_bad { IsForBad circuit.now }
        requires bad { bad ≡ bad_literal circuit.now 0 }
        requires vars { S.vars solver.old ≡ circuit.now.max_var + 1 }
        requires all { All (IsEquality circuit.now) equalities.clauses }
        requires loaded { S.clauses solver.old ≡ shared_clauses circuit.now equalities.clauses }
        ensures spends { Spends budget.old budget.new }
        ensures fixed { IfOk result (IsRound circuit.now is_open budget.new) }
    {
        let excluded = self.excludes(solver, circuit, bad, is_open, &equalities, budget)?;
        if !excluded && !is_open {
            return Ok(Round::Open);
        }
        let alloc = equalities.allocator();
        match self.ask_steps(solver, alloc, circuit, &equalities, budget)? {
            Some(true) => Ok(Round::Fixed(found(equalities.clauses, excluded))),
            Some(false) => Ok(Round::Split),
            None => Ok(Round::Over),
        }
    }

    /// One round: asks whether the classes exclude the bad literal, unless earlier ones did not, and whether equal latches stay equal.
    pub(crate) fn round<S: PartSat, P: Progress>(
        &mut self,
        solver: &mut S,
        alloc: Global,
        circuit: &Model,
        is_open: bool,
        progress: &mut P,
        budget: &mut Budget,
    ) -> Result<Round, SatError>
        requires { IsForBad circuit.now }
        ensures spends { Spends budget.old budget.new }
        ensures fixed { IfOk result (IsRound circuit.now is_open budget.new) }
    {
        let bad = circuit.bad()[0];
        let equalities = Equalities::of(alloc, circuit, &self.search.classes)?;
        if equalities.clauses.len() > GREATEST {
            return Ok(Round::Over);
        }
        self.count = self.count.saturating_add(1);
        progress.round_begun(self.count, equalities.clauses.len(), budget);
        load(solver, alloc, circuit, equalities.clauses.as_slice())?;
        self.is_swept = false;
        self.soon = self
            .soon
            .min(soon_of(circuit, equalities.clauses.as_slice()));
        self.ask_all(solver, circuit, bad, is_open, equalities, budget)
    }
}
