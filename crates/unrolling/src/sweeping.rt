//! SAT sweeping while times are encoded (Kuehlmann and Krohm 1997): variables that are equal by their functions, as a solver shows it
//! that has these alone.

ghost use Rattle.std.specs.Prelude.{◌≡◌, ◌≢◌, ℕ, ◌+◌, ◌<◌, ◌≤◌, [], ◌∷◌, ◌++◌, true, All, IfOk, OnOk, length, neg_ℤ};
ghost use Rattle.base.specs.Budget.{Spends};
ghost use Rattle.lrat.specs.Literals.{IsLiteral};
ghost use Rattle.solver.specs.Answers.{IsRefuted};
ghost use Rattle.unrolling.specs.Encodings.{IsEncoding};
ghost use Rattle.unrolling.specs.declared.encoder.Encoder.{Encoder};
ghost use Rattle.unrolling.specs.Merged.{AreAsked, AreEqualBy, AreEqualIn, AreMerged, IsReady};

use crate::clauses::{add_one, negated, positive};
use crate::demand::{CoverClauses, give};
use crate::encoder::Encoder;
use crate::representatives::Representatives;
use crate::unrolling::given_first;
use base::{Budget, Refused};
use engine::EngineError;
use graph::Lit;
use solver::{Answer, Part, PartSat, Sat};
use std::alloc::Global;

/// How many steps a question takes at most.
const STEPS: u64 = 500;

/// For how many variables the solver begins with room at least.
const FIRST_PLACES: u32 = 10_000;

/// Which variables are equal by their functions, and a solver that is asked.
#[derive(Drop)]
pub struct Sweeping<S> {
    /// has the clauses of functions alone
    pub solver: S,
    /// for each variable whether the solver has the clauses of what it depends on; too few where it has to begin
    pub given: Vec<bool>,
    /// for each variable an earlier literal that equals it
    pub representatives: Representatives,
    covers: CoverClauses,
}

/// Whether nothing satisfies the clauses and these literals, as far as few steps and the clauses near them tell.
fn is_refuted<S: PartSat>(
    solver: &mut S,
    alloc: Global,
    representatives: &mut Representatives,
    part: &Part,
    literals: &[i32],
    limit: u64,
) -> Result<bool, EngineError>
    requires { All (IsLiteral (S.vars solver.old)) literals.now }
    ensures vars { S.vars solver.new ≡ S.vars solver.old }
    ensures clauses { S.clauses solver.new ≡ S.clauses solver.old }
    ensures same { representatives.new ≡ representatives.old }
    ensures refuted { IfOk result (λ b. b ≡ true → IsRefuted (S.clauses solver.old) literals.now) }
{
    let mut budget = Budget::new(STEPS.min(limit));
    let answer = solver.solve_part(alloc, part, literals, &mut budget);
    representatives.charge(budget.spent());
    match answer? {
        Answer::Core(_) => Ok(true),
        Answer::Model(values) => {
            representatives.refine(part, values.as_slice())?;
            Ok(false)
        }
        Answer::Spent => Ok(false),
    }
}

/// Whether the literals are equal by the clauses, as far as few steps and the clauses near them tell.
fn are_equal<S: PartSat>(
    solver: &mut S,
    alloc: Global,
    representatives: &mut Representatives,
    one: i32,
    other: i32,
    limit: u64,
) -> Result<bool, EngineError>
    requires one { IsLiteral (S.vars solver.old) one }
    requires other { IsLiteral (S.vars solver.old) other }
    requires small { S.vars solver.old ≤ 2147483647 }
    ensures vars { S.vars solver.new ≡ S.vars solver.old }
    ensures clauses { S.clauses solver.new ≡ S.clauses solver.old }
    ensures same { representatives.new ≡ representatives.old }
    ensures equal { IfOk result (λ b. b ≡ true → AreEqualBy (S.clauses solver.old) one other) }
{
    let Some(part) = representatives.part(one.unsigned_abs(), other.unsigned_abs())? else {
        return Ok(false);
    };
    if !is_refuted(
        solver,
        alloc,
        representatives,
        &part,
        &[negated(other), one],
        limit,
    )? {
        return Ok(false);
    }
    is_refuted(
        solver,
        alloc,
        representatives,
        &part,
        &[negated(one), other],
        limit,
    )
}

/// Adds clauses by which the literals are equal.
fn add_equal<S: Sat>(solver: &mut S, alloc: Global, one: i32, other: i32) -> Result<(), EngineError>
    requires one { IsLiteral (S.vars solver.old) one }
    requires other { IsLiteral (S.vars solver.old) other }
    requires small { S.vars solver.old ≤ 2147483647 }
    ensures vars { S.vars solver.new ≡ S.vars solver.old }
    ensures clauses { OnOk result (S.clauses solver.new ≡ (S.clauses solver.old ++ (neg_ℤ one ∷ other ∷ []) ∷ []) ++ (one ∷ neg_ℤ other ∷ []) ∷ []) }
{
    solver.add(alloc, &[negated(one), other])?;
    solver.add(alloc, &[one, negated(other)])?;
    Ok(())
}

impl<S: PartSat> Sweeping<S> {
    /// Nothing is shown yet.
    pub fn new(alloc: Global, solver: S) -> Sweeping<S> {
        Sweeping {
            solver,
            given: Vec::new(alloc),
            representatives: Representatives::new(alloc),
            covers: CoverClauses::new(alloc),
        }
    }

    /// Begins anew, with what is left of the budget.
    pub fn begin(&mut self, budget: &Budget) -> Result<(), Refused>
        ensures { OnOk result ((e : Encoder) → IsReady e self.new.given.items (S.vars self.new.solver) (S.clauses self.new.solver) self.new.representatives) }
    {
        self.given.clear();
        self.representatives.begin(budget)
    }

    /// Has the solver begin anew where it has too few variables.
    fn make_room(&mut self, encoder: &Encoder) -> Result<(), EngineError>
        requires encoding { IsEncoding encoder.now }
        requires small { encoder.now.variables ≤ 2147483647 }
        requires ready { IsReady encoder.now self.old.given.items (S.vars self.old.solver) (S.clauses self.old.solver) self.old.representatives }
        ensures asked { OnOk result (AreAsked encoder.now self.new.given.items (S.vars self.new.solver) (S.clauses self.new.solver)) }
        ensures same { self.new.representatives ≡ self.old.representatives }
    {
        if self.given.len() > encoder.variables as usize {
            return Ok(());
        }
        let alloc = self.covers.allocator();
        let places = encoder.variables.saturating_mul(2).max(FIRST_PLACES);
        let places = places.min(2_147_483_647);
        self.solver.reset(alloc, places)?;
        add_one(&mut self.solver, alloc, 1)?;
        self.given = given_first(alloc, places as usize + 1)?;
        Ok(())
    }

    /// Whether the literals are equal by the functions, as far as few steps tell. The solver has them equal then.
    fn ask(
        &mut self,
        encoder: &Encoder,
        one: i32,
        other: i32,
        limit: u64,
    ) -> Result<bool, EngineError>
        requires encoding { IsEncoding encoder.now }
        requires small { encoder.now.variables ≤ 2147483647 }
        requires ready { IsReady encoder.now self.old.given.items (S.vars self.old.solver) (S.clauses self.old.solver) self.old.representatives }
        requires one { IsLiteral encoder.now.variables one }
        requires other { IsLiteral encoder.now.variables other }
        ensures asked { OnOk result (AreAsked encoder.now self.new.given.items (S.vars self.new.solver) (S.clauses self.new.solver)) }
        ensures same { self.new.representatives ≡ self.old.representatives }
        ensures equal { IfOk result (λ b. b ≡ true → AreEqualIn encoder.now.functions.items one other) }
    {
        self.make_room(encoder)?;
        let alloc = self.covers.allocator();
        let pair = [one, other];
        let given = self.given.as_mut_slice();
        give(
            &mut self.solver,
            encoder,
            &mut self.covers,
            given,
            &pair,
            &[],
            &[Lit(0), Lit(2)],
        )?;
        let representatives = &mut self.representatives;
        if !are_equal(&mut self.solver, alloc, representatives, one, other, limit)? {
            return Ok(false);
        }
        add_equal(&mut self.solver, alloc, one, other)?;
        Ok(true)
    }

    /// As `ask`, but that a solver whose ids are used up begins anew.
    fn is_shown(
        &mut self,
        encoder: &Encoder,
        one: i32,
        other: i32,
        limit: u64,
    ) -> Result<bool, Refused>
        requires encoding { IsEncoding encoder.now }
        requires small { encoder.now.variables ≤ 2147483647 }
        requires ready { IsReady encoder.now self.old.given.items (S.vars self.old.solver) (S.clauses self.old.solver) self.old.representatives }
        requires one { IsLiteral encoder.now.variables one }
        requires other { IsLiteral encoder.now.variables other }
        ensures ready { OnOk result (IsReady encoder.now self.new.given.items (S.vars self.new.solver) (S.clauses self.new.solver) self.new.representatives) }
        ensures same { self.new.representatives ≡ self.old.representatives }
        ensures equal { IfOk result (λ b. b ≡ true → AreEqualIn encoder.now.functions.items one other) }
    {
        match self.ask(encoder, one, other, limit) {
            Ok(shown) => Ok(shown),
            Err(EngineError::Limit(_)) => {
                self.given.clear();
                Ok(false)
            }
            Err(EngineError::OutOfMemory(refused)) => Err(refused),
        }
    }

    /// Notes that the variable is equal to the earlier literal, where few steps show it.
    fn merge_pair(
        &mut self,
        encoder: &Encoder,
        variable: u32,
        candidate: i32,
        limit: u64,
    ) -> Result<(), Refused>
        requires encoding { IsEncoding encoder.now }
        requires small { encoder.now.variables ≤ 2147483647 }
        requires ready { IsReady encoder.now self.old.given.items (S.vars self.old.solver) (S.clauses self.old.solver) self.old.representatives }
        requires some { 0 < variable }
        requires inside { variable ≤ encoder.now.variables }
        requires candidate { IsLiteral encoder.now.variables candidate }
        ensures ready { OnOk result (IsReady encoder.now self.new.given.items (S.vars self.new.solver) (S.clauses self.new.solver) self.new.representatives) }
    {
        let literal = positive(variable);
        let shown = self.is_shown(encoder, literal, candidate, limit)?;
        self.representatives.note_answer(candidate, shown);
        if !shown {
            return Ok(());
        }
        self.representatives.note(literal, candidate)
    }

    /// Looks for an earlier literal that is equal to the variable.
    fn merge_variable(
        &mut self,
        encoder: &Encoder,
        variable: u32,
        budget: &mut Budget,
    ) -> Result<(), Refused>
        requires encoding { IsEncoding encoder.now }
        requires small { encoder.now.variables ≤ 2147483647 }
        requires ready { IsReady encoder.now self.old.given.items (S.vars self.old.solver) (S.clauses self.old.solver) self.old.representatives }
        requires some { 0 < variable }
        requires inside { variable ≤ encoder.now.variables }
        ensures spends { Spends budget.old budget.new }
        ensures ready { OnOk result (IsReady encoder.now self.new.given.items (S.vars self.new.solver) (S.clauses self.new.solver) self.new.representatives) }
    {
        let Some(candidate) = self.representatives.candidate(encoder, variable)? else {
            self.representatives.pay(budget);
            return Ok(());
        };
        self.merge_pair(encoder, variable, candidate, budget.left())?;
        self.representatives.pay(budget);
        Ok(())
    }

    /// Looks at the variables up to this one that were not looked at, as far as there are steps for it.
    fn merge_up_to(
        &mut self,
        encoder: &Encoder,
        last: u32,
        budget: &mut Budget,
    ) -> Result<(), Refused>
        requires encoding { IsEncoding encoder.now }
        requires small { encoder.now.variables ≤ 2147483647 }
        requires ready { IsReady encoder.now self.old.given.items (S.vars self.old.solver) (S.clauses self.old.solver) self.old.representatives }
        requires inside { last ≤ encoder.now.variables }
        ensures spends { Spends budget.old budget.new }
        ensures ready { OnOk result (IsReady encoder.now self.new.given.items (S.vars self.new.solver) (S.clauses self.new.solver) self.new.representatives) }
    {
        for variable in self.representatives.first()..last.saturating_add(1) {
            if !self.representatives.is_due(encoder.variables, budget) {
                return Ok(());
            }
            self.merge_variable(encoder, variable, budget)?;
        }
        Ok(())
    }

    /// A literal that is equal by the functions: an earlier one where few steps show it.
    pub fn merged(
        &mut self,
        encoder: &Encoder,
        literal: i32,
        budget: &mut Budget,
    ) -> Result<i32, Refused>
        requires encoding { IsEncoding encoder.now }
        requires small { encoder.now.variables ≤ 2147483647 }
        requires ready { IsReady encoder.now self.old.given.items (S.vars self.old.solver) (S.clauses self.old.solver) self.old.representatives }
        requires literal { IsLiteral encoder.now.variables literal }
        ensures spends { Spends budget.old budget.new }
        ensures ready { OnOk result (IsReady encoder.now self.new.given.items (S.vars self.new.solver) (S.clauses self.new.solver) self.new.representatives) }
        ensures literal { IfOk result (IsLiteral encoder.now.variables) }
        ensures equal { IfOk result (λ l. AreEqualIn encoder.now.functions.items l literal) }
    {
        self.merge_up_to(encoder, literal.unsigned_abs(), budget)?;
        Ok(self.representatives.equal_to(literal))
    }
}
