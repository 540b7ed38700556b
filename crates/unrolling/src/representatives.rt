//! For each variable an earlier literal that equals it, where one was shown, and the signatures by which others may (SAT sweeping,
//! Kuehlmann and Krohm 1997).

ghost use Rattle.std.specs.Prelude.{◌≡◌, ◌≢◌, ◌+◌, ◌<◌, ◌≤◌, ◌^◌, ℕ, [], List, pos, All, IfOk, IfSome, OnOk, unsigned_abs};
ghost use Rattle.base.specs.Budget.{Spends};
ghost use Rattle.lrat.specs.Literals.{IsLiteral};
ghost use Rattle.unrolling.specs.declared.function.Function.{Function};
ghost use Rattle.unrolling.specs.Merged.{AreEqualIn, AreMerged, IsTurned, equal_at};

use crate::clauses::negated;
use crate::encoder::Encoder;
use base::{Budget, Refused, push};
use signatures::Signatures;
use solver::Part;
use std::alloc::Global;

/// Sweeping has one of so many parts of the budget at most.
const PARTS: u64 = 8;

/// For how many variables there is sweeping, since it takes memory for each.
const MOST_VARIABLES: u32 = 500_000;

/// How many steps sweeping has before the search took any.
const FIRST_STEPS: u64 = 1_000;

/// Sweeping has one of so many of the search's steps besides.
const SHARE: u64 = 20;

/// How many steps sweeping has for each variable that it merged.
const MERGED_STEPS: u64 = 200;

/// How many steps a variable costs whose function is given to the solver.
const GIVING_STEPS: u64 = 4;

/// For each variable that was shown equal to an earlier one a literal of that, and what tells which ones may be.
#[derive(Drop)]
pub struct Representatives {
    /// by the variables; 0 where nothing was shown
    equals: Vec<i32>,
    /// none before the first search
    signatures: Option<Signatures>,
    /// how many variables were looked at
    swept: u32,
    /// how many steps giving and asking took
    spent: u64,
    /// how many steps it has for the variables that it merged
    credit: u64,
    /// how many of all steps are in the budget
    paid: u64,
    /// how many steps of the budget were spent before
    before: u64,
    /// how many steps this may take at most
    limit: u64,
    /// how many variables were shown equal to earlier ones
    merged: u64,
}

impl std::marker::Model for Representatives {
    ghost use Rattle.std.specs.Prelude.{ℤ, List, All, ◌<◌, ◌^◌, unsigned_abs};

    ghost Value = { List ℤ };

    ghost view = { λ s. s.equals.items };

    ghost invariant = { λ s. All (λ l. unsigned_abs l < 2 ^ 31) s.equals.items };
}

/// Where the variable of the first literal is equal to another one, what the literal is equal to.
fn turned(literal: i32, equal: i32) -> i32
    requires { unsigned_abs equal < 2 ^ 31 }
    ensures { IsTurned literal equal result }
{
    if literal < 0 { negated(equal) } else { equal }
}

/// The literal that is listed for a variable, or 0.
fn listed(equals: &[i32], variable: u32) -> i32
    requires small { All (λ l. unsigned_abs l < 2 ^ 31) equals.now }
    ensures small { unsigned_abs result < 2 ^ 31 }
    ensures same { result ≡ equal_at equals.now variable }
{
    match equals.get(variable as usize) {
        Some(equal) => *equal,
        None => 0,
    }
}

/// Lists a literal for a variable.
fn list(equals: &mut Vec<i32>, variable: u32, literal: i32) -> Result<(), Refused>
    requires small { All (λ l. unsigned_abs l < 2 ^ 31) equals.old.items }
    requires literal { unsigned_abs literal < 2 ^ 31 }
    ensures small { All (λ l. unsigned_abs l < 2 ^ 31) equals.new.items }
    ensures here { OnOk result (equal_at equals.new.items variable ≡ literal) }
    ensures others { OnOk result ((x : ℕ) → x ≢ variable → equal_at equals.new.items x ≡ equal_at equals.old.items x) }
{
    'filling: while equals.len() <= variable as usize {
        push(equals, 0)?;
    }
    equals[variable as usize] = literal;
    Ok(())
}

/// A literal that equals this one, as far as one is listed; nothing is said of others.
fn leaf(equals: &[i32], literal: i32) -> i32 {
    match equals.get(literal.unsigned_abs() as usize) {
        Some(equal) if *equal != 0 => {
            if literal < 0 {
                equal.wrapping_neg()
            } else {
                *equal
            }
        }
        _ => literal,
    }
}

impl Representatives {
    /// Nothing is shown yet.
    pub fn new(alloc: Global) -> Representatives
        ensures { result ≡ [] }
    {
        Representatives {
            equals: Vec::new(alloc),
            signatures: None,
            swept: 1,
            spent: 0,
            credit: 0,
            paid: 0,
            before: 0,
            limit: 0,
            merged: 0,
        }
    }

    /// Begins anew, with what is left of the budget.
    pub fn begin(&mut self, budget: &Budget) -> Result<(), Refused>
        ensures { OnOk result (self.new ≡ []) }
    {
        let alloc = *self.equals.allocator();
        self.equals.clear();
        self.signatures = Some(Signatures::new(alloc)?);
        self.swept = 1;
        self.spent = 0;
        self.credit = 0;
        self.paid = 0;
        self.before = budget.spent();
        self.limit = budget.left() / PARTS;
        Ok(())
    }

    /// The first variable that was not looked at.
    pub fn first(&self) -> u32
        ensures { 0 < result }
    {
        self.swept.saturating_add(1)
    }

    /// How many variables were shown equal to earlier ones, in all searches.
    pub fn count(&self) -> u64 {
        self.merged
    }

    /// An earlier literal that was shown equal, or this one.
    pub fn equal_to(&self, literal: i32) -> i32
        requires small { unsigned_abs literal < 2 ^ 31 }
        ensures range { (fs : List Function) (n : ℕ) → AreMerged fs n self.now → IsLiteral n literal → IsLiteral n result }
        ensures equal { (fs : List Function) (n : ℕ) → AreMerged fs n self.now → IsLiteral n literal → AreEqualIn fs result literal }
    {
        let equal = listed(&self.equals, literal.unsigned_abs());
        if equal == 0 {
            literal
        } else {
            turned(literal, equal)
        }
    }

    /// Notes that the literals were shown equal.
    pub fn note(&mut self, literal: i32, equal: i32) -> Result<(), Refused>
        requires small { unsigned_abs literal < 2 ^ 31 }
        requires small_equal { unsigned_abs equal < 2 ^ 31 }
        ensures { (fs : List Function) (n : ℕ) → AreMerged fs n self.old → IsLiteral n literal → IsLiteral n equal → AreEqualIn fs equal literal → OnOk result (AreMerged fs n self.new) }
    {
        self.merged = self.merged.saturating_add(1);
        self.credit = self.credit.saturating_add(MERGED_STEPS);
        list(
            &mut self.equals,
            literal.unsigned_abs(),
            turned(literal, equal),
        )
    }

    /// Looks at the next variable: a literal of an earlier one that may be equal to it.
    pub fn candidate(&mut self, encoder: &Encoder, variable: u32) -> Result<Option<i32>, Refused>
        ensures same { self.new ≡ self.old }
        ensures range { IfOk result (λ r. IfSome r (λ l. (l ≢ pos 0) × (unsigned_abs l < variable))) }
    {
        self.swept = variable;
        let function = encoder.function_of(variable);
        let (first, second, third, fourth) = function.leaves;
        let equals = self.equals.as_slice();
        let leaves = (
            leaf(equals, first),
            leaf(equals, second),
            leaf(equals, third),
            leaf(equals, fourth),
        );
        let Some(signatures) = &mut self.signatures else {
            return Ok(None);
        };
        signatures.add(function.table, leaves)?;
        if first == 0 {
            return Ok(None);
        }
        self.spent = self.spent.saturating_add(GIVING_STEPS);
        match signatures.candidate(variable)? {
            Some(equal) if equal != 0 && equal.unsigned_abs() < variable => Ok(Some(equal)),
            _ => Ok(None),
        }
    }

    /// What a question whether the two can differ looks at, where there is one.
    pub fn part(&mut self, one: u32, other: u32) -> Result<Option<Part>, Refused>
        ensures { self.new ≡ self.old }
    {
        match &mut self.signatures {
            Some(signatures) => Ok(Some(signatures.part(one, other)?)),
            None => Ok(None),
        }
    }

    /// Notes what was found by a question: they differ.
    pub fn refine(&mut self, part: &Part, values: &[bool]) -> Result<(), Refused>
        ensures { self.new ≡ self.old }
    {
        match &mut self.signatures {
            Some(signatures) => signatures.refine(part, values),
            None => Ok(()),
        }
    }

    /// Notes whether a variable was shown equal to its candidate.
    pub fn note_answer(&mut self, candidate: i32, is_equal: bool)
        ensures { self.new ≡ self.old }
    {
        if let Some(signatures) = &mut self.signatures {
            signatures.note_answer(candidate, is_equal);
        }
    }

    /// Notes what a question cost.
    pub fn charge(&mut self, steps: u64)
        ensures { self.new ≡ self.old }
    {
        self.spent = self.spent.saturating_add(steps);
    }

    /// What all of this cost so far, in steps.
    fn cost(&self) -> u64 {
        match &self.signatures {
            Some(signatures) => self.spent.saturating_add(signatures.cost()),
            None => self.spent,
        }
    }

    /// Spends what was not spent yet.
    pub fn pay(&mut self, budget: &mut Budget)
        ensures same { self.new ≡ self.old }
        ensures spends { Spends budget.old budget.new }
    {
        let cost = self.cost();
        budget.spend(cost.saturating_sub(self.paid));
        self.paid = cost;
    }

    /// Whether there are steps for another of so many variables: where few are merged it has a share of what the search took.
    pub fn is_due(&self, variables: u32, budget: &Budget) -> bool {
        let others = self.before.saturating_add(self.paid);
        let searched = budget.spent().saturating_sub(others);
        let share = FIRST_STEPS.saturating_add(searched / SHARE);
        variables <= MOST_VARIABLES
            && self.cost() < share.saturating_add(self.credit).min(self.limit)
    }
}
