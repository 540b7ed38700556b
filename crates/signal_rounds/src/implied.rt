//! Asking a solver whether signals are true wherever others are.

ghost use Rattle.std.specs.Prelude.{◌≡◌, IfOk, false};
ghost use Rattle.base.specs.Budget.{Spends};
ghost use Rattle.signal_rounds.specs.declared.asking.Round.TheVariants.{Spent};

use crate::asking::{Question, Reply, Round, look, negated};
use crate::parts::Parts;
use crate::search::Search;
use base::{Budget, copied};
use graph::Lit;
use solver::{Answer, PartSat, Sat, SatError};
use std::alloc::Global;

/// Adds that one literal is true where another is.
pub(crate) fn add_implication<S: Sat>(
    solver: &mut S,
    alloc: Global,
    parts: &Parts,
    high: Lit,
    low: Lit,
) -> Result<(), SatError>
    requires vars { S.vars solver.old ≡ parts.now }
    ensures vars { S.vars solver.new ≡ S.vars solver.old }
{
    let clause = [parts.unit(negated(high)), parts.unit(low)];
    solver.add(alloc, &clause)
}

/// Whether one literal is true where another is. Where that is so, the solver is told.
pub(crate) fn ask_implication<S: PartSat>(
    solver: &mut S,
    alloc: Global,
    parts: &mut Parts,
    high: Lit,
    low: Lit,
    budget: &mut Budget,
) -> Result<Reply, SatError>
    requires vars { S.vars solver.old ≡ parts.old }
    ensures vars { S.vars solver.new ≡ S.vars solver.old }
    ensures parts { parts.new ≡ parts.old }
    ensures spends { Spends budget.old budget.new }
{
    if high.0 == 0 || low.0 == 1 {
        return Ok(Reply::Equal);
    }
    match look(solver, alloc, parts, [high, negated(low)], budget)? {
        Answer::Core(_) => {
            add_implication(solver, alloc, parts, high, low)?;
            Ok(Reply::Equal)
        }
        Answer::Model(values) => Ok(Reply::Differ(values)),
        Answer::Spent => Ok(Reply::Unknown),
    }
}

impl<'a> Search<'a> {
    /// Has the next questions also be about these implications. False where they all are so already.
    pub(crate) fn use_implications<S: Sat>(
        &mut self,
        solver: &mut S,
        alloc: Global,
        parts: &mut Parts,
        places: &[usize],
    ) -> Result<bool, SatError>
        requires vars { S.vars solver.old ≡ parts.old }
        ensures vars { S.vars solver.new ≡ S.vars solver.old }
        ensures parts { parts.new ≡ parts.old }
    {
        let mut is_new = false;
        'adding: for place in places {
            if self.implications.take(*place)? {
                is_new = true;
                self.add_used(solver, alloc, parts, *place)?;
            }
        }
        Ok(is_new)
    }

    /// Adds the implication at a place, where no run violates it, and has the next questions also be about it.
    fn add_used<S: Sat>(
        &self,
        solver: &mut S,
        alloc: Global,
        parts: &mut Parts,
        place: usize,
    ) -> Result<(), SatError>
        requires vars { S.vars solver.old ≡ parts.old }
        ensures vars { S.vars solver.new ≡ S.vars solver.old }
        ensures parts { parts.new ≡ parts.old }
    {
        let Some(implication) = self.implications.left(place) else {
            return Ok(());
        };
        let high = parts.root(implication.high.now);
        let low = parts.root(implication.low.now);
        parts.ask_also_of(high, low)?;
        add_implication(solver, alloc, parts, high, low)
    }

    /// Adds the implications by which others are shown.
    pub(crate) fn add_all_used<S: Sat>(
        &self,
        solver: &mut S,
        alloc: Global,
        parts: &mut Parts,
    ) -> Result<(), SatError>
        requires vars { S.vars solver.old ≡ parts.old }
        ensures vars { S.vars solver.new ≡ S.vars solver.old }
        ensures parts { parts.new ≡ parts.old }
    {
        'adding: for place in self.implications.used() {
            self.add_used(solver, alloc, parts, *place)?;
        }
        Ok(())
    }

    /// Drops implications by values that violate the one at a place. Where these are none of a situation in which those hold that
    /// are taken to, the next questions are about that too. Where that is no reason, the one at the place is dropped.
    fn drop_by<S: Sat>(
        &mut self,
        solver: &mut S,
        alloc: Global,
        parts: &mut Parts,
        question: Question,
        values: &[bool],
        budget: &mut Budget,
    ) -> Result<(), SatError>
        requires vars { S.vars solver.old ≡ parts.old }
        ensures vars { S.vars solver.new ≡ S.vars solver.old }
        ensures parts { parts.new ≡ parts.old }
        ensures spends { Spends budget.old budget.new }
    {
        let Question { place, is_later } = question;
        let situation = self.situation_of(alloc, parts, values)?;
        let first = copied(alloc, situation.as_slice())?;
        self.chase(alloc, first, is_later, budget)?;
        let situation = situation.as_slice();
        if self.implications.left(place).is_some()
            && !self.doubt(solver, alloc, parts, situation, is_later, budget)?
        {
            self.implications.discard(place);
        }
        Ok(())
    }

    /// Asks until the implication at a place is shown, or is dropped. False where the budget is exhausted.
    fn ask_used<S: PartSat>(
        &mut self,
        solver: &mut S,
        alloc: Global,
        parts: &mut Parts,
        question: Question,
        budget: &mut Budget,
    ) -> Result<bool, SatError>
        requires vars { S.vars solver.old ≡ parts.old }
        ensures vars { S.vars solver.new ≡ S.vars solver.old }
        ensures parts { parts.new ≡ parts.old }
        ensures spends { Spends budget.old budget.new }
        ensures spent { IfOk result (λ b. b ≡ false → budget.new.left ≡ 0) }
    {
        let Question { place, is_later } = question;
        'asking: while budget.tick() {
            let Some(implication) = self.implications.left(place) else {
                return Ok(true);
            };
            let high = parts.root(implication.high.at(is_later));
            let low = parts.root(implication.low.at(is_later));
            if high == low {
                return Ok(true);
            }
            match ask_implication(solver, alloc, parts, high, low, budget)? {
                Reply::Equal => return Ok(true),
                Reply::Differ(values) => {
                    self.drop_by(solver, alloc, parts, question, values.as_slice(), budget)?;
                }
                Reply::Unknown => self.implications.discard(place),
            }
        }
        Ok(false)
    }

    /// Asks so of each implication by which others are shown. False where the budget is exhausted.
    fn ask_all_used<S: PartSat>(
        &mut self,
        solver: &mut S,
        alloc: Global,
        parts: &mut Parts,
        is_later: bool,
        budget: &mut Budget,
    ) -> Result<bool, SatError>
        requires vars { S.vars solver.old ≡ parts.old }
        ensures vars { S.vars solver.new ≡ S.vars solver.old }
        ensures parts { parts.new ≡ parts.old }
        ensures spends { Spends budget.old budget.new }
        ensures spent { IfOk result (λ b. b ≡ false → budget.new.left ≡ 0) }
    {
        let mut count = 0_usize;
        'asking: while budget.tick() {
            let Some(place) = self.implications.used().get(count).copied() else {
                return Ok(true);
            };
            let question = Question { place, is_later };
            if !self.ask_used(solver, alloc, parts, question, budget)? {
                return Ok(false);
            }
            count = count.saturating_add(1);
        }
        Ok(false)
    }

    /// Asks of each implication by which others are shown. Answers whether one of them was violated, or a class was split.
    pub(crate) fn round_of_used<S: PartSat>(
        &mut self,
        solver: &mut S,
        alloc: Global,
        parts: &mut Parts,
        is_later: bool,
        bad: Lit,
        budget: &mut Budget,
    ) -> Result<Round, SatError>
        requires vars { S.vars solver.old ≡ parts.old }
        ensures spends { Spends budget.old budget.new }
        ensures spent { IfOk result (λ r. r ≡ Spent → budget.new.left ≡ 0) }
    {
        let (count, lost) = (self.classes.count(), self.implications.lost());
        if !self.ask_all_used(solver, alloc, parts, is_later, budget)? {
            return Ok(Round::Spent);
        }
        if !self.excludes(bad) {
            return Ok(Round::Open);
        }
        if self.classes.count() == count && self.implications.lost() == lost {
            Ok(Round::Stays)
        } else {
            Ok(Round::Split)
        }
    }
}
