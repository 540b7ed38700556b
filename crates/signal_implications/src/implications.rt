//! Implications that are left, and those by which others are shown.

ghost use Rattle.std.specs.Prelude.{◌≡◌, ℕ, ◌<◌, ◌≤◌, ◌++◌, [], IfOk, IsSome, OnOk, flat_map, length, true};
ghost use Rattle.base.specs.Budget.{Spends};
ghost use Rattle.simulate.specs.Lanes.{value_in};
ghost use Rattle.signal_implications.specs.Implied.{clauses_at, left_of};

use crate::candidates::Candidates;
use crate::implication::Implication;
use crate::marks::{is_marked, put};
use crate::samples::Samples;
use base::{Budget, Refused, Seq, filled, push};
use graph::Lit;
use random_runs::Runs;
use simulate::lanes::{both, negated_if, none, value};
use std::alloc::Global;
use std::simd::u64x4;

/// Implications that may hold at each time, until a run violates them. That they hold is judged later: no clause says what runs
/// show of them.
#[derive(Drop)]
pub struct Implications {
    list: Vec<Implication>,
    /// for each whether no run violates it
    is_left: Vec<bool>,
    /// for each whether others are shown by it
    is_used: Vec<bool>,
    /// the places of those by which others are shown
    used: Vec<usize>,
    /// how many of those a run violated
    lost: u64,
}

impl std::marker::Model for Implications {
    ghost use Rattle.signal_implications.specs.Implied.{Implied};

    ghost Value = { Implied };

    ghost view = { λ i. record { list = i.list.items; is_left = i.is_left.items; used = i.used.items } };
}

impl Implications {
    /// None.
    pub fn new(alloc: Global) -> Implications
        ensures { result.list ≡ [] }
    {
        Implications {
            list: Vec::new(alloc),
            is_left: Vec::new(alloc),
            is_used: Vec::new(alloc),
            used: Vec::new(alloc),
            lost: 0,
        }
    }

    /// Those that no sample violates, as many as a limit allows.
    pub fn of(
        alloc: Global,
        samples: &Samples,
        budget: &mut Budget,
    ) -> Result<Implications, Refused>
        ensures spends { Spends budget.old budget.new }
        ensures limit { IfOk result (λ i. length i.list ≤ 20000) }
    {
        let candidates = Candidates::of(alloc, samples, budget)?;
        let mut list = Vec::new(alloc);
        for candidate in candidates.as_slice() {
            push(&mut list, candidate.implication)?;
        }
        let count = list.len();
        Ok(Implications {
            list,
            is_left: filled(alloc, true, count)?,
            is_used: filled(alloc, false, count)?,
            used: Vec::new(alloc),
            lost: 0,
        })
    }

    /// How many there were at first.
    pub fn len(&self) -> usize
        ensures { result ≡ length self.now.list }
    {
        self.list.len()
    }

    /// How many of those by which others were shown a run violated.
    pub fn lost(&self) -> u64 {
        self.lost
    }

    /// The places of those by which others are shown.
    pub fn used(&self) -> &[usize]
        ensures { result.now ≡ self.now.used }
    {
        self.used.as_slice()
    }

    /// The implication at a place, where no run violates it.
    pub fn left(&self, place: usize) -> Option<Implication>
        ensures { result ≡ left_of self.now place }
    {
        if !is_marked(self.is_left.as_slice(), place) {
            return None;
        }
        self.list.get(place).copied()
    }

    /// Those of these runs that violate none.
    pub fn agreeing(&self, runs: &Runs<'_>, running: u64x4) -> u64x4
        requires stepped { IsSome runs.now.wide.now }
        ensures { (r : ℕ) → r < 256 → value_in result r ≡ true → value_in running r ≡ true }
    {
        let mut agreeing = running;
        for place in 0..self.len() {
            if let Some(implication) = self.left(place) {
                let violating = implication.violating(runs, false);
                agreeing = both(agreeing, negated_if(violating, true));
                if none(agreeing) {
                    return agreeing;
                }
            }
        }
        agreeing
    }

    /// Drops the implication at a place.
    pub fn discard(&mut self, place: usize)
        ensures list { self.new.list ≡ self.old.list }
        ensures used { self.new.used ≡ self.old.used }
    {
        if put(self.is_left.as_mut_slice(), place, false)
            && is_marked(self.is_used.as_slice(), place)
        {
            self.lost = self.lost.saturating_add(1);
        }
    }

    /// Drops the implication at a place, where one of these runs violates it, a step later where that is wanted.
    fn test(&mut self, runs: &Runs<'_>, running: u64x4, is_later: bool, place: usize)
        requires stepped { IsSome runs.now.wide.now }
        ensures list { self.new.list ≡ self.old.list }
        ensures used { self.new.used ≡ self.old.used }
    {
        if let Some(implication) = self.left(place)
            && !none(both(implication.violating(runs, is_later), running))
        {
            self.discard(place);
        }
    }

    /// Drops those that one of these runs violates, a step later where that is wanted.
    pub fn split(&mut self, runs: &Runs<'_>, running: u64x4, is_later: bool)
        requires stepped { IsSome runs.now.wide.now }
        ensures list { self.new.list ≡ self.old.list }
        ensures used { self.new.used ≡ self.old.used }
    {
        for place in 0..self.len() {
            self.test(runs, running, is_later, place);
        }
    }

    /// Has others be shown by the implication at a place. False where they are so already.
    pub fn take(&mut self, place: usize) -> Result<bool, Refused>
        ensures list { self.new.list ≡ self.old.list }
    {
        if !put(self.is_used.as_mut_slice(), place, true) {
            return Ok(false);
        }
        push(&mut self.used, place)?;
        Ok(true)
    }

    /// Has nothing be shown by them.
    pub fn forget(&mut self)
        ensures list { self.new.list ≡ self.old.list }
        ensures none { self.new.used ≡ [] }
    {
        self.is_used.fill(false);
        self.used.clear();
    }

    /// The places of those that the first of these runs violates, as many at most.
    pub fn violated(
        &self,
        alloc: Global,
        runs: &Runs<'_>,
        most: usize,
    ) -> Result<Vec<usize>, Refused>
        requires stepped { IsSome runs.now.wide.now }
        ensures limit { IfOk result (λ v. length v.items ≤ most) }
    {
        let mut violated = Vec::new(alloc);
        for place in 0..self.len() {
            if violated.len() >= most {
                break;
            }
            if let Some(implication) = self.left(place)
                && value(implication.violating(runs, false), 0)
            {
                push(&mut violated, place)?;
            }
        }
        Ok(violated)
    }

    /// Adds the clauses of those by which others are shown.
    pub fn push_clauses(&self, alloc: Global, clauses: &mut Seq<Seq<Lit>>) -> Result<(), Refused>
        ensures { OnOk result (clauses.new ≡ clauses.old ++ flat_map (clauses_at self.now) self.now.used) }
    {
        for place in self.used.iter() {
            if let Some(implication) = self.left(*place) {
                clauses.push(implication.clause(alloc)?)?;
            }
        }
        Ok(())
    }
}
