//! Classes of signals.

ghost use Rattle.std.specs.Prelude.{◌≡◌, ◌≢◌, ◌<◌, ℕ, ◌++◌, ◌∷◌, [], flat_map, length, slice_index_or, slice_set, true, IfOk, IsSome, IsTrue, OnOk};
ghost use Rattle.simulate.specs.Lanes.{value_in};
ghost use Rattle.signal_classes.specs.Classed.{AreLed, AreWithin, Refines, clauses_at, clauses_of, equal_of, lead_of, place_at, signal_of};

use crate::pairing::Pair;
use crate::signal::{Equal, Signal, lits_of, negated};
use base::{Refused, Seq, copied, insert, push};
use graph::{Lit, Model};
use random_runs::Runs;
use simulate::lanes::{both, lowest, negated_if, none, value};
use std::alloc::Global;
use std::collections::BTreeMap;
use std::simd::u64x4;

/// Signals that may be equal at each time. Each is taken as it is or negated, so that it is false in the run that was seen
/// first; then the signals of a class may be equal. That they are is judged later: no clause says what runs show of them.
#[derive(Drop)]
pub struct Classes {
    /// the constant, the inputs, the latches and the gates, each behind what it is made of
    signals: Vec<Signal>,
    /// the place of the first signal of the class of each
    leads: Vec<usize>,
    /// how many classes there were before the one of which each is the first signal
    births: Vec<usize>,
    /// how many classes there are
    count: usize,
    /// whether a run was seen
    is_begun: bool,
}

impl std::marker::Model for Classes {
    ghost use Rattle.signal_classes.specs.Classed.{Classed};

    ghost Value = { Classed };

    ghost view = { λ c. record { signals = c.signals.items; leads = c.leads.items; births = c.births.items; count = c.count } };
}

/// A number for the values in a class.
fn signature(class: usize, values: u64x4) -> u64 {
    let mut number = class as u64;
    for word in &values.to_array() {
        number = (number ^ *word).wrapping_mul(0x9E37_79B9_7F4A_7C15);
        number ^= number >> 29;
    }
    number
}

/// What stands at a place of the list, or 0.
fn at(list: &[usize], place: usize) -> usize
    ensures { result ≡ place_at list.now place }
{
    match list.get(place) {
        Some(value) => *value,
        None => 0,
    }
}

/// Puts a value at a place of the list, where it has that.
#[tactic(auto, using(crate::proofs::Led::put_past))]
fn put(list: &mut [usize], place: usize, value: usize)
    ensures { list.new ≡ slice_set list.old place value }
{
    if place < list.len() {
        list[place] = value;
    }
}

/// Turns each signal so that it is false in this run.
fn turn_all(signals: &mut [Signal], runs: &Runs<'_>, run: u32)
    requires run { run < 256 }
    requires stepped { IsSome runs.now.wide.now }
    ensures { length signals.new ≡ length signals.old }
{
    for signal in signals {
        if value(runs.value(signal.now), run) {
            *signal = signal.negated();
        }
    }
}

/// Adds the clauses that say that two literals are equal, or that the one is false.
fn push_clauses(
    alloc: Global,
    one: Lit,
    other: Lit,
    clauses: &mut Seq<Seq<Lit>>,
) -> Result<(), Refused>
    ensures { OnOk result (clauses.new ≡ clauses.old ++ clauses_of one other) }
{
    if other.variable() == 0 {
        return clauses.push(Seq::from_slice(alloc, &[negated(one)])?);
    }
    clauses.push(Seq::from_slice(alloc, &[negated(one), other])?)?;
    clauses.push(Seq::from_slice(alloc, &[one, negated(other)])?)
}

impl Classes {
    /// All signals of marked variables in the first class, as if this literal were false, and each other one in a class of its
    /// own.
    #[tactic(auto, using(crate::proofs::Led::led_push, crate::proofs::Led::led_own, crate::proofs::Led::first_push, crate::proofs::Led::first_set))]
    pub fn new(
        alloc: Global,
        circuit: &Model,
        pair: &Pair,
        marks: &[bool],
        bad: Lit,
    ) -> Result<Classes, Refused>
        ensures { IfOk result (λ c. AreLed c.leads) }
    {
        let mut classes = Classes {
            signals: Vec::new(alloc),
            leads: Vec::new(alloc),
            births: Vec::new(alloc),
            count: 1,
            is_begun: false,
        };
        let lits = lits_of(alloc, circuit)?;
        for (place, lit) in lits.as_slice().iter().enumerate() {
            let is_bad = lit.variable() == bad.variable();
            classes.add(pair.signal(if is_bad { bad } else { *lit }))?;
            let is_marked = marks.get(lit.variable() as usize).copied();
            if place > 0 && !is_marked.unwrap_or(false) {
                classes.part(place);
            }
        }
        Ok(classes)
    }

    /// Adds a signal to the first class.
    fn add(&mut self, signal: Signal) -> Result<(), Refused>
        ensures { OnOk result (self.new.leads ≡ self.old.leads ++ 0 ∷ []) }
    {
        push(&mut self.signals, signal)?;
        push(&mut self.leads, 0)?;
        push(&mut self.births, 0)
    }

    /// How many classes there are.
    pub fn count(&self) -> usize
        ensures { result ≡ self.now.count }
    {
        self.count
    }

    /// How many signals there are.
    pub fn len(&self) -> usize
        ensures { result ≡ length self.now.signals }
    {
        self.signals.len()
    }

    /// The place of the first signal of the class of the signal at a place.
    pub fn lead(&self, place: usize) -> usize
        ensures { result ≡ lead_of self.now place }
    {
        match self.leads.get(place) {
            Some(lead) => *lead,
            None => 0,
        }
    }

    /// How many classes there were before the one of which the signal at a place is the first.
    pub fn birth(&self, place: usize) -> usize
        ensures { result ≡ slice_index_or self.now.births place 0 }
    {
        match self.births.get(place) {
            Some(birth) => *birth,
            None => 0,
        }
    }

    /// The signal at a place, or the constant.
    pub fn signal(&self, place: usize) -> Signal
        ensures { result ≡ signal_of self.now place }
    {
        match self.signals.get(place) {
            Some(signal) => *signal,
            None => Signal {
                now: Lit(0),
                later: Lit(0),
            },
        }
    }

    /// The signal at a place and the first of its class, where that is another one.
    pub fn equal_at(&self, place: usize) -> Option<Equal>
        ensures equal { result ≡ equal_of self.now place }
        ensures apart { IsSome result → lead_of self.now place ≢ place }
    {
        let lead = self.lead(place);
        if lead == place {
            return None;
        }
        if place < self.len() {
            Some(Equal {
                one: self.signal(place),
                other: self.signal(lead),
            })
        } else {
            None
        }
    }

    /// Puts the signal at a place into the class of which another one is the first.
    fn join(&mut self, place: usize, lead: usize)
        ensures signals { self.new.signals ≡ self.old.signals }
        ensures leads { self.new.leads ≡ slice_set self.old.leads place lead }
    {
        put(self.leads.as_mut_slice(), place, lead);
    }

    /// Puts the signal at a place into a class of its own.
    pub fn part(&mut self, place: usize)
        ensures signals { self.new.signals ≡ self.old.signals }
        ensures leads { self.new.leads ≡ slice_set self.old.leads place place }
    {
        self.join(place, place);
        put(self.births.as_mut_slice(), place, self.count);
        self.count = self.count.saturating_add(1);
    }

    /// Whether the signal at a place may join the class of which another one is the first: both were in one class.
    fn may_join(&self, before: &[usize], place: usize, other: usize) -> bool
        ensures { IsTrue result → (lead_of self.now other ≡ other) × (place_at before.now other ≡ place_at before.now place) }
    {
        self.lead(other) == other && at(before, other) == at(before, place)
    }

    /// Turns each signal so that it is false in this run.
    fn turn(&mut self, runs: &Runs<'_>, run: u32)
        requires run { run < 256 }
        requires stepped { IsSome runs.now.wide.now }
        ensures leads { self.new.leads ≡ self.old.leads }
        ensures places { length self.new.signals ≡ length self.old.signals }
    {
        turn_all(self.signals.as_mut_slice(), runs, run);
    }

    /// Those of these runs in which the signals of each class are equal.
    pub fn agreeing(&self, runs: &Runs<'_>, running: u64x4) -> u64x4
        requires stepped { IsSome runs.now.wide.now }
        ensures { (r : ℕ) → r < 256 → value_in result r ≡ true → value_in running r ≡ true }
    {
        let mut agreeing = running;
        for place in 0..self.len() {
            if let Some(equal) = self.equal_at(place) {
                let differing = runs.value(equal.one.now) ^ runs.value(equal.other.now);
                agreeing = both(agreeing, negated_if(differing, true));
            }
        }
        agreeing
    }

    /// Moves the signal at a place out of its class where the values differ. Those that leave a class with the same values go to
    /// one class, by the leads before any left. Answers a run that told them apart, where this made a new class.
    fn compare(
        &mut self,
        runs: &Runs<'_>,
        running: u64x4,
        is_later: bool,
        place: usize,
        before: &[usize],
        parted: &mut BTreeMap<u64, usize>,
    ) -> Result<Option<u32>, Refused>
        requires stepped { IsSome runs.now.wide.now }
        ensures signals { self.new.signals ≡ self.old.signals }
        ensures led { AreLed self.old.leads → AreLed self.new.leads }
        ensures within { AreWithin before.now self.old.leads → AreWithin before.now self.new.leads }
    {
        let Some(equal) = self.equal_at(place) else {
            return Ok(None);
        };
        let values = runs.value(equal.one.at(is_later));
        let differing = both(values ^ runs.value(equal.other.at(is_later)), running);
        if none(differing) {
            return Ok(None);
        }
        let number = signature(self.lead(place), both(values, running));
        if let Some(other) = parted.get(&number)
            && self.may_join(before, place, *other)
        {
            self.join(place, *other);
            return Ok(None);
        }
        self.part(place);
        insert(parted, number, place)?;
        Ok(lowest(differing))
    }

    /// Splits the classes by the values in these runs, a step later where that is wanted. Answers a run that told signals apart,
    /// where this made a new class.
    #[tactic(auto, using(crate::proofs::Led::refines_by))]
    pub fn split(
        &mut self,
        alloc: Global,
        runs: &Runs<'_>,
        running: u64x4,
        is_later: bool,
    ) -> Result<Option<u32>, Refused>
        requires stepped { IsSome runs.now.wide.now }
        ensures places { length self.new.signals ≡ length self.old.signals }
        ensures led { AreLed self.old.leads → AreLed self.new.leads }
        ensures refines { AreLed self.old.leads → Refines self.old.leads self.new.leads }
    {
        let Some(first) = lowest(running) else {
            return Ok(None);
        };
        if !self.is_begun && !is_later {
            self.turn(runs, first);
            self.is_begun = true;
        }
        let before = copied(alloc, self.leads.as_slice())?;
        self.part_all(alloc, runs, running, is_later, before.as_slice())
    }

    /// Moves each signal out of its class where the values differ, by the leads before any left. Answers a run that told signals
    /// apart, where this made a new class.
    fn part_all(
        &mut self,
        alloc: Global,
        runs: &Runs<'_>,
        running: u64x4,
        is_later: bool,
        before: &[usize],
    ) -> Result<Option<u32>, Refused>
        requires stepped { IsSome runs.now.wide.now }
        ensures signals { self.new.signals ≡ self.old.signals }
        ensures led { AreLed self.old.leads → AreLed self.new.leads }
        ensures within { AreWithin before.now self.old.leads → AreWithin before.now self.new.leads }
    {
        let mut parted = BTreeMap::new(alloc);
        let mut told = None;
        for place in 0..self.len() {
            if let Some(run) = self.compare(runs, running, is_later, place, before, &mut parted)? {
                told = Some(run);
            }
        }
        Ok(told)
    }

    /// The clauses that say that the signals at these places are equal to the first of their class: two of each, or one that it
    /// is constant.
    pub fn clauses(&self, alloc: Global, places: &[usize]) -> Result<Seq<Seq<Lit>>, Refused>
        ensures { IfOk result (λ cs. cs ≡ flat_map (clauses_at self.now) places.now) }
    {
        let mut clauses = Seq::new(alloc);
        for place in places {
            if let Some(equal) = self.equal_at(*place) {
                push_clauses(alloc, equal.one.now, equal.other.now, &mut clauses)?;
            }
        }
        Ok(clauses)
    }
}
