//! Splitting classes by simulation.

ghost use Rattle.std.specs.Prelude.{◌≡◌, ◌<◌, IfOk, IsSome, IsTrue, false};
ghost use Rattle.base.specs.Budget.{Spends};

use crate::parts::Taken;
use base::{Budget, Refused, push};
use graph::{Latch, Lit, Model};
use rand_core::SeedableRng;
use rand_core::utils::NextWord;
use rand_pcg::Lcg128Xsl64;
use random_runs::{Bias, Runs, draw_biases, draw_row, rare, uniform};
use signal_classes::{Classes, Pair, Signal};
use signal_implications::{Implications, Samples, near};
use simulate::lanes::{all, both, none, value};
use std::alloc::Global;
use std::simd::u64x4;

/// How many times 256 runs from the first states are simulated, and how many steps of each.
const RESETS: u32 = 4;

const STEPS: u32 = 64;

/// Gates that are simulated in 256 runs for one step of the budget, which so costs as long as elsewhere.
const GATES: usize = 16;

/// Implications that are looked at in 256 runs for one step of the budget.
const IMPLICATIONS: usize = 8;

/// How many values are flipped in 256 runs around a situation.
const FLIPS: u32 = 768;

/// The most variables of a run that questions are about at once, of those that are not what they are taken to be.
const MOST_TAKEN: usize = 8;

/// How many steps the situations behind one that split a class are simulated at most.
const FRAMES: u32 = 32;

/// The most signals that are sampled.
const MOST_SAMPLED: usize = 1_000;

/// The most implications that questions are about at once, of those that are violated.
const MOST_VIOLATED: usize = 32;

/// What is taken to hold, and does not so in a situation.
#[derive(Drop)]
pub(crate) struct Violated {
    pub taken: Vec<Taken>,
    /// the places of implications
    pub implications: Vec<usize>,
}

/// Classes of a circuit's signals, and the means to split them.
#[derive(Drop)]
pub(crate) struct Search<'a> {
    pub circuit: &'a Model,
    pub pair: &'a Pair,
    pub classes: Classes,
    /// signals of which one may be true wherever another one is
    pub implications: Implications,
    /// the circuit at both times, in 256 runs
    runs: Runs<'a>,
    generator: Lcg128Xsl64,
}

/// Pays for the simulation of one step. False where nothing is left of the budget then.
fn pay(circuit: &Model, budget: &mut Budget) -> bool
    ensures spends { Spends budget.old budget.new }
    ensures spent { result ≡ false → budget.new.left ≡ 0 }
{
    circuit.well_formed();
    let cost = (circuit.gates().len() + circuit.latches().len()) / GATES + 1;
    budget.spend(cost as u64);
    budget.left() > 0
}

/// The values of one run.
fn row_of(alloc: Global, values: &[u64x4], run: u32) -> Result<Vec<bool>, Refused> {
    let mut row = Vec::new(alloc);
    for each in values {
        push(&mut row, run < 256 && value(*each, run))?;
    }
    Ok(row)
}

/// Which runs differ from the first: half.
fn halved(generator: &mut Lcg128Xsl64) -> u64x4 {
    let words = uniform(generator).to_array();
    u64x4::from_array([words[0] / 2 * 2, words[1], words[2], words[3]])
}

/// The values, but for that of one run that is not the first.
fn flipped(values: u64x4, run: usize) -> u64x4
    requires { run < 256 }
{
    if run == 0 {
        return values;
    }
    let mut words = values.to_array();
    words[run / 64] ^= 1 << (run % 64);
    u64x4::from_array(words)
}

/// The first values of a latch.
fn first_value(latch: Latch, generator: &mut Lcg128Xsl64) -> u64x4 {
    if latch.reset.0 == 0 {
        return all(false);
    }
    if latch.reset.0 == 1 {
        return all(true);
    }
    uniform(generator)
}

impl<'a> Search<'a> {
    /// The classes as they are, and no run yet. None where the circuit at both times cannot run.
    pub(crate) fn new(
        alloc: Global,
        circuit: &'a Model,
        pair: &'a Pair,
        classes: Classes,
    ) -> Result<Option<Search<'a>>, Refused> {
        match Runs::begin(alloc, &pair.circuit, &[])? {
            Some(runs) => Ok(Some(Search {
                circuit,
                pair,
                classes,
                implications: Implications::new(alloc),
                runs,
                generator: Lcg128Xsl64::seed_from_u64(0),
            })),
            None => Ok(None),
        }
    }

    /// States in which the circuit begins.
    fn first_states(&mut self, alloc: Global) -> Result<Vec<u64x4>, Refused> {
        let mut states = Vec::new(alloc);
        for latch in self.circuit.latches() {
            push(&mut states, first_value(*latch, &mut self.generator))?;
        }
        Ok(states)
    }

    /// Goes one step by inputs that are drawn with these biases, and splits the classes. False where no run is in any more, or
    /// the budget is exhausted.
    fn go(
        &mut self,
        alloc: Global,
        runs: &mut Runs,
        biases: &[Bias],
        budget: &mut Budget,
    ) -> Result<bool, Refused>
        ensures spends { Spends budget.old budget.new }
        ensures stepped { IfOk result (λ b. IsTrue b → IsSome runs.new.wide.now) }
    {
        if runs.is_over() || !pay(self.circuit, budget) {
            return Ok(false);
        }
        let row = draw_row(alloc, biases, &mut self.generator)?;
        if !runs.step(row.as_slice()) {
            return Ok(false);
        }
        let running = runs.running();
        self.classes.split(alloc, runs, running, false)?;
        Ok(true)
    }

    /// Goes on by inputs whose biases change all eight steps.
    fn go_far(&mut self, alloc: Global, runs: &mut Runs, budget: &mut Budget) -> Result<(), Refused>
        ensures { Spends budget.old budget.new }
    {
        let count = self.circuit.inputs().len();
        let mut biases = draw_biases(alloc, count, &mut self.generator)?;
        'going: for step in 0..STEPS {
            if step % 8 == 7 {
                biases = draw_biases(alloc, count, &mut self.generator)?;
            }
            if !self.go(alloc, runs, biases.as_slice(), budget)? {
                return Ok(());
            }
        }
        Ok(())
    }

    /// Simulates runs of the circuit.
    pub(crate) fn simulate(&mut self, alloc: Global, budget: &mut Budget) -> Result<(), Refused>
        ensures { Spends budget.old budget.new }
    {
        'simulating: for _ in 0..RESETS {
            let states = self.first_states(alloc)?;
            if let Some(mut runs) = Runs::begin(alloc, self.circuit, states.as_slice())? {
                self.go_far(alloc, &mut runs, budget)?;
            }
        }
        Ok(())
    }

    /// The signals that are sampled: of those of which the literal is made first the first of each class, and latches that never
    /// changed.
    fn sampled(&self, alloc: Global, bad: Lit) -> Result<Vec<Signal>, Refused> {
        let mut signals = Vec::new(alloc);
        for lit in near(alloc, self.circuit, bad, MOST_SAMPLED)?.iter() {
            let place = self.pair.rank(*lit) as usize;
            let lead = self.classes.lead(place);
            if lead == place || (lead == 0 && self.is_latch(place)) {
                push(&mut signals, self.classes.signal(place))?;
            }
        }
        Ok(signals)
    }

    /// Goes on by inputs whose biases change all eight steps, and adds the values of a quarter of the steps to the samples.
    fn sample_far(
        &mut self,
        alloc: Global,
        runs: &mut Runs,
        samples: &mut Samples,
        phase: u32,
        budget: &mut Budget,
    ) -> Result<(), Refused>
        ensures { Spends budget.old budget.new }
    {
        let count = self.circuit.inputs().len();
        let mut biases = draw_biases(alloc, count, &mut self.generator)?;
        'going: for step in 0..STEPS {
            if step % 8 == 7 {
                biases = draw_biases(alloc, count, &mut self.generator)?;
            }
            if !self.go(alloc, runs, biases.as_slice(), budget)? {
                return Ok(());
            }
            if step % RESETS == phase {
                samples.add(runs)?;
            }
        }
        Ok(())
    }

    /// Simulates runs of the circuit again, and takes the implications that they don't violate.
    pub(crate) fn sample(
        &mut self,
        alloc: Global,
        bad: Lit,
        budget: &mut Budget,
    ) -> Result<(), Refused>
        ensures { Spends budget.old budget.new }
    {
        let mut samples = Samples::new(alloc, self.sampled(alloc, bad)?)?;
        'simulating: for phase in 0..RESETS {
            let states = self.first_states(alloc)?;
            if let Some(mut runs) = Runs::begin(alloc, self.circuit, states.as_slice())? {
                self.sample_far(alloc, &mut runs, &mut samples, phase, budget)?;
            }
        }
        self.implications = Implications::of(alloc, &samples, budget)?;
        Ok(())
    }

    /// In which runs the latch at a position differs from its value in the first one, where that is a first state.
    fn reset_flip(&mut self, latch: Latch) -> u64x4 {
        if latch.reset.0 < 2 {
            all(false)
        } else {
            halved(&mut self.generator)
        }
    }

    /// In which runs each latch differs from its value in the first one, where these are first states.
    fn reset_flips(&mut self, alloc: Global) -> Result<Vec<u64x4>, Refused> {
        let mut flips = Vec::new(alloc);
        for latch in self.circuit.latches() {
            push(&mut flips, self.reset_flip(*latch))?;
        }
        Ok(flips)
    }

    /// The place of the signal of the first latch.
    fn first_latch(&self) -> usize {
        self.circuit.inputs().len().saturating_add(1)
    }

    /// Half of the runs for each latch that is the first signal of a class from `born` on, and none for the others. The
    /// positions of those that are the first signals of classes go to the list.
    fn born_flips(
        &mut self,
        alloc: Global,
        born: usize,
        firsts: &mut Vec<usize>,
    ) -> Result<Vec<u64x4>, Refused> {
        let mut flips = Vec::new(alloc);
        for position in 0..self.circuit.latches().len() {
            let place = self.first_latch().saturating_add(position);
            let is_first = self.classes.lead(place) == place;
            if is_first {
                push(firsts, position)?;
            }
            let is_born = is_first && self.classes.birth(place) >= born;
            push(
                &mut flips,
                if is_born {
                    halved(&mut self.generator)
                } else {
                    all(false)
                },
            )?;
        }
        Ok(flips)
    }

    /// Has a run that is drawn differ in the value of a latch that is drawn among those at these positions.
    fn flip_one(&mut self, flips: &mut [u64x4], firsts: &[usize]) {
        let drawn = self.generator.next_word();
        if firsts.is_empty() {
            return;
        }
        let place = (drawn / 256 % firsts.len() as u64) as usize;
        if let Some(position) = firsts.get(place).copied()
            && position < flips.len()
        {
            flips[position] = flipped(flips[position], (drawn % 256) as usize);
        }
    }

    /// Has runs that are drawn differ so.
    fn flip_some(&mut self, flips: &mut [u64x4], firsts: &[usize]) {
        for _ in 0..FLIPS {
            self.flip_one(flips, firsts);
        }
    }

    /// Has each latch differ as the first one of its class does, and those that are equal to something else not at all.
    fn spread(&self, flips: &mut [u64x4]) {
        'spreading: for position in 0..flips.len() {
            let first = self.first_latch();
            let lead = self.classes.lead(first.saturating_add(position));
            flips[position] = match flips.get(lead.wrapping_sub(first)) {
                Some(flip) => *flip,
                None => all(false),
            };
        }
    }

    /// In which runs each latch differs from its value in the first one: those of new classes, from `born` on, in half of the
    /// runs, and of others a few in each run. The latches of a class differ in the same runs.
    fn class_flips(&mut self, alloc: Global, born: usize) -> Result<Vec<u64x4>, Refused> {
        let mut firsts = Vec::new(alloc);
        let mut flips = self.born_flips(alloc, born, &mut firsts)?;
        self.flip_some(flips.as_mut_slice(), firsts.as_slice());
        self.spread(flips.as_mut_slice());
        Ok(flips)
    }

    /// In which runs an input differs from its value in the first one.
    fn input_flip(&mut self) -> u64x4 {
        let words = rare(&mut self.generator).to_array();
        u64x4::from_array([words[0] / 2 * 2, 0, words[2], words[3]])
    }

    /// Situations around this one: those of first states, or some in which the latches of each class are equal.
    fn around(
        &mut self,
        alloc: Global,
        situation: &[bool],
        born: usize,
        is_later: bool,
    ) -> Result<Vec<u64x4>, Refused> {
        let flips = if is_later {
            self.class_flips(alloc, born)?
        } else {
            self.reset_flips(alloc)?
        };
        let mut row = Vec::new(alloc);
        for (place, each) in situation.iter().enumerate() {
            let flip = match flips.get(place) {
                Some(flip) => *flip,
                None => self.input_flip(),
            };
            push(&mut row, all(*each) ^ flip)?;
        }
        Ok(row)
    }

    /// Simulates a situation in which the signals of each class are equal, or a first one, and those around it. Where a class is
    /// split, again from the situation that did so.
    pub(crate) fn chase(
        &mut self,
        alloc: Global,
        first: Vec<bool>,
        is_later: bool,
        budget: &mut Budget,
    ) -> Result<(), Refused>
        ensures { Spends budget.old budget.new }
    {
        let mut situation = first;
        let mut born = self.classes.count();
        'chasing: while budget.tick() {
            let count = self.classes.count();
            let around = self.step_around(alloc, situation.as_slice(), born, is_later, budget)?;
            let Some(next) = around else {
                return Ok(());
            };
            if is_later && self.implications.len() > 0 {
                self.go_on(alloc, budget)?;
            }
            born = count;
            situation = next;
        }
        Ok(())
    }

    /// The states behind those that were simulated last, with inputs that are drawn.
    fn successors(&mut self, alloc: Global) -> Result<Vec<u64x4>, Refused>
        requires stepped { IsSome self.old.runs.wide.now }
        ensures runs { self.new.runs ≡ self.old.runs }
    {
        let mut row = Vec::new(alloc);
        for place in 0..self.pair.circuit.inputs().len() {
            let values = match self.circuit.latches().get(place) {
                Some(latch) => self.runs.value(self.pair.signal(latch.lit).later),
                None => uniform(&mut self.generator),
            };
            push(&mut row, values)?;
        }
        Ok(row)
    }

    /// Goes on from the situations that were simulated last, as long as that splits classes.
    fn go_on(&mut self, alloc: Global, budget: &mut Budget) -> Result<(), Refused>
        requires stepped { IsSome self.old.runs.wide.now }
        ensures spends { Spends budget.old budget.new }
    {
        'going: for _ in 0..FRAMES {
            if !self.pay_twice(budget) {
                return Ok(());
            }
            let row = self.successors(alloc)?;
            let Some(_) = self.split_from(alloc, row.as_slice(), true)? else {
                return Ok(());
            };
        }
        Ok(())
    }

    /// Pays for the simulation of both times and a look at each implication. False where nothing is left of the budget then.
    fn pay_twice(&self, budget: &mut Budget) -> bool
        ensures { Spends budget.old budget.new }
    {
        budget.spend((self.implications.len() / IMPLICATIONS) as u64);
        pay(&self.pair.circuit, budget)
    }

    /// Simulates a situation and those around it. Answers the one that split a class, where one did.
    fn step_around(
        &mut self,
        alloc: Global,
        situation: &[bool],
        born: usize,
        is_later: bool,
        budget: &mut Budget,
    ) -> Result<Option<Vec<bool>>, Refused>
        ensures spends { Spends budget.old budget.new }
        ensures stepped { IfOk result (λ r. IsSome r → IsSome self.new.runs.wide.now) }
    {
        if !self.pay_twice(budget) {
            return Ok(None);
        }
        let row = self.around(alloc, situation, born, is_later)?;
        match self.split_from(alloc, row.as_slice(), is_later)? {
            Some(run) => Ok(Some(row_of(alloc, row.as_slice(), run)?)),
            None => Ok(None),
        }
    }

    /// The runs that keep the constraints, and at the first of two times have the signals of each class equal.
    fn running(&self, is_later: bool) -> u64x4
        requires stepped { IsSome self.now.runs.wide.now }
    {
        let mut running = all(true);
        for constraint in self.pair.constraints(is_later) {
            running = both(running, self.runs.value(*constraint));
        }
        if is_later {
            let agreeing = self.classes.agreeing(&self.runs, running);
            self.implications.agreeing(&self.runs, agreeing)
        } else {
            running
        }
    }

    /// Splits the classes by these situations. Answers a run that split one.
    fn split_from(
        &mut self,
        alloc: Global,
        row: &[u64x4],
        is_later: bool,
    ) -> Result<Option<u32>, Refused>
        ensures stepped { IfOk result (λ r. IsSome r → IsSome self.new.runs.wide.now) }
    {
        if !self.runs.step(row) {
            return Ok(None);
        }
        let running = self.running(is_later);
        if none(running) {
            return Ok(None);
        }
        self.implications.split(&self.runs, running, is_later);
        self.classes.split(alloc, &self.runs, running, is_later)
    }

    /// Simulates a situation alone. False where that is none of the circuit at both times.
    fn step_at(&mut self, alloc: Global, situation: &[bool]) -> Result<bool, Refused>
        ensures { IfOk result (λ b. IsTrue b → IsSome self.new.runs.wide.now) }
    {
        let mut row = Vec::new(alloc);
        for each in situation {
            push(&mut row, all(*each))?;
        }
        Ok(self.runs.step(row.as_slice()))
    }

    /// Which of what is taken to be equal was simulated as not so.
    fn differing(&self, alloc: Global, taken: &[Taken]) -> Result<Vec<Taken>, Refused>
        requires stepped { IsSome self.now.runs.wide.now }
    {
        let mut differing = Vec::new(alloc);
        for each in taken {
            let lit = Lit(each.variable.saturating_mul(2));
            let differs = value(self.runs.value(lit) ^ self.runs.value(each.equal), 0);
            if differs && differing.len() < MOST_TAKEN {
                push(&mut differing, *each)?;
            }
        }
        Ok(differing)
    }

    /// Which implications the situation violates that was simulated last: none, where they are not taken to hold.
    fn violated_implications(&self, alloc: Global, is_later: bool) -> Result<Vec<usize>, Refused>
        requires stepped { IsSome self.now.runs.wide.now }
    {
        let most = if is_later { MOST_VIOLATED } else { 0 };
        self.implications.violated(alloc, &self.runs, most)
    }

    /// What is taken to hold and does not so in a situation: what is taken to be equal, and where a step later is asked about,
    /// implications. Nothing, where the budget is exhausted.
    pub(crate) fn violated(
        &mut self,
        alloc: Global,
        taken: &[Taken],
        situation: &[bool],
        is_later: bool,
        budget: &mut Budget,
    ) -> Result<Violated, Refused>
        ensures { Spends budget.old budget.new }
    {
        if !self.pay_twice(budget) || !self.step_at(alloc, situation)? {
            return Ok(Violated {
                taken: Vec::new(alloc),
                implications: Vec::new(alloc),
            });
        }
        Ok(Violated {
            taken: self.differing(alloc, taken)?,
            implications: self.violated_implications(alloc, is_later)?,
        })
    }
}
