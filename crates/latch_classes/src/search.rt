//! Splitting classes by simulation.

ghost use Rattle.base.specs.Budget.{Spends};

use crate::classes::Classes;
use base::{Budget, Refused, push};
use graph::{Latch, Model};
use rand_core::SeedableRng;
use rand_pcg::Lcg128Xsl64;
use random_runs::{Bias, Runs, draw_biases, draw_row, rare, uniform};
use simulate::lanes::{all, both, negated_if, value};
use std::alloc::Global;
use std::simd::u64x4;

/// How many runs from the first states are simulated, and how many steps of each.
const RESETS: u32 = 2;

const STEPS: u32 = 64;

/// How many steps are simulated from other states.
const FEW_STEPS: u32 = 3;

/// How many tries that split nothing end the simulation.
const QUIET: u32 = 8;

/// Gates that are simulated in 256 runs for one step of the budget.
const GATES: usize = 64;

/// Classes of a circuit's latches, and the means to split them.
#[derive(Drop)]
pub struct Search<'a> {
    circuit: &'a Model,
    /// the same circuit, but that it begins in any state, where that is a circuit; else as it is
    opened: &'a Model,
    /// the classes
    pub classes: Classes,
    generator: Lcg128Xsl64,
}

/// The state of a circuit and its inputs, in their order.
#[derive(Drop)]
pub struct Situation {
    /// the latches' values
    pub state: Vec<bool>,
    /// the inputs' values
    pub inputs: Vec<bool>,
}

/// Pays for the simulation of one step. False where the budget is exhausted.
fn pay(circuit: &Model, budget: &mut Budget) -> bool
    ensures { Spends budget.old budget.new }
{
    circuit.well_formed();
    let cost = (circuit.gates().len() + circuit.latches().len()) / GATES + 1;
    for _ in 0..cost {
        if !budget.tick() {
            return false;
        }
    }
    true
}

/// The values of one run.
fn row_of(alloc: Global, values: &[u64x4], run: u32) -> Result<Vec<bool>, Refused> {
    let mut row = Vec::new(alloc);
    for each in values {
        push(&mut row, run < 256 && value(*each, run))?;
    }
    Ok(row)
}

/// The situation of one run.
fn situation_in(
    alloc: Global,
    states: &[u64x4],
    inputs: &[u64x4],
    run: u32,
) -> Result<Situation, Refused> {
    let state = row_of(alloc, states, run)?;
    let inputs = row_of(alloc, inputs, run)?;
    Ok(Situation { state, inputs })
}

/// The same values in each run.
fn spread(alloc: Global, row: &[bool]) -> Result<Vec<u64x4>, Refused> {
    let mut values = Vec::new(alloc);
    for each in row {
        push(&mut values, all(*each))?;
    }
    Ok(values)
}

/// Which runs differ from the first: none of the second word, and few of the third.
fn near(generator: &mut Lcg128Xsl64) -> u64x4 {
    let words = rare(generator).to_array();
    u64x4::from_array([words[0] / 2 * 2, 0, words[2] & words[3], words[3]])
}

/// Which runs differ from the first, of a class that is new: half.
fn halved(generator: &mut Lcg128Xsl64) -> u64x4 {
    let words = uniform(generator).to_array();
    u64x4::from_array([words[0] / 2 * 2, words[1], words[2], words[3]])
}

/// The first values of a latch.
fn first_value(latch: Latch, generator: &mut Lcg128Xsl64) -> u64x4 {
    if latch.reset.0 == 0 {
        return all(false);
    }
    if latch.reset.0 == 1 {
        return all(true);
    }
    uniform(generator)
}

impl<'a> Search<'a> {
    /// All latches that are reset in one class.
    pub fn new(
        alloc: Global,
        circuit: &'a Model,
        opened: &'a Model,
    ) -> Result<Search<'a>, Refused> {
        Ok(Search {
            circuit,
            opened,
            classes: Classes::new(alloc, circuit.latches())?,
            generator: Lcg128Xsl64::seed_from_u64(0),
        })
    }

    /// States in which the circuit begins.
    fn first_states(&mut self, alloc: Global) -> Result<Vec<u64x4>, Refused> {
        let mut states = Vec::new(alloc);
        for latch in self.circuit.latches() {
            push(&mut states, first_value(*latch, &mut self.generator))?;
        }
        Ok(states)
    }

    /// Splits the classes by the states that the runs have come to.
    fn split(&mut self, alloc: Global, runs: &Runs) -> Result<Option<u32>, Refused> {
        self.classes.split(alloc, self.circuit.latches(), runs.states(), runs.running())
    }

    /// Goes a few steps on by inputs that are drawn with these biases, and splits the classes by what is reached.
    /// Answers whether one was split.
    fn go_on(
        &mut self,
        alloc: Global,
        runs: &mut Runs,
        biases: &[Bias],
        steps: u32,
        budget: &mut Budget,
    ) -> Result<bool, Refused>
        ensures { Spends budget.old budget.new }
    {
        let mut is_split = false;
        'going: for _ in 0..steps {
            if runs.is_over() || !pay(self.circuit, budget) {
                return Ok(is_split);
            }
            let row = draw_row(alloc, biases, &mut self.generator)?;
            runs.step(row.as_slice());
            if self.split(alloc, runs)?.is_some() {
                is_split = true;
            }
        }
        Ok(is_split)
    }

    /// Goes on by inputs whose biases change all eight steps.
    fn go_far(&mut self, alloc: Global, runs: &mut Runs, budget: &mut Budget) -> Result<(), Refused>
        ensures { Spends budget.old budget.new }
    {
        'going: for _ in 0..STEPS / 8 {
            let count = self.circuit.inputs().len();
            let biases = draw_biases(alloc, count, &mut self.generator)?;
            self.go_on(alloc, runs, biases.as_slice(), 8, budget)?;
        }
        Ok(())
    }

    /// Simulates runs of the circuit.
    pub fn simulate(&mut self, alloc: Global, budget: &mut Budget) -> Result<(), Refused>
        ensures { Spends budget.old budget.new }
    {
        'simulating: for _ in 0..RESETS {
            let states = self.first_states(alloc)?;
            if let Some(mut runs) = Runs::begin(alloc, self.opened, states.as_slice())? {
                self.go_far(alloc, &mut runs, budget)?;
            }
        }
        Ok(())
    }

    /// Which runs differ from the first one, in each class; classes from `born` on are new.
    fn flips(&mut self, alloc: Global, born: usize) -> Result<Vec<u64x4>, Refused> {
        let mut flips = Vec::new(alloc);
        push(&mut flips, all(false))?;
        for class in 1..self.classes.count() {
            push(
                &mut flips,
                if class < born {
                    near(&mut self.generator)
                } else {
                    halved(&mut self.generator)
                },
            )?;
        }
        Ok(flips)
    }

    /// The values of a latch whose class has these, changed where the flips say so.
    fn moved(&mut self, states: &[u64x4], flips: &[u64x4], place: usize, latch: Latch) -> u64x4 {
        let Some(class) = self.classes.class_of(place) else {
            return match states.get(place) {
                Some(values) => *values ^ halved(&mut self.generator),
                None => all(false),
            };
        };
        let values = self
            .classes
            .values_of(self.circuit.latches(), states, class);
        let flip = match flips.get(class) {
            Some(flip) => *flip,
            None => all(false),
        };
        negated_if(values ^ flip, latch.reset.0 == 1)
    }

    /// States in which the latches of each class are equal, around these.
    fn around(
        &mut self,
        alloc: Global,
        states: &[u64x4],
        born: usize,
    ) -> Result<Vec<u64x4>, Refused> {
        let flips = self.flips(alloc, born)?;
        let mut moved = Vec::new(alloc);
        for (place, latch) in self.circuit.latches().iter().enumerate() {
            push(
                &mut moved,
                self.moved(states, flips.as_slice(), place, *latch),
            )?;
        }
        Ok(moved)
    }

    /// Inputs around these.
    fn inputs_around(&mut self, alloc: Global, inputs: &[bool]) -> Result<Vec<u64x4>, Refused> {
        let mut row = Vec::new(alloc);
        for each in inputs {
            let words = rare(&mut self.generator).to_array();
            let flip = u64x4::from_array([words[0] / 2 * 2, 0, words[2], words[3]]);
            push(&mut row, all(*each) ^ flip)?;
        }
        Ok(row)
    }

    /// Simulates from random states in which the latches of each class are equal, until several tries split none.
    pub fn shake(&mut self, alloc: Global, budget: &mut Budget) -> Result<(), Refused>
        ensures { Spends budget.old budget.new }
    {
        let mut quiet = 0;
        'shaking: while quiet < QUIET && budget.tick() {
            let born = if quiet % 2 == 0 {
                0
            } else {
                self.classes.count()
            };
            let states = self.shaken(alloc, born)?;
            let Some(mut runs) = Runs::begin(alloc, self.opened, states.as_slice())? else {
                return Ok(());
            };
            if self.go_few(alloc, &mut runs, budget)? {
                quiet = 0;
            } else {
                quiet += 1;
            }
        }
        Ok(())
    }

    /// Random states in which the latches of each class are equal.
    fn shaken(&mut self, alloc: Global, born: usize) -> Result<Vec<u64x4>, Refused> {
        let first = self.first_states(alloc)?;
        self.around(alloc, first.as_slice(), born)
    }

    /// Goes a few steps on. Answers whether a class was split.
    fn go_few(
        &mut self,
        alloc: Global,
        runs: &mut Runs,
        budget: &mut Budget,
    ) -> Result<bool, Refused>
        ensures { Spends budget.old budget.new }
    {
        let count = self.circuit.inputs().len();
        let biases = draw_biases(alloc, count, &mut self.generator)?;
        self.go_on(alloc, runs, biases.as_slice(), FEW_STEPS, budget)
    }

    /// Simulates a step from a situation in which the latches of each class are equal, and from those around it. Where
    /// a class is split, again from the situation that did so.
    pub fn chase(
        &mut self,
        alloc: Global,
        first: Situation,
        budget: &mut Budget,
    ) -> Result<(), Refused>
        ensures { Spends budget.old budget.new }
    {
        let mut situation = first;
        let mut born = self.classes.count();
        'chasing: while budget.tick() {
            let count = self.classes.count();
            let Some(next) = self.step_around(alloc, &situation, born, budget)? else {
                return Ok(());
            };
            born = count;
            situation = next;
        }
        Ok(())
    }

    /// Simulates a step from a situation and from those around it. Answers the situation that split a class, where one did.
    fn step_around(
        &mut self,
        alloc: Global,
        situation: &Situation,
        born: usize,
        budget: &mut Budget,
    ) -> Result<Option<Situation>, Refused>
        ensures { Spends budget.old budget.new }
    {
        if !pay(self.circuit, budget) {
            return Ok(None);
        }
        let spread = spread(alloc, situation.state.as_slice())?;
        let states = self.around(alloc, spread.as_slice(), born)?;
        let inputs = self.inputs_around(alloc, situation.inputs.as_slice())?;
        match self.step_from(alloc, states.as_slice(), inputs.as_slice(), budget)? {
            Some(run) => Ok(Some(situation_in(alloc, states.as_slice(), inputs.as_slice(), run)?)),
            None => Ok(None),
        }
    }

    /// Simulates a step from these states by these inputs, and a few more where it splits no class. Answers a run that split one.
    fn step_from(
        &mut self,
        alloc: Global,
        states: &[u64x4],
        inputs: &[u64x4],
        budget: &mut Budget,
    ) -> Result<Option<u32>, Refused>
        ensures { Spends budget.old budget.new }
    {
        let Some(mut runs) = Runs::begin(alloc, self.opened, states)? else {
            return Ok(None);
        };
        runs.step(inputs);
        let run = self.split(alloc, &runs)?;
        if run.is_none() {
            self.go_few(alloc, &mut runs, budget)?;
        }
        Ok(run)
    }
}
