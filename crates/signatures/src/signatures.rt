//! Classes of variables with equal signatures.

use crate::function::{FREE, Function};
use crate::lanes::{all, in_lane, negated_if, rare};
use crate::leaders::Leaders;
use crate::near::{Near, part_of};
use crate::runs::Runs;
use base::{Refused, push};
use rand_core::SeedableRng;
use rand_pcg::Lcg128Xsl64;
use solver::Part;
use std::alloc::Global;
use std::simd::u64x4;

/// How many times there are 256 runs at most.
const MOST_RUNS: usize = 16;

/// How many counterexamples are collected for 256 runs. Each has a lane for itself and for runs near it.
const COUNTEREXAMPLES: u32 = 16;

/// How many functions are near a pair at most.
const NEAR: usize = 200;

/// After how many pairs in a row that were not shown equal a leader is not paired any more.
const MISSES: u32 = 3;

/// How many variables in 256 runs cost a step.
const VARIABLES: u64 = 4;

/// Values of variables in random runs, by which functions may be equal, and classes of them.
#[derive(Drop)]
pub struct Signatures {
    /// for each variable what it is of others
    functions: Vec<Function>,
    runs: Vec<Runs>,
    /// runs near counterexamples, of which the values of functions are not known yet
    pending: Runs,
    /// how many counterexamples these have
    count: u32,
    /// for each variable a number for its values in all runs, up to a negation
    numbers: Vec<u64>,
    leaders: Leaders,
    /// for each variable how many pairs with it in a row were not shown equal
    misses: Vec<u32>,
    /// how many variables are in classes, or before those that are
    classed: u32,
    near: Near,
    generator: Lcg128Xsl64,
    /// how often the values of a variable in 256 runs were made
    made: u64,
}

/// Whether the values are those of a negation: whether they are true in the first run.
fn is_negated(values: u64x4) -> bool {
    values.to_array()[0] & 1 == 1
}

/// A number for the values behind those of which there is this number.
fn mixed(number: u64, values: u64x4) -> u64 {
    let mut mixed = number;
    for word in &values.to_array() {
        mixed = (mixed ^ *word).wrapping_mul(0x9E37_79B9_7F4A_7C15);
        mixed ^= mixed >> 29;
    }
    mixed
}

/// Adds the next variable to all runs.
fn add_to_all(
    all: &mut [Runs],
    function: Function,
    generator: &mut Lcg128Xsl64,
) -> Result<(), Refused> {
    for runs in all {
        runs.add(function, generator)?;
    }
    Ok(())
}

/// The runs of the counterexample of this number, without its own.
fn runs_near(count: u32) -> u64x4 {
    in_lane(0xFFFE << (count % 4 * 16), count / 4)
}

/// The runs of the counterexample of this number.
fn runs_of(count: u32) -> u64x4 {
    in_lane(0xFFFF << (count % 4 * 16), count / 4)
}

impl Signatures {
    /// The variable that is none and the one that is true, in 256 runs.
    pub fn new(alloc: Global) -> Result<Signatures, Refused> {
        let mut signatures = Signatures {
            functions: Vec::new(alloc),
            runs: Vec::new(alloc),
            pending: Runs::new(alloc)?,
            count: 0,
            numbers: Vec::new(alloc),
            leaders: Leaders::new(alloc, 1024)?,
            misses: Vec::new(alloc),
            classed: 1,
            near: Near::new(alloc)?,
            generator: Lcg128Xsl64::seed_from_u64(0),
            made: 0,
        };
        push(&mut signatures.functions, FREE)?;
        push(&mut signatures.functions, FREE)?;
        push(&mut signatures.runs, Runs::new(alloc)?)?;
        push(&mut signatures.numbers, mixed(0, all(false)))?;
        push(&mut signatures.numbers, mixed(0, all(false)))?;
        push(&mut signatures.misses, 0)?;
        push(&mut signatures.misses, 0)?;
        signatures.candidate(1)?;
        Ok(signatures)
    }

    /// The variable that `add` notes next.
    pub fn len(&self) -> u32 {
        self.functions.len().min(2_147_483_647) as u32
    }

    /// What all of this cost so far, in steps.
    pub fn cost(&self) -> u64 {
        self.made / VARIABLES
    }

    /// Whether the variable is taken as its negation.
    fn is_negated(&self, variable: usize) -> bool {
        match self.runs.first() {
            Some(runs) => is_negated(runs.of(variable)),
            None => false,
        }
    }

    /// Notes the next variable: it is free where the first of the literals is 0, else the function of them.
    pub fn add(&mut self, table: u16, leaves: (i32, i32, i32, i32)) -> Result<(), Refused> {
        let function = Function { table, leaves };
        push(&mut self.functions, function)?;
        push(&mut self.misses, 0)?;
        self.near.add()?;
        self.pending.add_open(function, &mut self.generator)?;
        add_to_all(self.runs.as_mut_slice(), function, &mut self.generator)?;
        self.made = self.made.saturating_add(self.runs.len() as u64);
        let number = self.number_in_all(self.numbers.len());
        push(&mut self.numbers, number)
    }

    /// A number for the values of a variable in all runs.
    fn number_in_all(&self, variable: usize) -> u64 {
        let negated = self.is_negated(variable);
        let mut number = 0;
        for runs in &self.runs {
            number = mixed(number, negated_if(runs.of(variable), negated));
        }
        number
    }

    /// Makes room for the leaders of all variables.
    fn make_room(&mut self) -> Result<(), Refused> {
        let places = self.leaders.places();
        if self.functions.len() > places / 2 && places < 268_435_456 {
            let alloc = *self.numbers.allocator();
            self.leaders = Leaders::new(alloc, places.saturating_mul(2))?;
            self.lead_all();
        }
        Ok(())
    }

    /// Has the variables lead classes that were classed so far.
    fn lead_all(&mut self) {
        self.leaders.clear();
        for variable in 1..self.classed {
            self.leaders.lead(self.numbers.as_slice(), variable);
        }
    }

    /// Whether pairs with the leader are not shown equal.
    fn is_closed(&self, leader: u32) -> bool {
        match self.misses.get(leader as usize) {
            Some(misses) => *misses >= MISSES,
            None => true,
        }
    }

    /// Notes whether a variable was shown to be equal to its candidate, this literal. A leader with which too many in a row were
    /// not is no candidate any more.
    pub fn note_answer(&mut self, candidate: i32, is_equal: bool) {
        if let Some(misses) = self.misses.get_mut(candidate.unsigned_abs() as usize) {
            *misses = if is_equal {
                0
            } else {
                misses.saturating_add(1)
            };
        }
    }

    /// A literal of an earlier variable with the same values in all runs so far. Where there is none, the variable leads its class
    /// from now on.
    pub fn candidate(&mut self, variable: u32) -> Result<Option<i32>, Refused> {
        self.make_room()?;
        let leader = self.leaders.lead(self.numbers.as_slice(), variable);
        self.classed = self.classed.max(variable.saturating_add(1));
        if leader == variable || leader > 2_147_483_647 || self.is_closed(leader) {
            return Ok(None);
        }
        let literal = leader as i32;
        let is_opposite = self.is_negated(leader as usize) != self.is_negated(variable as usize);
        Ok(Some(if is_opposite {
            literal.wrapping_neg()
        } else {
            literal
        }))
    }

    /// The part whose gates name the variables near both, and say nothing.
    pub fn part(&mut self, one: u32, other: u32) -> Result<Part, Refused> {
        let alloc = *self.numbers.allocator();
        let pair = (
            one.min(2_147_483_647) as i32,
            other.min(2_147_483_647) as i32,
        );
        let list = self
            .near
            .list(alloc, self.functions.as_slice(), pair, NEAR)?;
        self.made = self.made.saturating_add(list.len() as u64);
        part_of(alloc, list.as_slice())
    }

    /// Whether the variable is free.
    fn is_free(&self, variable: u32) -> bool {
        match self.functions.get(variable as usize) {
            Some(function) => variable > 1 && function.is_free(),
            None => false,
        }
    }

    /// Has a free variable this value in a counterexample, and mostly in the runs near it.
    fn note(&mut self, variable: u32, value: bool) {
        if self.is_free(variable) {
            let flips = rare(&mut self.generator) & runs_near(self.count);
            let wanted = negated_if(flips, value);
            self.pending
                .change(variable as usize, runs_of(self.count), wanted);
        }
    }

    /// Takes a counterexample: values of a part's variables. Runs near it split the classes, at the latest when some more are known.
    pub fn refine(&mut self, part: &Part, values: &[bool]) -> Result<(), Refused> {
        if self.runs.len() >= MOST_RUNS {
            return Ok(());
        }
        for gate in &part.gates {
            let variable = gate.rhs0.unsigned_abs();
            if let Some(value) = values.get(variable as usize) {
                self.note(variable, *value);
            }
        }
        self.count = self.count.saturating_add(1);
        if self.count >= COUNTEREXAMPLES {
            self.split()?;
        }
        Ok(())
    }

    /// Has the runs near counterexamples count for the variable: its values there, and its number.
    fn compute(&mut self, variable: usize) {
        let negated = self.is_negated(variable);
        if let Some(function) = self.functions.get(variable)
            && let Some(number) = self.numbers.get_mut(variable)
        {
            let values = self.pending.compute(variable, *function);
            *number = mixed(*number, negated_if(values, negated));
        }
    }

    /// Splits the classes by the runs near counterexamples, and collects others.
    fn split(&mut self) -> Result<(), Refused> {
        for variable in 2..self.functions.len() {
            self.compute(variable);
        }
        let alloc = *self.numbers.allocator();
        let runs = self.pending.copy(alloc)?;
        push(&mut self.runs, runs)?;
        self.count = 0;
        self.made = self.made.saturating_add(self.functions.len() as u64);
        self.lead_all();
        Ok(())
    }
}
