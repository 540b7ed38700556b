//! Which steps of a chain rest on which others.

use crate::derivation::Derivation;
use base::{Refused, push};
use std::alloc::Global;

/// Of a variable that the denied literals set.
const DENIED: u32 = u32::MAX;

/// A hint that sets a literal on which one later hint alone rests.
#[derive(Clone, Copy)]
pub struct Pair {
    /// the id of the hint that sets it
    pub first: u32,
    /// the id of the one that rests on it
    pub second: u32,
    /// the step of the first
    pub step: usize,
    /// the step of the second
    pub by: usize,
}

impl Pair {
    /// Both ids as one number.
    pub fn key(self) -> u64 {
        u64::from(self.first) << 32 | u64::from(self.second)
    }

    /// Whether both have a step in common.
    pub fn meets(self, other: Pair) -> bool {
        self.step == other.step
            || self.step == other.by
            || self.by == other.step
            || self.by == other.by
    }
}

/// How many later steps rest on a step.
#[derive(Clone, Copy)]
struct Use {
    count: u32,
    /// the last of them
    by: usize,
}

/// Which steps of a chain rest on which others.
#[derive(Drop)]
pub struct Resting {
    /// for each variable 1 more than the step that sets it, or 0
    setters: Vec<u32>,
    /// the variables that are set
    set: Vec<u32>,
    /// for each step what rests on it
    uses: Vec<Use>,
}

impl Resting {
    /// No chain of the derivation yet.
    pub fn new(alloc: Global, derivation: &Derivation) -> Result<Resting, Refused> {
        let mut setters = Vec::new(alloc);
        for _ in 0..=derivation.vars() {
            push(&mut setters, 0)?;
        }
        Ok(Resting {
            setters,
            set: Vec::new(alloc),
            uses: Vec::new(alloc),
        })
    }

    /// The variable is set by what `setter` says.
    fn set(&mut self, variable: u32, setter: u32) -> Result<(), Refused> {
        if let Some(place) = self.setters.get_mut(variable as usize) {
            *place = setter;
        }
        push(&mut self.set, variable)
    }

    /// Goes back to no chain.
    fn clear(&mut self) {
        for variable in self.set.as_slice() {
            if let Some(place) = self.setters.get_mut(*variable as usize) {
                *place = 0;
            }
        }
        self.set.clear();
        self.uses.clear();
    }

    /// Notes that the step rests on what sets the literal, or answers that nothing does.
    fn rest(&mut self, step: usize, literal: i32) -> bool {
        match self.setters.get(literal.unsigned_abs() as usize) {
            Some(0) => true,
            Some(setter) => {
                if let Some(uses) = self.uses.get_mut(setter.saturating_sub(1) as usize) {
                    uses.count = uses.count.saturating_add(1);
                    uses.by = step;
                }
                false
            }
            None => false,
        }
    }

    /// Takes the clause of the next step.
    fn take(&mut self, step: usize, clause: &[i32]) -> Result<(), Refused> {
        let mut variable = 0;
        for literal in clause {
            if self.rest(step, *literal) {
                variable = literal.unsigned_abs();
            }
        }
        push(&mut self.uses, Use { count: 0, by: 0 })?;
        if variable != 0 {
            let setter = self.uses.len().min(u32::MAX as usize) as u32;
            self.set(variable, setter)?;
        }
        Ok(())
    }

    /// Takes the chain of the derived clause at a place.
    fn take_chain(&mut self, derivation: &Derivation, place: usize) -> Result<(), Refused> {
        self.clear();
        for literal in derivation.clause(derivation.id(place)) {
            self.set(literal.unsigned_abs(), DENIED)?;
        }
        for (step, hint) in derivation.hints(place).iter().enumerate() {
            self.take(step, derivation.clause(*hint))?;
        }
        Ok(())
    }

    /// The pairs of the chain of the derived clause at a place.
    pub fn pairs(
        &mut self,
        alloc: Global,
        derivation: &Derivation,
        place: usize,
    ) -> Result<Vec<Pair>, Refused> {
        self.take_chain(derivation, place)?;
        let hints = derivation.hints(place);
        let mut pairs = Vec::new(alloc);
        for (step, first) in hints.iter().enumerate() {
            if let Some(uses) = self.uses.get(step)
                && uses.count == 1
                && let Some(second) = hints.get(uses.by)
            {
                let pair = Pair {
                    first: *first,
                    second: *second,
                    step,
                    by: uses.by,
                };
                push(&mut pairs, pair)?;
            }
        }
        Ok(pairs)
    }
}
