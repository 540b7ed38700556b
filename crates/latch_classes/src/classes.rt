//! Classes of latches.

use base::{Refused, insert, push};
use graph::Latch;
use simulate::lanes::{all, both, lowest, negated_if, none};
use std::alloc::Global;
use std::collections::BTreeMap;
use std::simd::u64x4;

/// Latches that may be equal, constant or opposite. Each is taken as it is or negated, so that it begins with false;
/// then the latches of a class may be equal, and those of the first class may be false.
#[derive(Drop)]
pub struct Classes {
    /// the class of each latch, in their order; none where the reset leaves it open
    class_of: Vec<Option<usize>>,
    /// the position of a latch of each class, with which the others are compared; none for the first class
    leads: Vec<Option<usize>>,
}

/// The values of the latch at a position, negated where it is reset to 1.
fn normal(latches: &[Latch], states: &[u64x4], place: usize) -> u64x4 {
    match (latches.get(place), states.get(place)) {
        (Some(latch), Some(values)) => negated_if(*values, latch.reset.0 == 1),
        _ => all(false),
    }
}

/// A number for the values in a class.
fn signature(class: usize, values: u64x4) -> u64 {
    let mut number = class as u64;
    for word in &values.to_array() {
        number = (number ^ *word).wrapping_mul(0x9E37_79B9_7F4A_7C15);
        number ^= number >> 29;
    }
    number
}

impl Classes {
    /// All latches that are reset to 0 or 1 in the first class.
    pub(crate) fn new(alloc: Global, latches: &[Latch]) -> Result<Classes, Refused> {
        let mut class_of = Vec::new(alloc);
        for latch in latches {
            push(
                &mut class_of,
                if latch.reset.0 < 2 { Some(0) } else { None },
            )?;
        }
        let mut leads = Vec::new(alloc);
        push(&mut leads, None)?;
        Ok(Classes { class_of, leads })
    }

    /// How many classes there are.
    pub fn count(&self) -> usize {
        self.leads.len()
    }

    /// The class of the latch at a position.
    pub fn class_of(&self, place: usize) -> Option<usize> {
        match self.class_of.get(place) {
            Some(class) => *class,
            None => None,
        }
    }

    /// The position of the latch with which those of the class are compared.
    pub fn lead_of(&self, class: usize) -> Option<usize> {
        match self.leads.get(class) {
            Some(lead) => *lead,
            None => None,
        }
    }

    /// The values of a class: those of its lead.
    pub(crate) fn values_of(&self, latches: &[Latch], states: &[u64x4], class: usize) -> u64x4 {
        match self.lead_of(class) {
            Some(lead) => normal(latches, states, lead),
            None => all(false),
        }
    }

    /// Puts the latch at a position into another class.
    fn set_class(&mut self, place: usize, class: usize) {
        if place < self.class_of.len() {
            self.class_of[place] = Some(class);
        }
    }

    /// Puts the latch at a position into a class of its own.
    pub fn part(&mut self, place: usize) -> Result<usize, Refused> {
        let class = self.leads.len();
        push(&mut self.leads, Some(place))?;
        self.set_class(place, class);
        Ok(class)
    }

    /// Moves the latch at a position out of its class where the values differ. Those that leave a class with the same
    /// values go to one class. Answers a run that told them apart, where this made a new class.
    fn compare(
        &mut self,
        latches: &[Latch],
        states: &[u64x4],
        running: u64x4,
        place: usize,
        parted: &mut BTreeMap<u64, usize>,
    ) -> Result<Option<u32>, Refused> {
        let Some(class) = self.class_of(place) else {
            return Ok(None);
        };
        let values = normal(latches, states, place);
        let differing = both(values ^ self.values_of(latches, states, class), running);
        if none(differing) {
            return Ok(None);
        }
        let number = signature(class, both(values, running));
        if let Some(other) = parted.get(&number) {
            self.set_class(place, *other);
            return Ok(None);
        }
        let other = self.part(place)?;
        insert(parted, number, other)?;
        Ok(lowest(differing))
    }

    /// Splits the classes by the states of the runs that are in. Answers a run that told latches apart, where this
    /// made a new class.
    pub(crate) fn split(
        &mut self,
        alloc: Global,
        latches: &[Latch],
        states: &[u64x4],
        running: u64x4,
    ) -> Result<Option<u32>, Refused> {
        let mut parted = BTreeMap::new(alloc);
        let mut told = None;
        for place in 0..latches.len() {
            if let Some(run) = self.compare(latches, states, running, place, &mut parted)? {
                told = Some(run);
            }
        }
        Ok(told)
    }
}
