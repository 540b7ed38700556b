//! Which variable to decide: the one that was most active in the last conflicts.
//!
//! Each variable that a conflict rests on gains activity, and what a conflict adds grows from one to the
//! next, so that old conflicts fade (EVSIDS, as in MiniSat by Eén and Sörensson 2003). A heap has the most
//! active variable at its top. Its entries have the activities beside the variables, so that comparing two
//! entries reads the heap alone. Below each are four and not two: so it is half as deep, and what is compared
//! lies together. A heap out of order costs time alone.

use crate::table::Table;
use base::{Refused, push};
use std::alloc::Global;

/// How many entries are below each.
const BELOW: usize = 4;

/// No heap of 32-bit variables is deeper.
const DEPTH: u32 = 17;

/// What a conflict adds grows by this, so that activity fades to 95 hundredths.
const GROWTH: f64 = 1.0526315789473684;

/// Above this all activities are made small again.
const GREATEST: f64 = 1e100;

/// A variable in the heap, as its positive literal.
#[derive(Clone, Copy)]
struct Entry {
    variable: i32,
    activity: f64,
}

/// The variables that may be unassigned, the most active first.
#[derive(Drop)]
pub struct Heap {
    entries: Vec<Entry>,
    /// of each variable one more than its index in the heap, or 0
    indices: Table<u32>,
    activities: Table<f64>,
    /// what the next conflict adds
    increment: f64,
}

/// The index of a variable in tables.
#[inline]
fn variable_index(literal: i32) -> usize {
    literal.unsigned_abs() as usize
}

/// The first of the most active ones among the first four entries, with its index.
#[inline]
fn most_active(entries: &[Entry]) -> Option<(usize, Entry)> {
    let [a, b, c, d, ..] = entries else {
        return most_active_of_few(entries);
    };
    let left = if b.activity > a.activity {
        (1, *b)
    } else {
        (0, *a)
    };
    let right = if d.activity > c.activity {
        (3, *d)
    } else {
        (2, *c)
    };
    if right.1.activity > left.1.activity {
        Some(right)
    } else {
        Some(left)
    }
}

/// The first of the most active entries, with its index.
fn most_active_of_few(entries: &[Entry]) -> Option<(usize, Entry)> {
    let mut best = (0, *entries.first()?);
    for (at, entry) in entries.iter().enumerate() {
        if entry.activity > best.1.activity {
            best = (at, *entry);
        }
    }
    Some(best)
}

impl Heap {
    /// No variables.
    pub fn new(alloc: Global) -> Heap {
        Heap {
            entries: Vec::new(alloc),
            indices: Table::new(alloc),
            activities: Table::new(alloc),
            increment: 1.0,
        }
    }

    /// Makes room for the next variable, from 0 on, which is not in the heap yet.
    pub fn grow(&mut self) -> Result<(), Refused> {
        self.indices.push(0)?;
        self.activities.push(0.0)
    }

    /// The variable of the literal, as an entry.
    #[inline]
    fn entry(&self, literal: i32) -> Entry {
        Entry {
            variable: literal.wrapping_abs(),
            activity: self.activities.at(variable_index(literal), 0.0),
        }
    }

    #[inline]
    fn set(&mut self, index: usize, entry: Entry) {
        if index < self.entries.len() && index < 4_294_967_295 {
            self.entries[index] = entry;
            self.indices
                .put(variable_index(entry.variable), index as u32 + 1);
        }
    }

    /// Puts the entry at the index, or above it where those above are less active.
    fn percolate_up(&mut self, index: usize, entry: Entry) {
        let mut index = index;
        for _ in 0..DEPTH {
            if index == 0 {
                break;
            }
            let above = (index - 1) / BELOW;
            let Some(parent) = self.entries.get(above).copied() else {
                break;
            };
            if parent.activity >= entry.activity {
                break;
            }
            self.set(index, parent);
            index = above;
        }
        self.set(index, entry);
    }

    /// The most active one of those below an index, with its index.
    #[inline]
    fn child(&self, index: usize) -> Option<(usize, Entry)> {
        let first = index.wrapping_mul(BELOW).wrapping_add(1);
        let (at, child) = most_active(self.entries.get(first..)?)?;
        Some((first.wrapping_add(at), child))
    }

    /// Puts the entry at the index, or below it where those below are more active.
    fn percolate_down(&mut self, index: usize, entry: Entry) {
        let mut index = index;
        for _ in 0..DEPTH {
            let Some((below, child)) = self.child(index) else {
                break;
            };
            if entry.activity >= child.activity {
                break;
            }
            self.set(index, child);
            index = below;
        }
        self.set(index, entry);
    }

    /// How many variables it has.
    pub fn len(&self) -> usize {
        self.entries.len()
    }

    /// Puts the literal's variable into the heap, where it isn't there.
    #[inline]
    pub fn insert(&mut self, literal: i32) -> Result<(), Refused> {
        if self.indices.at(variable_index(literal), 1) == 0 {
            let index = self.entries.len();
            let entry = self.entry(literal);
            push(&mut self.entries, entry)?;
            self.percolate_up(index, entry);
        }
        Ok(())
    }

    /// Takes all variables out. Their activities stay.
    pub fn clear(&mut self) {
        for entry in self.entries.iter() {
            self.indices.put(variable_index(entry.variable), 0);
        }
        self.entries.clear();
    }

    /// Takes the most active variable out.
    pub fn pop(&mut self) -> Option<i32> {
        let top = self.entries.first().copied()?;
        let last = self.entries.pop()?;
        self.indices.put(variable_index(top.variable), 0);
        if last.variable != top.variable {
            self.percolate_down(0, last);
        }
        Some(top.variable)
    }

    /// A conflict rests on the literal's variable.
    pub fn bump(&mut self, literal: i32) {
        let variable = variable_index(literal);
        let activity = self.activities.at(variable, 0.0) + self.increment;
        self.activities.put(variable, activity);
        if activity > GREATEST {
            self.rescale();
        }
        let index = self.indices.at(variable, 0);
        if index > 0 {
            let entry = self.entry(literal);
            self.percolate_up(index as usize - 1, entry);
        }
    }

    /// Makes all activities small again.
    fn rescale(&mut self) {
        for variable in 0..self.activities.len() {
            let activity = self.activities.at(variable, 0.0);
            self.activities.put(variable, activity * 1e-100);
        }
        for index in 0..self.entries.len() {
            self.entries[index].activity *= 1e-100;
        }
        self.increment *= 1e-100;
    }

    /// The next conflict adds more.
    pub fn decay(&mut self) {
        self.increment *= GROWTH;
    }
}
