//! The levels of the trail.
//!
//! A level is a decision with what follows from it; level 0 is what holds without decisions. The
//! assumptions have the first levels, in order, and an assumption that is true already has a
//! level without a decision, so that the level alone says which assumption is next.

use crate::guide::Guide;
use crate::table::Table;
use base::{Refused, push};
use solver::count;
use std::alloc::Global;

/// Where a variable's literal came on the trail.
#[derive(Clone, Copy)]
struct Entry {
    level: u32,
    trail_index: u32,
}

/// A variable that was never on the trail.
const NEVER: Entry = Entry {
    level: 0,
    trail_index: 0,
};

/// Where a level begins.
#[derive(Clone, Copy)]
struct Start {
    /// on the trail
    trail_index: usize,
    /// what `Decisions::justified` was then
    justified: usize,
}

/// Where each level begins, and the level and the trail index of each variable that is on the trail.
#[derive(Drop)]
pub struct Levels {
    /// where each level but 0 begins
    starts: Vec<Start>,
    /// of each variable
    entries: Table<Entry>,
    /// of each level the stamp of the last count that met it
    stamps: Table<u32>,
    /// the stamp of the last count
    stamp: u32,
}

impl Levels {
    /// No level but 0, and no variables.
    pub fn new(alloc: Global) -> Levels {
        Levels {
            starts: Vec::new(alloc),
            entries: Table::new(alloc),
            stamps: Table::new(alloc),
            stamp: 0,
        }
    }

    /// Makes room for the next variable, from 0 on.
    pub fn grow(&mut self) -> Result<(), Refused> {
        self.stamps.push(0)?;
        self.entries.push(NEVER)
    }

    /// The decision level.
    #[inline]
    pub fn current(&self) -> usize {
        self.starts.len()
    }

    /// The level of a literal that is on the trail, or whose negation is.
    #[inline]
    pub fn level_of(&self, literal: i32) -> usize {
        self.entries
            .at(literal.unsigned_abs() as usize, NEVER)
            .level as usize
    }

    /// The trail index of such a literal.
    #[inline]
    pub fn trail_index_of(&self, literal: i32) -> usize {
        self.entries
            .at(literal.unsigned_abs() as usize, NEVER)
            .trail_index as usize
    }

    /// How many levels the literals are of (literal block distance).
    pub fn glue(&mut self, literals: &[i32]) -> u32 {
        self.stamp = self.stamp.wrapping_add(1);
        let mut glue = 0u32;
        for literal in literals {
            let level = self.level_of(*literal);
            if self.stamps.at(level, self.stamp) != self.stamp {
                self.stamps.put(level, self.stamp);
                glue = glue.saturating_add(1);
            }
        }
        glue
    }

    /// The literal came on the trail at this index.
    #[inline]
    pub fn assign(&mut self, literal: i32, trail_index: usize) {
        let level = self.starts.len();
        if trail_index < 4_294_967_296 && level < 4_294_967_296 {
            let entry = Entry {
                level: level as u32,
                trail_index: trail_index as u32,
            };
            self.entries.put(literal.unsigned_abs() as usize, entry);
        }
    }
}

/// Backtracks to a level. The values of what leaves the trail are saved as phases.
pub fn backtrack(guide: &mut Guide, level: usize) -> Result<(), Refused> {
    backtrack_with(guide, level, PhaseUpdate::Save)
}

/// Backtracks to a level after a call. The saved phases of what leaves the trail are the negative
/// ones again, so that the models of the next call have few variables that are true. Of a part they keep
/// their values, since its questions are much alike.
pub fn backtrack_after_call(guide: &mut Guide, level: usize) -> Result<(), Refused> {
    let update = if guide.decisions.parts.is_part {
        PhaseUpdate::Save
    } else {
        PhaseUpdate::Reset
    };
    backtrack_with(guide, level, update)
}

/// What becomes of the saved phases of literals that leave the trail.
#[derive(Clone, Copy, PartialEq, Eq)]
enum PhaseUpdate {
    /// their values
    Save,
    /// the negative ones
    Reset,
}

/// Backtracks to a level.
fn backtrack_with(guide: &mut Guide, level: usize, update: PhaseUpdate) -> Result<(), Refused> {
    let Some(start) = guide.assignment.levels.starts.get(level).copied() else {
        return Ok(());
    };
    for trail_index in start.trail_index..guide.assignment.trail.len() {
        if let Some(literal) = guide.assignment.trail.literal(trail_index) {
            let phase = update == PhaseUpdate::Save && literal > 0;
            guide.decisions.save_phase(literal, phase);
            guide.assignment.values.unset(literal);
            guide.decisions.insert(literal)?;
        }
    }
    guide.assignment.trail.truncate(start.trail_index);
    guide.assignment.levels.starts.truncate(level);
    guide.assignment.propagated = start.trail_index;
    guide.decisions.justified = start.justified;
    Ok(())
}

/// Begins a level, and decides the literal where it is unassigned.
pub fn decide(guide: &mut Guide, literal: i32) -> Result<(), Refused> {
    let start = Start {
        trail_index: guide.assignment.trail.len(),
        justified: guide.decisions.justified,
    };
    push(&mut guide.assignment.levels.starts, start)?;
    if guide.assignment.values.is_unassigned(literal) {
        count(&mut guide.statistics.decisions);
        guide.assignment.enqueue(literal, None)?;
    }
    Ok(())
}
