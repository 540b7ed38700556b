//! What is decided next: the variables that may be, the most active first, and the values that they had last.

use crate::assignment::Assignment;
use crate::heap::Heap;
use crate::parts::Parts;
use crate::table::Table;
use crate::values::Values;
use base::Refused;
use solver::Part;
use std::alloc::Global;

/// The variables to decide, and their saved phases.
#[derive(Drop)]
pub struct Decisions {
    pub heap: Heap,
    /// whether the heap has the unassigned variables: those of a part come in before the first decision
    pub is_filled: bool,
    /// the value that each variable had last
    saved_phases: Table<bool>,
    pub parts: Parts,
    /// how long the trail was when the question about the part began
    pub root_trail: usize,
    /// how many of the part's false gates of then, and of the literals behind them on the trail, are no false gates
    /// without a false side
    pub justified: usize,
}

impl Decisions {
    /// No variables, which take no memory.
    pub fn new(alloc: Global) -> Decisions {
        Decisions {
            heap: Heap::new(alloc),
            is_filled: true,
            saved_phases: Table::new(alloc),
            parts: Parts::new(alloc),
            root_trail: 0,
            justified: 0,
        }
    }

    /// Makes room for the next variable, from 0 on.
    pub fn grow(&mut self) -> Result<(), Refused> {
        self.heap.grow()?;
        self.saved_phases.push(false)?;
        self.parts.grow()
    }

    /// Puts the literal's variable into the heap, where it may be decided.
    #[inline]
    pub fn insert(&mut self, literal: i32) -> Result<(), Refused> {
        if self.is_filled && self.parts.may_decide(literal) {
            self.heap.insert(literal)?;
        }
        Ok(())
    }

    /// Takes all variables out of the heap. They come back with the next part's first decision, or with a question
    /// about no part.
    pub fn empty_heap(&mut self) {
        self.heap.clear();
        self.is_filled = false;
    }

    /// Puts the unassigned leaves of the part into the heap.
    pub fn fill_heap(&mut self, values: &Values) -> Result<(), Refused> {
        self.is_filled = true;
        for variable in self.parts.leaves.iter() {
            if values.is_unassigned(*variable) {
                self.heap.insert(*variable)?;
            }
        }
        Ok(())
    }

    /// Only the variables of the part are decided from now on, or all where there is none. It costs the part, however
    /// long the trail of level 0 is.
    pub fn begin(&mut self, part: Option<&Part>, assignment: &Assignment) -> Result<(), Refused> {
        match part {
            Some(part) => {
                self.root_trail = assignment.trail.len();
                self.justified = 0;
                self.parts.begin(part, &assignment.values)
            }
            None => self.begin_whole(),
        }
    }

    /// All variables are decided from now on. After a question about a part it costs them.
    fn begin_whole(&mut self) -> Result<(), Refused> {
        self.parts.is_part = false;
        if self.is_filled {
            return Ok(());
        }
        self.is_filled = true;
        for variable in 1..self.saved_phases.len() {
            if let Ok(variable) = i32::try_from(variable) {
                self.heap.insert(variable)?;
            }
        }
        Ok(())
    }

    /// Saves the phase of the literal's variable.
    #[inline]
    pub fn save_phase(&mut self, literal: i32, phase: bool) {
        self.saved_phases
            .put(literal.unsigned_abs() as usize, phase);
    }

    /// The literal that gives the variable its saved phase, at first the negative one.
    pub fn saved_phase(&self, variable: i32) -> i32 {
        if self
            .saved_phases
            .at(variable.unsigned_abs() as usize, false)
        {
            variable
        } else {
            variable.wrapping_neg()
        }
    }

    /// The literal of the most active unassigned variable.
    pub fn most_active(&mut self, values: &Values) -> Option<i32> {
        for _ in 0..self.heap.len() {
            let variable = self.heap.pop()?;
            if values.is_unassigned(variable) {
                return Some(self.saved_phase(variable));
            }
        }
        None
    }
}
