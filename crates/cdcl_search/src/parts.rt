//! The part that a question is about: its variables and its gates.

use crate::levels::Levels;
use crate::table::Table;
use crate::values::Values;
use base::{Refused, push};
use solver::{AndGate, Part};
use std::alloc::Global;

/// A variable that is no gate of a part.
const NO_GATE: AndGate = AndGate {
    lhs: 0,
    rhs0: 0,
    rhs1: 0,
};

/// The part in question, where the question is about one.
#[derive(Drop)]
pub struct Parts {
    /// whether only variables of the part are decided
    pub is_part: bool,
    /// of each variable the stamp of the last part that has it
    stamps: Table<u32>,
    /// the stamp of the last part
    stamp: u32,
    /// of each variable the gate that it is in a part
    gates: Table<AndGate>,
    /// the variables of the part that are no gates of it
    pub leaves: Vec<i32>,
    /// the gates of the part that were false without a false side when the question began
    pub false_gates: Vec<AndGate>,
}

impl Parts {
    /// No variables, and no part.
    pub fn new(alloc: Global) -> Parts {
        Parts {
            is_part: false,
            stamps: Table::new(alloc),
            stamp: 0,
            gates: Table::new(alloc),
            leaves: Vec::new(alloc),
            false_gates: Vec::new(alloc),
        }
    }

    /// Makes room for the next variable, from 0 on.
    pub fn grow(&mut self) -> Result<(), Refused> {
        self.stamps.push(0)?;
        self.gates.push(NO_GATE)
    }

    /// The question is about this part, and these are the values at level 0.
    pub fn begin(&mut self, part: &Part, values: &Values) -> Result<(), Refused> {
        self.is_part = true;
        self.stamp = self.stamp.wrapping_add(1);
        self.leaves.clear();
        self.false_gates.clear();
        for gate in part.gates.iter() {
            self.gates.put(gate.lhs.unsigned_abs() as usize, *gate);
            self.add(gate.lhs);
            self.add_false_gate(*gate, values)?;
        }
        self.add_leaves(part)
    }

    /// Lists the gate where it is false without a false side.
    #[inline]
    fn add_false_gate(&mut self, gate: AndGate, values: &Values) -> Result<(), Refused> {
        let has_false_side = values.is_false(gate.rhs0) || values.is_false(gate.rhs1);
        if values.is_false(gate.lhs) && !has_false_side {
            push(&mut self.false_gates, gate)?;
        }
        Ok(())
    }

    /// The literal's variable is one of the part.
    #[inline]
    fn add(&mut self, literal: i32) {
        self.stamps.put(literal.unsigned_abs() as usize, self.stamp);
    }

    /// The variables of the part that are no gates of it are its leaves, each once, in the order of the gates.
    fn add_leaves(&mut self, part: &Part) -> Result<(), Refused> {
        for gate in part.gates.iter() {
            self.add_leaf(gate.rhs0)?;
            self.add_leaf(gate.rhs1)?;
        }
        for literal in part.literals.iter() {
            self.add_leaf(*literal)?;
        }
        Ok(())
    }

    /// The literal's variable is a leaf of the part, unless the part has it already.
    #[inline]
    fn add_leaf(&mut self, literal: i32) -> Result<(), Refused> {
        if !self.may_decide(literal) {
            self.add(literal);
            push(&mut self.leaves, literal.wrapping_abs())?;
        }
        Ok(())
    }

    /// Whether the literal's variable may be decided: any, or one of the part in question.
    #[inline]
    pub fn may_decide(&self, literal: i32) -> bool {
        !self.is_part || self.stamps.at(literal.unsigned_abs() as usize, 0) == self.stamp
    }

    /// Whether the literal with this code need not come on the trail, above level 0: it is not of the part in question.
    #[inline]
    pub fn is_outside(&self, levels: &Levels, code: u32) -> bool {
        self.is_part && levels.current() > 0 && self.stamps.at(code as usize / 2, 0) != self.stamp
    }

    /// The gate of the part in question that is false where this literal is true.
    #[inline]
    pub fn false_gate_of(&self, literal: i32) -> Option<AndGate> {
        let gate = self.gates.at(literal.unsigned_abs() as usize, NO_GATE);
        if gate.lhs == literal.wrapping_neg() && self.may_decide(literal) {
            Some(gate)
        } else {
            None
        }
    }
}
