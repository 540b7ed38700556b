//! Which literals are true.
//!
//! The trail says it too. Here it stands by literals, under the number that a watch has for its literal, so that
//! a look at a watch reads one byte. Variable 0 does not exist, and both of its literals are false: they stand where a
//! short clause has no further literal.

ghost use Rattle.std.specs.Prelude.{◌≤◌};

use crate::table::Table;
use base::Refused;
use std::alloc::Global;

/// What a literal is.
#[derive(Clone, Copy, PartialEq, Eq)]
pub enum Value {
    False,
    Unassigned,
    True,
}

impl Value {
    /// How much may still be true: 0 where the literal is false, 1 where it is unassigned, and 2 where it is
    /// true. So two literals that come to 2 or more have a true one, or are both unassigned.
    #[inline]
    pub fn chance(self) -> u32
        ensures { result ≤ 2 }
    {
        self as u32
    }
}

/// The literal with this number in tables.
#[inline]
pub fn literal_of(code: u32) -> i32 {
    let variable = (code / 2) as i32;
    if code % 2 == 0 {
        variable
    } else {
        variable.wrapping_neg()
    }
}

/// The value of each literal.
#[derive(Drop)]
pub struct Values {
    /// by the literals' codes
    values: Table<Value>,
}

/// The number of a literal in tables: its variable's number twice, and one more where it is negative.
#[inline]
pub fn code_of(literal: i32) -> u32 {
    literal
        .unsigned_abs()
        .wrapping_mul(2)
        .wrapping_add(u32::from(literal < 0))
}

impl Values {
    /// No variables.
    pub fn new(alloc: Global) -> Values {
        Values {
            values: Table::new(alloc),
        }
    }

    /// Makes room for the next variable, from 0 on, which is unassigned. The literals of variable 0 are false.
    pub fn grow(&mut self) -> Result<(), Refused> {
        let value = if self.values.len() == 0 {
            Value::False
        } else {
            Value::Unassigned
        };
        self.values.push(value)?;
        self.values.push(value)
    }

    /// The value of the literal with this code.
    #[inline]
    pub fn of(&self, code: u32) -> Value {
        self.values.at(code as usize, Value::Unassigned)
    }

    /// Whether the literal is false.
    #[inline]
    pub fn is_false(&self, literal: i32) -> bool {
        self.of(code_of(literal)) == Value::False
    }

    /// Whether the literal has no value.
    #[inline]
    pub fn is_unassigned(&self, literal: i32) -> bool {
        self.of(code_of(literal)) == Value::Unassigned
    }

    /// Whether the literal is true.
    #[inline]
    pub fn is_true(&self, literal: i32) -> bool {
        self.of(code_of(literal)) == Value::True
    }

    /// The literal is true from now on.
    #[inline]
    pub fn set(&mut self, literal: i32) {
        self.values.put(code_of(literal) as usize, Value::True);
        self.values
            .put(code_of(literal.wrapping_neg()) as usize, Value::False);
    }

    /// The literal's variable is unassigned from now on.
    #[inline]
    pub fn unset(&mut self, literal: i32) {
        self.values
            .put(code_of(literal) as usize, Value::Unassigned);
        self.values.put(code_of(literal.wrapping_neg()) as usize, Value::Unassigned);
    }
}
