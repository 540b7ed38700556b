//! Functions of four literals in many runs.

use crate::lanes::{all, chosen, negated_if};
use std::simd::u64x4;

/// What a variable is of other ones.
#[derive(Clone, Copy)]
pub(crate) struct Function {
    /// the truth table
    pub table: u16,
    /// the literals, of which the first is 0 where the variable is free
    pub leaves: (i32, i32, i32, i32),
}

/// What a variable is that is free.
pub(crate) const FREE: Function = Function {
    table: 0,
    leaves: (0, 0, 0, 0),
};

/// The lowest bit of a table, in all runs.
fn lowest_bit(table: u16) -> u64x4 {
    all(table & 1 == 1)
}

/// The values that the lowest two bits of a table have of a literal.
fn of_one(table: u16, first: u64x4) -> u64x4 {
    chosen(first, lowest_bit(table >> 1), lowest_bit(table))
}

/// The values that the lowest four bits of a table have of two literals.
fn of_two(table: u16, first: u64x4, second: u64x4) -> u64x4 {
    chosen(second, of_one(table >> 2, first), of_one(table, first))
}

/// The values that the lowest eight bits of a table have of three literals.
fn of_three(table: u16, first: u64x4, second: u64x4, third: u64x4) -> u64x4 {
    let low = of_two(table, first, second);
    chosen(third, of_two(table >> 4, first, second), low)
}

/// The values of the literal, of which these are those of its variable.
fn valued(values: &[u64x4], literal: i32) -> u64x4 {
    match values.get(literal.unsigned_abs() as usize) {
        Some(known) => negated_if(*known, literal < 0),
        None => all(false),
    }
}

impl Function {
    /// Whether the variable is free.
    pub(crate) fn is_free(self) -> bool {
        self.leaves.0 == 0
    }

    /// The values of the function, by those of the variables. The last literals may be 1, which is true.
    pub(crate) fn values(self, values: &[u64x4]) -> u64x4 {
        let first = valued(values, self.leaves.0);
        let second = valued(values, self.leaves.1);
        if self.leaves.2 == 1 && self.leaves.3 == 1 {
            return of_two(self.table >> 12, first, second);
        }
        let third = valued(values, self.leaves.2);
        if self.leaves.3 == 1 {
            return of_three(self.table >> 8, first, second, third);
        }
        let fourth = valued(values, self.leaves.3);
        let low = of_three(self.table, first, second, third);
        chosen(fourth, of_three(self.table >> 8, first, second, third), low)
    }
}
