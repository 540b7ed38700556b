//! The variables near two others.

use crate::function::Function;
use base::{Refused, push};
use solver::{AndGate, Part};
use std::alloc::Global;

/// Marks of variables, of which none is set between two calls, but for the constant.
#[derive(Drop)]
pub(crate) struct Near {
    marks: Vec<bool>,
}

impl Near {
    /// The marks of the variable that is none and of the one that is true.
    pub(crate) fn new(alloc: Global) -> Result<Near, Refused> {
        let mut marks = Vec::new(alloc);
        push(&mut marks, true)?;
        push(&mut marks, true)?;
        Ok(Near { marks })
    }

    /// The next variable is not marked.
    pub(crate) fn add(&mut self) -> Result<(), Refused> {
        push(&mut self.marks, false)
    }

    /// Marks the literal's variable, and adds it to the list where it was not marked.
    fn mark(&mut self, list: &mut Vec<u32>, literal: i32) -> Result<(), Refused> {
        let variable = literal.unsigned_abs();
        if let Some(mark) = self.marks.get_mut(variable as usize)
            && !*mark
        {
            *mark = true;
            push(list, variable)?;
        }
        Ok(())
    }

    /// Takes the listed marks away.
    fn unmark(&mut self, list: &[u32]) {
        for variable in list {
            if let Some(mark) = self.marks.get_mut(*variable as usize) {
                *mark = false;
            }
        }
    }

    /// Adds what the listed variable at an index is a function of. Answers whether it is one.
    fn open(
        &mut self,
        functions: &[Function],
        list: &mut Vec<u32>,
        index: usize,
    ) -> Result<bool, Refused> {
        let Some(variable) = list.get(index).copied() else {
            return Ok(false);
        };
        let Some(function) = functions.get(variable as usize).copied() else {
            return Ok(false);
        };
        if function.is_free() {
            return Ok(false);
        }
        let (first, second, third, fourth) = function.leaves;
        self.mark(list, first)?;
        self.mark(list, second)?;
        self.mark(list, third)?;
        self.mark(list, fourth)?;
        Ok(true)
    }

    /// These two variables and what they are functions of, the nearest first, of as many functions at most. After a refusal the
    /// marks are worth nothing.
    pub(crate) fn list(
        &mut self,
        alloc: Global,
        functions: &[Function],
        pair: (i32, i32),
        most: usize,
    ) -> Result<Vec<u32>, Refused> {
        let mut list = Vec::new(alloc);
        self.mark(&mut list, pair.0)?;
        self.mark(&mut list, pair.1)?;
        let mut opened = 0;
        'opening: for index in 0..functions.len() {
            if index >= list.len() || opened >= most {
                break;
            }
            if self.open(functions, &mut list, index)? {
                opened += 1;
            }
        }
        self.unmark(list.as_slice());
        Ok(list)
    }
}

/// The part that names these variables: each by a gate that is false whatever the variable is.
pub(crate) fn part_of(alloc: Global, list: &[u32]) -> Result<Part, Refused> {
    let mut gates = Vec::new(alloc);
    for variable in list {
        let literal = (*variable).min(2_147_483_647) as i32;
        push(
            &mut gates,
            AndGate {
                lhs: -1,
                rhs0: literal,
                rhs1: literal.wrapping_neg(),
            },
        )?;
    }
    let mut literals = Vec::new(alloc);
    push(&mut literals, 1)?;
    Ok(Part { gates, literals })
}
