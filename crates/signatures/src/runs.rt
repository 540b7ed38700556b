//! The values of all variables in 256 runs.

use crate::function::Function;
use crate::lanes::{all, chosen, uniform};
use base::{Refused, copied, push};
use rand_pcg::Lcg128Xsl64;
use std::alloc::Global;
use std::simd::u64x4;

/// The values of variables in 256 runs, one after the other.
#[derive(Drop)]
pub(crate) struct Runs {
    values: Vec<u64x4>,
}

impl Runs {
    /// The values of the variable that is none and of the one that is true.
    pub(crate) fn new(alloc: Global) -> Result<Runs, Refused> {
        let mut values = Vec::new(alloc);
        push(&mut values, all(false))?;
        push(&mut values, all(true))?;
        Ok(Runs { values })
    }

    /// The values of a variable.
    pub(crate) fn of(&self, variable: usize) -> u64x4 {
        match self.values.get(variable) {
            Some(values) => *values,
            None => all(false),
        }
    }

    /// Adds the values of the next variable: those of the function, or random ones.
    pub(crate) fn add(
        &mut self,
        function: Function,
        generator: &mut Lcg128Xsl64,
    ) -> Result<(), Refused> {
        let values = if function.is_free() {
            uniform(generator)
        } else {
            function.values(self.values.as_slice())
        };
        push(&mut self.values, values)
    }

    /// Adds random values of the next variable where it is free, else any.
    pub(crate) fn add_open(
        &mut self,
        function: Function,
        generator: &mut Lcg128Xsl64,
    ) -> Result<(), Refused> {
        let values = if function.is_free() {
            uniform(generator)
        } else {
            all(false)
        };
        push(&mut self.values, values)
    }

    /// The same values.
    pub(crate) fn copy(&self, alloc: Global) -> Result<Runs, Refused> {
        Ok(Runs {
            values: copied(alloc, self.values.as_slice())?,
        })
    }

    /// Changes the values of a variable to these in the runs that are marked.
    pub(crate) fn change(&mut self, variable: usize, marked: u64x4, wanted: u64x4) {
        if variable < self.values.len() {
            self.values[variable] = chosen(marked, wanted, self.values[variable]);
        }
    }

    /// Changes the values of a variable to those of the function, where it is not free. Answers its values.
    pub(crate) fn compute(&mut self, variable: usize, function: Function) -> u64x4 {
        if function.is_free() {
            return self.of(variable);
        }
        let computed = function.values(self.values.as_slice());
        self.change(variable, all(true), computed);
        computed
    }
}
