//! The first variables of classes.

use base::{Refused, filled};
use std::alloc::Global;

/// How many places are tried for a class. Where all have others, it has none.
const TRIES: usize = 8;

/// The leader of each class, at one of the first places behind the one that its number says.
#[derive(Drop)]
pub(crate) struct Leaders {
    /// twice as many places as classes at least, as a power of two; 0 where there is none
    places: Vec<u32>,
}

/// The number of a variable.
fn number_of(numbers: &[u64], variable: u32) -> u64 {
    match numbers.get(variable as usize) {
        Some(number) => *number,
        None => 0,
    }
}

impl Leaders {
    /// No class yet, and room for half as many as there are places.
    pub(crate) fn new(alloc: Global, places: usize) -> Result<Leaders, Refused> {
        Ok(Leaders {
            places: filled(alloc, 0, places.min(268_435_456))?,
        })
    }

    /// How many places there are.
    pub(crate) fn places(&self) -> usize {
        self.places.len()
    }

    /// The leader of the class of which the variable is. Where there is none, that is the variable from now on.
    pub(crate) fn lead(&mut self, numbers: &[u64], variable: u32) -> u32 {
        let number = number_of(numbers, variable);
        let most = self.places.len().wrapping_sub(1);
        'trying: for step in 0..TRIES {
            let place = (number as usize).wrapping_add(step) & most;
            let Some(leader) = self.places.get_mut(place) else {
                return variable;
            };
            if *leader == 0 {
                *leader = variable;
                return variable;
            }
            if number_of(numbers, *leader) == number {
                return *leader;
            }
        }
        variable
    }

    /// Empties all places.
    pub(crate) fn clear(&mut self) {
        for leader in self.places.as_mut_slice() {
            *leader = 0;
        }
    }
}
