//! Lists that may be read and written anywhere.
//!
//! What is kept by variables or by clauses only steers the search, so nothing is to be proved of
//! its places: past the end a list gives a default, and a write there does nothing.

ghost use Rattle.std.specs.Mem.{type_size};
ghost use Rattle.base.specs.Sizes.{IsItemSize};

use base::{Refused, extend, push};
use std::alloc::Global;

/// A list that gives a default past its end.
#[derive(Drop)]
pub struct Table<T> {
    items: Vec<T>,
}

impl<T: Copy> Table<T> {
    /// No items, which take no memory.
    pub fn new(alloc: Global) -> Table<T> {
        Table {
            items: Vec::new(alloc),
        }
    }

    /// How many items there are.
    #[inline]
    pub fn len(&self) -> usize {
        self.items.len()
    }

    /// The item at the index, or the default past the end.
    #[inline]
    pub fn at(&self, index: usize, default: T) -> T {
        if index < self.items.len() {
            self.items[index]
        } else {
            default
        }
    }

    /// The items from the first index up to the second, or none where there are fewer.
    #[inline]
    pub fn part(&self, from: usize, to: usize) -> &[T] {
        match self.items.get(from..to) {
            Some(items) => items,
            None => &[],
        }
    }

    /// Writes the item at the index, where there is one.
    #[inline]
    pub fn put(&mut self, index: usize, item: T) {
        if index < self.items.len() {
            self.items[index] = item;
        }
    }

    /// Adds an item at the end.
    pub fn push(&mut self, item: T) -> Result<(), Refused>
        requires { IsItemSize (type_size T.row) }
    {
        push(&mut self.items, item)
    }

    /// Adds items at the end.
    pub fn extend(&mut self, items: &[T]) -> Result<(), Refused>
        requires { IsItemSize (type_size T.row) }
    {
        extend(&mut self.items, items)
    }
}
