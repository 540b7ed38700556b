//! Lists of values.

ghost use Rattle.std.specs.Mem.{type_size};
ghost use Rattle.base.specs.Sizes.{IsItemSize};
ghost use Rattle.std.specs.Prelude.{◌≡◌, ◌++◌, ◌∷◌, [], length, IfOk, IsTrue, ◌↔◌, OnErr, OnOk};

use crate::grow;
use crate::refused::Refused;
use std::alloc::Global;
use std::marker::Model;

/// A list, kept in a `Vec`. A contract sees the list alone, without the capacity.
#[derive(Drop)]
pub struct Seq<T> {
    items: Vec<T>,
}

impl<T> Model for Seq<T> {
    ghost use Rattle.std.specs.Prelude.{List};

    ghost Value = { List T };

    ghost view = { λ s. s.items.items };
}

impl<T> Seq<T> {
    /// The empty list, which takes no memory.
    pub fn new(alloc: Global) -> Seq<T>
        ensures { result ≡ [] }
    {
        Seq {
            items: Vec::new(alloc),
        }
    }

    /// The items of a `Vec`, which is taken over as it is.
    pub fn from_vec(items: Vec<T>) -> Seq<T>
        ensures { result ≡ items.items }
    {
        Seq { items }
    }

    /// The `Vec` of the items.
    pub fn into_vec(self) -> Vec<T>
        ensures { result.items ≡ self }
    {
        let Seq { items } = self;
        items
    }

    /// The items in order.
    pub fn as_slice(&self) -> &[T]
        ensures { result.now ≡ self.now }
    {
        self.items.as_slice()
    }

    /// How many items there are.
    pub fn len(&self) -> usize
        ensures { result ≡ length self.now }
    {
        self.items.len()
    }

    /// Whether there is no item.
    pub fn is_empty(&self) -> bool
        ensures { IsTrue result ↔ (self.now ≡ []) }
    {
        self.items.is_empty()
    }
}

impl<T: Drop> Seq<T> {
    /// Adds an item at the end. Without memory the list stays.
    pub fn push(&mut self, item: T) -> Result<(), Refused>
        requires { IsItemSize (type_size T.row) }
        ensures ok { OnOk result (self.new ≡ self.old ++ item ∷ []) }
        ensures err { OnErr result (self.new ≡ self.old) }
    {
        grow::push(&mut self.items, item)
    }
}

impl<T: Copy> Seq<T> {
    /// The items of a slice, in memory of their own.
    pub fn from_slice(alloc: Global, items: &[T]) -> Result<Seq<T>, Refused>
        requires { IsItemSize (type_size T.row) }
        ensures { IfOk result (λ s. s ≡ items.now) }
    {
        Ok(Seq {
            items: grow::copied(alloc, items)?,
        })
    }

    /// The same list, in memory of its own.
    pub fn copy(&self, alloc: Global) -> Result<Seq<T>, Refused>
        requires { IsItemSize (type_size T.row) }
        ensures { IfOk result (λ s. s ≡ self.now) }
    {
        Seq::from_slice(alloc, self.items.as_slice())
    }
}
