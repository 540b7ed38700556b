//! Lists of lists.

ghost use Rattle.std.specs.Mem.{type_size};
ghost use Rattle.base.specs.Sizes.{IsItemSize};
ghost use Rattle.std.specs.Prelude.{◌≡◌, ◌<◌, ◌++◌, ◌∷◌, [], get_or, length, OnErr, OnOk};

use crate::grow::{extend, push};
use crate::refused::Refused;
use std::alloc::Global;
use std::marker::Model;

/// Where a list lies among the items.
#[derive(Clone, Copy)]
struct Span {
    start: usize,
    len: usize,
}

/// Lists, whose items lie one after the other in one `Vec`. A list costs 16 bytes beside its items,
/// and no memory of its own. A contract sees the list of the lists.
#[derive(Drop)]
pub struct Lists<T> {
    /// the items of the lists, one list after the other
    items: Vec<T>,
    /// for each list, where it lies
    spans: Vec<Span>,
}

impl<T> Model for Lists<T> {
    ghost use Rattle.std.specs.Prelude.{List};
    ghost use Rattle.base.specs.Lists.{lists_at, AreInside};

    ghost Value = { List (List T) };

    ghost view = { λ l. lists_at l.items.items l.spans.items };

    ghost invariant = { λ l. AreInside l.items.items l.spans.items };
}

impl<T> Lists<T> {
    /// No lists, which take no memory.
    pub fn new(alloc: Global) -> Lists<T>
        ensures { result ≡ [] }
    {
        Lists {
            items: Vec::new(alloc),
            spans: Vec::new(alloc),
        }
    }

    /// How many lists there are.
    pub fn len(&self) -> usize
        ensures { result ≡ length self.now }
    {
        self.spans.len()
    }

    /// The list at the index.
    pub fn list(&self, index: usize) -> &[T]
        requires { index < length self.now }
        ensures { result.now ≡ get_or self.now index [] }
    {
        let span = self.spans[index];
        &self.items[span.start..span.start + span.len]
    }
}

impl<T: Copy> Lists<T> {
    /// Adds a list behind the others. Without memory nothing changes.
    pub fn push(&mut self, list: &[T]) -> Result<(), Refused>
        requires { IsItemSize (type_size T.row) }
        ensures ok { OnOk result (self.new ≡ self.old ++ list.now ∷ []) }
        ensures err { OnErr result (self.new ≡ self.old) }
    {
        let span = Span {
            start: self.items.len(),
            len: list.len(),
        };
        extend(&mut self.items, list)?;
        if let Err(refused) = push(&mut self.spans, span) {
            self.items.truncate(span.start);
            return Err(refused);
        }
        Ok(())
    }
}
