//! Lists up to an end.

ghost use Rattle.base.specs.Sizes.{IsItemSize};
ghost use Rattle.std.specs.Mem.{type_size};
ghost use Rattle.std.specs.Prelude.{◌<◌, length, IfOk};
ghost use Rattle.scan.specs.Reading.{Gives};
ghost use Rattle.scan.specs.Lists.{items_at};

use crate::fault::Fault;
use base::push;
use std::alloc::Global;

/// One kind of item in a list that ends where an end of its own stands.
pub trait ItemKind {
    ghost use Rattle.std.specs.Prelude.{ℕ, List, Option};

    /// What an item holds.
    type Item: Drop;

    /// What an item's meaning depends on, as the greatest number.
    type Context: Copy;

    /// What the reader finds wrong in a text.
    type Fault: Copy;

    /// What has to hold of the context.
    ghost allows: { Self.Context → Type 0 };

    /// How an item or the list's end is read.
    ghost at: { Self.Context → List ℕ → Option (Option Self.Item × List ℕ) };

    /// One item, or none at the list's end, and what follows.
    fn item(
        alloc: Global,
        text: &[u8],
        context: Self::Context,
    ) -> Result<(Option<Self::Item>, &[u8]), Fault<Self::Fault>>
        requires { allows context }
        ensures value { Gives (λ x. (x.0, x.1.now)) result (at context text.now) }
        ensures shorter { IfOk result (λ x. length x.1.now < length text.now) };
}

/// The items before the first end, put into a list that is emptied first and keeps its memory, and
/// what follows that end. The list grows item by item. Every refusal is one of `item`.
pub fn items_into<'t, L: ItemKind>(
    alloc: Global,
    items: &mut Vec<L::Item>,
    text: &'t [u8],
    context: L::Context,
) -> Result<&'t [u8], Fault<L::Fault>>
    requires allows { L.allows context }
    requires item { IsItemSize (type_size L.Item.row) }
    ensures value { Gives (λ x. (items.new.items, x.now)) result (items_at (L.at context) text.now) }
    ensures shorter { IfOk result (λ x. length x.now < length text.now) }
{
    items.clear();
    let mut rest = text;
    'reading: loop {
        let (item, after) = L::item(alloc, rest, context)?;
        rest = after;
        match item {
            None => return Ok(rest),
            Some(item) => push(items, item)?,
        }
    }
}

/// As `items_into`, in a list of its own.
pub fn items<L: ItemKind>(
    alloc: Global,
    text: &[u8],
    context: L::Context,
) -> Result<(Vec<L::Item>, &[u8]), Fault<L::Fault>>
    requires allows { L.allows context }
    requires item { IsItemSize (type_size L.Item.row) }
    ensures value { Gives (λ x. (x.0.items, x.1.now)) result (items_at (L.at context) text.now) }
    ensures shorter { IfOk result (λ x. length x.1.now < length text.now) }
{
    let mut items = Vec::new(alloc);
    let rest = items_into::<L>(alloc, &mut items, text, context)?;
    Ok((items, rest))
}
