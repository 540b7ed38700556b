//! Lists of a known length.

ghost use Rattle.base.specs.Sizes.{IsItemSize};
ghost use Rattle.std.specs.Mem.{type_size};
ghost use Rattle.scan.specs.Reading.{Gives};
ghost use Rattle.scan.specs.Lists.{many_at};

use crate::fault::Fault;
use base::push;
use std::alloc::Global;

/// One kind of line: what it holds, and how it is read.
pub trait LineKind {
    ghost use Rattle.std.specs.Prelude.{ℕ, List, Option};

    /// What a line holds.
    type Item: Drop;

    /// What a line's meaning depends on, as the greatest variable.
    type Context: Copy;

    /// What the reader finds wrong in a text.
    type Fault: Copy;

    /// What has to hold of the context.
    ghost allows: { Self.Context → Type 0 };

    /// How a line is read.
    ghost at: { Self.Context → List ℕ → Option (Self.Item × List ℕ) };

    /// One line, and what follows it.
    fn line(
        alloc: Global,
        text: &[u8],
        context: Self::Context,
    ) -> Result<(Self::Item, &[u8]), Fault<Self::Fault>>
        requires { allows context }
        ensures { Gives (λ x. (x.0, x.1.now)) result (at context text.now) };
}

/// As many lines of one kind as `count` says, put into a list that is emptied first and keeps its
/// memory, and what follows them. The list grows line by line: no memory is taken ahead by a count
/// that the text states.
pub fn lines_into<'t, L: LineKind>(
    alloc: Global,
    items: &mut Vec<L::Item>,
    count: u32,
    text: &'t [u8],
    context: L::Context,
) -> Result<&'t [u8], Fault<L::Fault>>
    requires allows { L.allows context }
    requires item { IsItemSize (type_size L.Item.row) }
    ensures { Gives (λ x. (items.new.items, x.now)) result (many_at (L.at context) count text.now) }
{
    items.clear();
    let mut rest = text;
    for _ in 0..count {
        let (item, after) = L::line(alloc, rest, context)?;
        push(items, item)?;
        rest = after;
    }
    Ok(rest)
}

/// As `lines_into`, in a list of its own.
pub fn lines<L: LineKind>(
    alloc: Global,
    count: u32,
    text: &[u8],
    context: L::Context,
) -> Result<(Vec<L::Item>, &[u8]), Fault<L::Fault>>
    requires allows { L.allows context }
    requires item { IsItemSize (type_size L.Item.row) }
    ensures { Gives (λ x. (x.0.items, x.1.now)) result (many_at (L.at context) count text.now) }
{
    let mut items = Vec::new(alloc);
    let rest = lines_into::<L>(alloc, &mut items, count, text, context)?;
    Ok((items, rest))
}
