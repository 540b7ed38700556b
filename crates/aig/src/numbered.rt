//! Lists of what defines variables in their order.

ghost use Rattle.std.specs.Mem.{type_size};
ghost use Rattle.std.specs.Prelude.{◌+◌, ◌≤◌};
ghost use Rattle.base.specs.Sizes.{IsItemSize};
ghost use Rattle.scan.specs.Reading.{Gives};
ghost use Rattle.aig.specs.Lines.{numbered_at};

use crate::delta::NoDelta;
use aag::ReadFault;
use base::push;
use graph::Lit;
use scan::Fault;
use std::alloc::Global;

/// One kind of what defines a variable and does not state its literal.
pub trait DefinitionKind {
    ghost use Rattle.std.specs.Prelude.{ℕ, List, Option};
    ghost use Rattle.graph.specs.declared.circuit.Lit.{Lit};

    /// What is read.
    type Item: Drop;

    /// How it is read, by the greatest variable and its own literal.
    ghost at: { ℕ → Lit → List ℕ → Option (Self.Item × List ℕ) };

    /// What has this literal, and what follows it.
    fn item(
        text: &[u8],
        max_var: u32,
        own: Lit,
    ) -> Result<(Self::Item, &[u8]), Fault<ReadFault<NoDelta>>>
        requires { max_var ≤ 4194303 }
        ensures { Gives (λ x. (x.0, x.1.now)) result (at max_var own text.now) };
}

/// As many of one kind as `count` says, which define the variables from `first` on, and what follows
/// them. The list grows one by one: no memory is taken ahead by a count that the text states.
pub fn numbered<D: DefinitionKind>(
    alloc: Global,
    max_var: u32,
    first: u32,
    count: u32,
    text: &[u8],
) -> Result<(Vec<D::Item>, &[u8]), Fault<ReadFault<NoDelta>>>
    requires item { IsItemSize (type_size D.Item.row) }
    requires most { max_var ≤ 4194303 }
    requires room { first + count ≤ max_var + 1 }
    ensures { Gives (λ x. (x.0.items, x.1.now)) result (numbered_at (D.at max_var) first count text.now) }
{
    let mut items = Vec::new(alloc);
    let mut rest = text;
    for i in 0..count {
        let (item, after) = D::item(rest, max_var, Lit(2 * (first + i)))?;
        push(&mut items, item)?;
        rest = after;
    }
    Ok((items, rest))
}
