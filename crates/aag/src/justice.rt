//! Justice properties: all their sizes, and then all their literals.

ghost use Rattle.std.specs.Prelude.{◌≤◌};
ghost use Rattle.scan.specs.Reading.{Gives};
ghost use Rattle.aag.specs.Justice.{sizes_at, properties_at, justice_at};

use crate::lines::{GREATEST, UseLine};
use crate::read_fault::ReadFault;
use base::{Seq, push};
use graph::Lit;
use scan::{Fault, field, lines};
use std::alloc::Global;

/// The sizes of as many properties as `count` says, and what follows their lines. A size with
/// which there would be too many literals is refused.
fn sizes<L: Copy>(
    alloc: Global,
    count: u32,
    text: &[u8],
) -> Result<(Vec<u32>, &[u8]), Fault<ReadFault<L>>>
    ensures { Gives (λ x. (x.0.items, x.1.now)) result (sizes_at GREATEST count text.now) }
{
    let mut sizes = Vec::new(alloc);
    let mut room = GREATEST;
    let mut rest = text;
    for _ in 0..count {
        let (size, after) = field(rest, room, b'\n', ReadFault::<L>::IN_SIZE)?;
        push(&mut sizes, size)?;
        room -= size;
        rest = after;
    }
    Ok((sizes, rest))
}

/// The literals of properties of these sizes, and what follows their lines.
fn properties<'a, K: Copy>(
    alloc: Global,
    line: UseLine<K>,
    sizes: &[u32],
    text: &'a [u8],
) -> Result<(Vec<Seq<Lit>>, &'a [u8]), Fault<K>>
    requires { line.max_var ≤ GREATEST }
    ensures { Gives (λ x. (x.0.items, x.1.now)) result (properties_at line.max_var sizes.now text.now) }
{
    let mut properties = Vec::new(alloc);
    let mut rest = text;
    for size in sizes {
        let (literals, after) = lines::<UseLine<K>>(alloc, *size, rest, line)?;
        push(&mut properties, Seq::from_vec(literals))?;
        rest = after;
    }
    Ok((properties, rest))
}

/// As many justice properties as `count` says, and what follows their lines.
#[tactic(auto, unfolding(crate::specs::Justice::justice_at))]
pub fn justice<L: Copy>(
    alloc: Global,
    line: UseLine<ReadFault<L>>,
    count: u32,
    text: &[u8],
) -> Result<(Seq<Seq<Lit>>, &[u8]), Fault<ReadFault<L>>>
    requires { line.max_var ≤ GREATEST }
    ensures { Gives (λ x. (x.0, x.1.now)) result (justice_at line.max_var count text.now) }
{
    let (sizes, rest) = sizes::<L>(alloc, count, text)?;
    let (properties, rest) = properties(alloc, line, sizes.as_slice(), rest)?;
    Ok((Seq::from_vec(properties), rest))
}
