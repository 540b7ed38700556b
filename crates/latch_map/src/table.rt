//! Literals that have the same value, in a table by variable.

ghost use Rattle.std.specs.Prelude.{◌≡◌, ◌≤◌, IfOk, IfSome};
ghost use Rattle.graph.specs.Circuits.{Valuation, value_of};
ghost use Rattle.latch_map.specs.Equal.{AreValues, entry as entry_of};

use crate::equality::negated_as;
use base::{Refused, filled};
use graph::{Latch, Lit};
use std::alloc::Global;

/// What the table has for a variable.
fn entry(table: &[Option<Lit>], variable: u32) -> Option<Lit>
    ensures { result ≡ entry_of table.now variable }
{
    match table.get(variable as usize) {
        Some(entry) => *entry,
        None => None,
    }
}

/// The literal that all those lead to that are equal to this one.
pub(crate) fn root(table: &[Option<Lit>], lit: Lit) -> Lit
    ensures { (w : Valuation) → AreValues w table.now → value_of w result ≡ value_of w lit }
{
    let mut root = lit;
    for _ in 0..table.len() {
        match entry(table, root.variable()) {
            Some(same) => root = negated_as(same, root),
            None => return root,
        }
    }
    root
}

/// Has the first literal lead to the second one.
fn lead(table: &mut [Option<Lit>], lit: Lit, same: Lit)
    ensures { (w : Valuation) → value_of w lit ≡ value_of w same → AreValues w table.old → AreValues w table.new }
{
    let variable = lit.variable() as usize;
    if variable < table.len() {
        table[variable] = Some(negated_as(same, lit));
    }
}

/// Joins what is equal to the first literal and what is equal to the second one. The lesser variable leads.
#[tactic(auto, using(crate::proofs::Tables::joined, crate::proofs::Tables::joined_back))]
pub(crate) fn join(table: &mut [Option<Lit>], one: Lit, other: Lit)
    ensures { (w : Valuation) → value_of w one ≡ value_of w other → AreValues w table.old → AreValues w table.new }
{
    let first = root(table, one);
    let second = root(table, other);
    if first.variable() < second.variable() {
        lead(table, second, first);
    } else if second.variable() < first.variable() {
        lead(table, first, second);
    }
}

/// Has the literal that a latch leads to lead to this latch, where it leads to none yet.
#[tactic(auto, using(crate::proofs::Tables::led))]
fn lead_back(table: &[Option<Lit>], first: &mut [Option<Lit>], latch: Lit)
    ensures { (w : Valuation) → AreValues w table.now → AreValues w first.old → AreValues w first.new }
{
    let root = root(table, latch);
    if entry(first, root.variable()).is_none() {
        lead(first, root, latch);
    }
}

/// Has the literals that these latches lead to lead to the first latch of each.
#[tactic(auto, using(crate::proofs::Tables::led_more))]
fn lead_all_back(table: &[Option<Lit>], first: &mut [Option<Lit>], latches: &[Latch])
    ensures { (w : Valuation) → AreValues w table.now → AreValues w first.old → AreValues w first.new }
{
    for latch in latches {
        lead_back(table, first, latch.lit);
    }
}

/// For the literals that these latches lead to the first latch of each, by variable.
#[tactic(auto, using(crate::proofs::Tables::first_values))]
pub(crate) fn first_latches(
    alloc: Global,
    table: &[Option<Lit>],
    latches: &[Latch],
    count: usize,
) -> Result<Vec<Option<Lit>>, Refused>
    requires { count ≤ 4194304 }
    ensures { IfOk result (λ first. (w : Valuation) → AreValues w table.now → AreValues w first.items) }
{
    let mut first = filled(alloc, None, count)?;
    lead_all_back(table, first.as_mut_slice(), latches);
    Ok(first)
}

/// The latch, or the constant, that this latch is equal to: by the first table what it leads to, and by the second one a
/// latch that leads there too.
#[tactic(auto, using(crate::proofs::Tables::root_partner))]
pub(crate) fn partner(table: &[Option<Lit>], others: &[Option<Lit>], latch: Lit) -> Option<Lit>
    ensures { (w : Valuation) → AreValues w table.now → AreValues w others.now → IfSome result (λ b. value_of w latch ≡ value_of w b) }
{
    let root = root(table, latch);
    if root.variable() == 0 {
        return Some(root);
    }
    match entry(others, root.variable()) {
        Some(other) => Some(negated_as(other, root)),
        None => None,
    }
}
