//! Which literal of a clause is to be left out first.
//!
//! A latch that is in many clauses of the frames is likely to be needed once more, so the others are
//! tried first (Een, Mishchenko, Brayton 2011). The latches of a clause that was needed in the frame before are
//! not tried.

ghost use Rattle.std.specs.Prelude.{◌≡◌, ◌↔◌, ◌⊎◌, IsTrue, ℕ, length, All, Contains, IfOk};
ghost use Rattle.ic3_blocking.specs.Answers.{HasLatch};

use base::{Refused, push};
use states::StateLit;
use std::alloc::Global;

/// Whether a literal of the clause is this latch's.
pub(crate) fn has_latch(clause: &[StateLit], latch: u32) -> bool
    ensures { IsTrue result ↔ HasLatch clause.now latch }
{
    clause.iter().any(|lit| lit.latch == latch)
}

/// The latches of a clause that are in no literal of `needed`.
fn others(alloc: Global, clause: &[StateLit], needed: &[StateLit]) -> Result<Vec<u32>, Refused>
    ensures { IfOk result (λ v. All (λ a. HasLatch needed.now a.latch ⊎ Contains v.items a.latch) clause.now) }
{
    let mut latches = Vec::new(alloc);
    'listing: for lit in clause {
        if !has_latch(needed, lit.latch) {
            push(&mut latches, lit.latch)?;
        }
    }
    Ok(latches)
}

/// Puts latches into the order of how many clauses they are in.
fn sort(latches: &mut [u32], uses: &[u32])
    ensures len { length latches.new ≡ length latches.old }
    ensures same { (n : ℕ) → Contains latches.new n ↔ Contains latches.old n }
{
    latches.sort_unstable_by_key(|latch| (uses.get(*latch as usize).copied(), *latch));
}

/// The latches of a clause that are in no literal of `needed`, those first that are in the fewest clauses of the frames, which `uses`
/// counts by the latches' positions. It looks through `needed` once for each literal of the clause.
pub(crate) fn rarest_first(
    alloc: Global,
    uses: &[u32],
    clause: &[StateLit],
    needed: &[StateLit],
) -> Result<Vec<u32>, Refused>
    ensures { IfOk result (λ v. All (λ a. HasLatch needed.now a.latch ⊎ Contains v.items a.latch) clause.now) }
{
    let mut order = others(alloc, clause, needed)?;
    sort(order.as_mut_slice(), uses);
    Ok(order)
}
