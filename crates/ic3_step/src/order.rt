//! The order in which a query's literals are assumed.

ghost use Rattle.std.specs.Prelude.{IfOk};
ghost use Rattle.std.specs.List.Sorted.{IsPermutation};

use base::{Refused, copied};
use states::StateLit;
use std::alloc::Global;

/// Puts the literals of the most active latches first.
fn sort(lits: &mut [StateLit], activities: &[u64])
    ensures { IsPermutation lits.old lits.new }
{
    lits.sort_unstable_by_key(|lit| {
        let activity = activities.get(lit.latch as usize).copied().unwrap_or(0);
        (u64::MAX - activity, lit.latch)
    });
}

/// The clause's literals, those of the most active latches first.
pub(crate) fn by_activity(
    alloc: Global,
    clause: &[StateLit],
    activities: &[u64],
) -> Result<Vec<StateLit>, Refused>
    ensures { IfOk result (λ v. IsPermutation clause.now v.items) }
{
    let mut ordered = copied(alloc, clause)?;
    sort(ordered.as_mut_slice(), activities);
    Ok(ordered)
}
