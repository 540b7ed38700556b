//! The clauses of the first frame.

ghost use Rattle.std.specs.Prelude.{◌≡◌, ◌<◌, ◌^◌, None, length, All, Contains, IfOk, IfSome};
ghost use Rattle.states.specs.declared.state_lit.StateLit.{StateLit as Lit};
ghost use Rattle.ic3_frames.specs.Clauses.{IsResetLit, IsResetEntry, reset_entry};

use crate::frames::Entry;
use base::{Refused, Seq, push};
use graph::Latch;
use states::StateLit;
use std::alloc::Global;

/// The value to which the latch at a position is reset, if it is reset to one.
fn reset_lit(latches: &[Latch], latch: u32) -> Option<StateLit>
    requires { latch < length latches.now }
    ensures some { IfSome result (λ a. IsResetLit latches.now a × (a.latch ≡ latch)) }
    ensures none { result ≡ None → (a : Lit) → a.latch ≡ latch → IsResetLit latches.now a → ⊥ }
{
    match latches[latch as usize].reset.0 {
        0 => Some(StateLit {
            latch,
            value: false,
        }),
        1 => Some(StateLit { latch, value: true }),
        _ => None,
    }
}

/// A clause of one literal for each latch that is reset to 0 or 1, at level 0.
pub(crate) fn reset_entries(alloc: Global, latches: &[Latch]) -> Result<Vec<Entry>, Refused>
    requires { length latches.now < 2 ^ 32 }
    ensures only { IfOk result (λ v. All (IsResetEntry latches.now) v.items) }
    ensures each { IfOk result (λ v. (a : Lit) → IsResetLit latches.now a → Contains v.items (reset_entry a)) }
{
    let mut entries = Vec::new(alloc);
    'resetting: for i in 0..latches.len() {
        if let Some(lit) = reset_lit(latches, i as u32) {
            let clause = Seq::from_slice(alloc, &[lit])?;
            push(&mut entries, Entry { clause, level: 0 })?;
        }
    }
    Ok(entries)
}
