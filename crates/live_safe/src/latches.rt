//! The latches of the shadow circuit.

ghost use Rattle.std.specs.Prelude.{◌≡◌, ◌+◌, ◌*◌, ◌^◌, ◌<◌, ◌++◌, ◌∷◌, length, IfOk, OnOk};
ghost use Rattle.live_safe.specs.Numbers.{AreSpaced};
ghost use Rattle.live_safe.specs.Shadow.{cleared as cleared_of, negative as negative_of, shadow_latches, seen_latches};

use crate::literals::{cleared, negative, positive};
use crate::numbers::Numbers;
use base::{Refused, copied, push};
use graph::{Latch, Lit};
use std::alloc::Global;

/// Adds the copies of the latches, whose gates begin at the variable.
fn push_shadows(
    all: &mut Vec<Latch>,
    latches: &[Latch],
    shadow: u32,
    variable: u32,
) -> Result<(), Refused>
    requires fits { (shadow + length latches.now < 2 ^ 31) × (variable + 6 * length latches.now + 6 < 2 ^ 31) }
    ensures { OnOk result (all.new.items ≡ all.old.items ++ shadow_latches latches.now shadow variable) }
{
    for (i, _latch) in latches.iter().enumerate() {
        let next = negative(variable + 6 * i as u32 + 2);
        push(all, cleared(shadow + i as u32, next))?;
    }
    Ok(())
}

/// Adds for each wanted literal the latch of what has been seen, whose gates begin at the variable.
fn push_seens(all: &mut Vec<Latch>, wanted: &[Lit], seen: u32, variable: u32) -> Result<(), Refused>
    requires fits { (seen + length wanted.now < 2 ^ 31) × (variable + 2 * length wanted.now + 2 < 2 ^ 31) }
    ensures { OnOk result (all.new.items ≡ all.old.items ++ seen_latches wanted.now seen variable) }
{
    for (k, _lit) in wanted.iter().enumerate() {
        let next = positive(variable + 2 * k as u32 + 1);
        push(all, cleared(seen + k as u32, next))?;
    }
    Ok(())
}

/// The old latches, then the new ones.
pub fn all_latches(
    alloc: Global,
    latches: &[Latch],
    wanted: &[Lit],
    n: Numbers,
) -> Result<Vec<Latch>, Refused>
    requires { AreSpaced (length latches.now) (length wanted.now) n }
    ensures { IfOk result (λ v. v.items ≡ latches.now ++ cleared_of n.saved (negative_of n.idle) ∷ (shadow_latches latches.now n.shadow n.copies ++ seen_latches wanted.now n.seen n.watches)) }
{
    let mut all = copied(alloc, latches)?;
    push(&mut all, cleared(n.saved, negative(n.idle)))?;
    push_shadows(&mut all, latches, n.shadow, n.copies)?;
    push_seens(&mut all, wanted, n.seen, n.watches)?;
    Ok(all)
}
