//! The gates of the shadow circuit.

ghost use Rattle.std.specs.Prelude.{◌≡◌, ◌+◌, ◌*◌, ◌^◌, ◌<◌, ◌++◌, ◌∷◌, [], List, length, All, IfOk, OnOk};
ghost use Rattle.graph.specs.declared.circuit.Lit.{Lit as LitOf};
ghost use Rattle.graph.specs.declared.circuit.Latch.{Latch as LatchOf};
ghost use Rattle.live_safe.specs.Numbers.{AreSpaced};
ghost use Rattle.live_safe.specs.Shadow.{positive as positive_of, negative as negative_of, joins as joins_of, copy_gates, watch_gates, chain_gates, chain_end, equal_literals, seen_literals};

use crate::literals::{joins, negation, negative, positive};
use crate::numbers::Numbers;
use base::{Refused, copied, extend, push};
use graph::{Gate, Latch, Lit};
use std::alloc::Global;

/// Adds the six gates of a latch: the next literal of its copy, and whether the two are equal.
fn push_copy(
    gates: &mut Vec<Gate>,
    start: u32,
    latch: Latch,
    shadow: u32,
    v: u32,
) -> Result<(), Refused>
    requires fits { (start < 2 ^ 31) × (shadow < 2 ^ 31) × (v + 6 < 2 ^ 31) × (latch.lit.0 + 1 < 2 ^ 32) }
    ensures { OnOk result (gates.new.items ≡ gates.old.items ++ copy_gates start (latch ∷ []) shadow v) }
{
    extend(
        gates,
        &[
            joins(v, positive(start), latch.lit),
            joins(v + 1, negative(start), positive(shadow)),
            joins(v + 2, negative(v), negative(v + 1)),
            joins(v + 3, latch.lit, negative(shadow)),
            joins(v + 4, negation(latch.lit), positive(shadow)),
            joins(v + 5, negative(v + 3), negative(v + 4)),
        ],
    )
}

/// Adds the gates of all latches.
fn push_copies(
    gates: &mut Vec<Gate>,
    start: u32,
    latches: &[Latch],
    shadow: u32,
    v: u32,
) -> Result<(), Refused>
    requires fits { (start < 2 ^ 31) × (shadow + length latches.now < 2 ^ 31) × (v + 6 * length latches.now + 6 < 2 ^ 31) }
    requires literals { All (λ l. l.lit.0 + 1 < 2 ^ 32) latches.now }
    ensures { OnOk result (gates.new.items ≡ gates.old.items ++ copy_gates start latches.now shadow v) }
{
    for (i, latch) in latches.iter().enumerate() {
        push_copy(gates, start, *latch, shadow + i as u32, v + 6 * i as u32)?;
    }
    Ok(())
}

/// Adds the two gates of a wanted literal: whether it has been set since the copy was taken.
fn push_watch(
    gates: &mut Vec<Gate>,
    idle: u32,
    wanted: Lit,
    seen: u32,
    v: u32,
) -> Result<(), Refused>
    requires fits { (idle < 2 ^ 31) × (seen < 2 ^ 31) × (v + 2 < 2 ^ 31) × (wanted.0 + 1 < 2 ^ 32) }
    ensures { OnOk result (gates.new.items ≡ gates.old.items ++ watch_gates idle (wanted ∷ []) seen v) }
{
    extend(
        gates,
        &[
            joins(v, negative(seen), negation(wanted)),
            joins(v + 1, negative(idle), negative(v)),
        ],
    )
}

/// Adds the gates of all wanted literals.
fn push_watches(
    gates: &mut Vec<Gate>,
    idle: u32,
    wanted: &[Lit],
    seen: u32,
    v: u32,
) -> Result<(), Refused>
    requires fits { (idle < 2 ^ 31) × (seen + length wanted.now < 2 ^ 31) × (v + 2 * length wanted.now + 2 < 2 ^ 31) }
    requires literals { All (λ a. a.0 + 1 < 2 ^ 32) wanted.now }
    ensures { OnOk result (gates.new.items ≡ gates.old.items ++ watch_gates idle wanted.now seen v) }
{
    for (k, lit) in wanted.iter().enumerate() {
        push_watch(gates, idle, *lit, seen + k as u32, v + 2 * k as u32)?;
    }
    Ok(())
}

/// Joins the literals in turn to the first one, and gives the chain's end.
pub fn push_chain(gates: &mut Vec<Gate>, rest: &[Lit], first: Lit, v: u32) -> Result<Lit, Refused>
    requires fits { v + length rest.now < 2 ^ 31 }
    ensures gates { OnOk result (gates.new.items ≡ gates.old.items ++ chain_gates rest.now first v) }
    ensures end { IfOk result (λ a. a ≡ chain_end rest.now first v) }
{
    let mut so_far = first;
    for (k, lit) in rest.iter().enumerate() {
        push(gates, joins(v + k as u32, so_far, *lit))?;
        so_far = positive(v + k as u32);
    }
    Ok(so_far)
}

/// The literals that the chain joins: each latch equals its copy, each wanted literal was seen.
fn chained_literals(
    alloc: Global,
    latches: usize,
    copies: u32,
    wanted: usize,
    seen: u32,
) -> Result<Vec<Lit>, Refused>
    requires fits { (copies + 6 * latches + 6 < 2 ^ 31) × (seen + wanted < 2 ^ 31) }
    ensures { (ls : List LatchOf) (qs : List LitOf) → length ls ≡ latches → length qs ≡ wanted → IfOk result (λ v. v.items ≡ equal_literals ls copies ++ seen_literals qs seen) }
{
    let mut lits = Vec::new(alloc);
    for i in 0..latches {
        push(&mut lits, positive(copies + 6 * i as u32 + 5))?;
    }
    for k in 0..wanted {
        push(&mut lits, positive(seen + k as u32))?;
    }
    Ok(lits)
}

/// Adds the new gates, and gives the chain's end.
fn push_gates(
    alloc: Global,
    all: &mut Vec<Gate>,
    latches: &[Latch],
    wanted: &[Lit],
    n: Numbers,
) -> Result<Lit, Refused>
    requires spaced { AreSpaced (length latches.now) (length wanted.now) n }
    requires literals { All (λ l. l.lit.0 + 1 < 2 ^ 32) latches.now }
    requires wanted_literals { All (λ a. a.0 + 1 < 2 ^ 32) wanted.now }
    ensures gates { OnOk result (all.new.items ≡ all.old.items ++ joins_of n.start (positive_of n.save) (negative_of n.saved) ∷ joins_of n.idle (negative_of n.save) (negative_of n.saved)
        ∷ (copy_gates n.start latches.now n.shadow n.copies ++ (watch_gates n.idle wanted.now n.seen n.watches
        ++ chain_gates (equal_literals latches.now n.copies ++ seen_literals wanted.now n.seen) (positive_of n.saved) n.chain))) }
    ensures bad { IfOk result (λ a. a ≡ chain_end (equal_literals latches.now n.copies ++ seen_literals wanted.now n.seen) (positive_of n.saved) n.chain) }
{
    push(all, joins(n.start, positive(n.save), negative(n.saved)))?;
    push(all, joins(n.idle, negative(n.save), negative(n.saved)))?;
    push_copies(all, n.start, latches, n.shadow, n.copies)?;
    push_watches(all, n.idle, wanted, n.seen, n.watches)?;
    let rest = chained_literals(alloc, latches.len(), n.copies, wanted.len(), n.seen)?;
    push_chain(all, &rest, positive(n.saved), n.chain)
}

/// The old gates, then the new ones, and the chain's end.
pub fn all_gates(
    alloc: Global,
    gates: &[Gate],
    latches: &[Latch],
    wanted: &[Lit],
    n: Numbers,
) -> Result<(Vec<Gate>, Lit), Refused>
    requires spaced { AreSpaced (length latches.now) (length wanted.now) n }
    requires literals { All (λ l. l.lit.0 + 1 < 2 ^ 32) latches.now }
    requires wanted_literals { All (λ a. a.0 + 1 < 2 ^ 32) wanted.now }
    ensures gates { IfOk result (λ p. p.0.items ≡ gates.now ++ joins_of n.start (positive_of n.save) (negative_of n.saved) ∷ joins_of n.idle (negative_of n.save) (negative_of n.saved)
        ∷ (copy_gates n.start latches.now n.shadow n.copies ++ (watch_gates n.idle wanted.now n.seen n.watches
        ++ chain_gates (equal_literals latches.now n.copies ++ seen_literals wanted.now n.seen) (positive_of n.saved) n.chain))) }
    ensures bad { IfOk result (λ p. p.1 ≡ chain_end (equal_literals latches.now n.copies ++ seen_literals wanted.now n.seen) (positive_of n.saved) n.chain) }
{
    let mut all = copied(alloc, gates)?;
    let bad = push_gates(alloc, &mut all, latches, wanted, n)?;
    Ok((all, bad))
}
