//! A circuit whose literals are carried over.

ghost use Rattle.std.specs.Prelude.{◌≡◌, ◌≤◌, ◌+◌, All, IfOk, length, map};
ghost use Rattle.shrink.specs.Hashed.{carried_latch as carried_latch_of, carried_parts, renamed};
ghost use Rattle.shrink.specs.Carriable.{IsCarriable, AreCarriable};

use crate::carrying::rename;
use base::{Refused, Seq};
use graph::{Gate, Latch, Lit, Parts};
use std::alloc::Global;

/// The literals, carried over.
fn rename_all(alloc: Global, image: &[Lit], lits: &[Lit]) -> Result<Seq<Lit>, Refused>
    requires { All (IsCarriable image.now) lits.now }
    ensures { IfOk result (λ s. s ≡ map (renamed image.now) lits.now) }
{
    let mut renamed = Seq::new(alloc);
    for lit in lits {
        renamed.push(rename(image, *lit))?;
    }
    Ok(renamed)
}

/// The lists of literals, carried over.
fn rename_lists(alloc: Global, image: &[Lit], lists: &[Seq<Lit>]) -> Result<Seq<Seq<Lit>>, Refused>
    requires { All (All (IsCarriable image.now)) lists.now }
    ensures { IfOk result (λ s. s ≡ map (map (renamed image.now)) lists.now) }
{
    let mut renamed = Seq::new(alloc);
    for lits in lists {
        renamed.push(rename_all(alloc, image, lits.as_slice())?)?;
    }
    Ok(renamed)
}

/// A latch, carried over: a reset that is no constant is its own literal.
fn rename_latch(image: &[Lit], latch: Latch) -> Latch
    requires { IsCarriable image.now latch.lit × IsCarriable image.now latch.next }
    ensures { result ≡ carried_latch_of image.now latch }
{
    let lit = rename(image, latch.lit);
    let reset = if latch.reset.0 <= 1 { latch.reset } else { lit };
    Latch {
        lit,
        next: rename(image, latch.next),
        reset,
    }
}

/// The latches, carried over.
fn rename_latches(alloc: Global, image: &[Lit], latches: &[Latch]) -> Result<Seq<Latch>, Refused>
    requires { All (λ l. IsCarriable image.now l.lit × IsCarriable image.now l.next) latches.now }
    ensures { IfOk result (λ s. s ≡ map (carried_latch_of image.now) latches.now) }
{
    let mut renamed = Seq::new(alloc);
    for latch in latches {
        renamed.push(rename_latch(image, *latch))?;
    }
    Ok(renamed)
}

/// The circuit, with its literals carried over to these gates.
pub fn rename_parts(
    alloc: Global,
    parts: &Parts,
    image: &[Lit],
    gates: Seq<Gate>,
) -> Result<Parts, Refused>
    requires carriable { AreCarriable parts.now image.now }
    requires room { length parts.now.inputs + length parts.now.latches + length gates ≤ 4194303 }
    ensures { IfOk result (λ s. s ≡ carried_parts parts.now image.now gates) }
{
    let max_var = parts.inputs.len() + parts.latches.len() + gates.len();
    Ok(Parts {
        max_var: max_var as u32,
        inputs: rename_all(alloc, image, parts.inputs.as_slice())?,
        latches: rename_latches(alloc, image, parts.latches.as_slice())?,
        outputs: rename_all(alloc, image, parts.outputs.as_slice())?,
        bad: rename_all(alloc, image, parts.bad.as_slice())?,
        constraints: rename_all(alloc, image, parts.constraints.as_slice())?,
        justice: rename_lists(alloc, image, parts.justice.as_slice())?,
        fairness: rename_all(alloc, image, parts.fairness.as_slice())?,
        gates,
    })
}
