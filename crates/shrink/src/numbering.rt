//! Numbering inputs and latches.

ghost use Rattle.std.specs.Prelude.{◌≡◌, ◌≢◌, ◌+◌, ◌*◌, ◌<◌, ◌≤◌, ◌⊎◌, ℕ, All, AllPairs, Contains, IfOk, length, map, slice_index_or};
ghost use Rattle.graph.specs.Circuits.{variable};
ghost use Rattle.graph.specs.declared.circuit.Lit.{Lit as ALit};
ghost use Rattle.shrink.specs.Hashed.{AreNumbered, bases as bases_of, image_of};

use base::{Refused, copied, filled, push};
use graph::{Lit, Parts};
use std::alloc::Global;

/// The literals of inputs and latches, in their order.
pub fn bases(alloc: Global, parts: &Parts) -> Result<Vec<Lit>, Refused>
    ensures { IfOk result (λ v. v.items ≡ bases_of parts.now) }
{
    let mut bases = copied(alloc, parts.inputs.as_slice())?;
    for latch in parts.latches.as_slice() {
        push(&mut bases, latch.lit)?;
    }
    Ok(bases)
}

/// Carries the literals to those of the variables 1, 2 and so on.
fn number(image: &mut [Lit], bases: &[Lit])
    requires in_range { All (λ a. variable a < length image.old) bases.now }
    requires once { AllPairs (λ u v. u ≢ v) (map variable bases.now) }
    requires few { length bases.now < 2147483647 }
    ensures same_length { length image.new ≡ length image.old }
    ensures numbered { (k : ℕ) (d : ALit) → k < length bases.now → image_of image.new (variable (slice_index_or bases.now k d)) ≡ record { 0 = 2 * (1 + k) } }
    ensures kept { (v : ℕ) → Contains (map variable bases.now) v ⊎ (image_of image.new v ≡ image_of image.old v) }
{
    for (k, base) in bases.iter().enumerate() {
        image[base.variable() as usize] = Lit(2 * (k as u32 + 1));
    }
}

/// The literal that each variable is carried to, where it is the constant or one of the bases.
pub fn numbered_image(alloc: Global, parts: &Parts, bases: &[Lit]) -> Result<Vec<Lit>, Refused>
    requires small { parts.now.max_var ≤ 4194303 }
    requires in_range { All (λ a. (2 ≤ a.0) × (a.0 ≤ 2 * parts.now.max_var + 1)) bases.now }
    requires once { AllPairs (λ u v. u ≢ v) (map variable bases.now) }
    requires few { length bases.now < 2147483647 }
    ensures whole { IfOk result (λ v. length v.items ≡ parts.now.max_var + 1) }
    ensures numbered { IfOk result (λ v. AreNumbered bases.now v.items) }
{
    let mut image = filled(alloc, Lit(0), parts.max_var as usize + 1)?;
    number(image.as_mut_slice(), bases);
    Ok(image)
}
