//! The parts of the shadow circuit.

ghost use Rattle.std.specs.Prelude.{◌≡◌, ℕ, ◌+◌, ◌*◌, ◌^◌, ◌<◌, ◌≤◌, ◌++◌, ◌∷◌, [], length, All, IfOk};
ghost use Rattle.graph.specs.Circuits.{wanted_of};
ghost use Rattle.live_safe.specs.Shadow.{shadow_of};

use crate::gates::all_gates;
use crate::latches::all_latches;
use crate::literals::positive;
use crate::numbers::count_out;
use base::{Refused, Seq};
use graph::{Lit, Parts};
use std::alloc::Global;

/// The old inputs, then the new one.
fn all_inputs(alloc: Global, inputs: &[Lit], save: Lit) -> Result<Seq<Lit>, Refused>
    ensures { IfOk result (λ v. v ≡ inputs.now ++ save ∷ []) }
{
    let mut all = Seq::from_slice(alloc, inputs)?;
    all.push(save)?;
    Ok(all)
}

/// The parts of the shadow circuit of the property that wants these literals.
pub fn shadow_parts(alloc: Global, parts: &Parts, wanted: &[Lit]) -> Result<Parts, Refused>
    requires limit { parts.now.max_var + 4 + 8 * length parts.now.latches + 4 * length wanted.now ≤ 4194303 }
    requires literals { All (λ l. l.lit.0 + 1 < 2 ^ 32) parts.now.latches }
    requires wanted_literals { All (λ a. a.0 + 1 < 2 ^ 32) wanted.now }
    ensures { (j : ℕ) → wanted.now ≡ wanted_of parts.now j → IfOk result (λ p. p ≡ shadow_of parts.now j) }
{
    let n = count_out(parts, wanted);
    let old = parts.latches.as_slice();
    let latches = all_latches(alloc, old, wanted, n)?;
    let (gates, bad) = all_gates(alloc, parts.gates.as_slice(), old, wanted, n)?;
    Ok(Parts {
        max_var: parts.max_var + 4 + 8 * old.len() as u32 + 4 * wanted.len() as u32,
        inputs: all_inputs(alloc, parts.inputs.as_slice(), positive(n.save))?,
        latches: Seq::from_vec(latches),
        outputs: Seq::new(alloc),
        bad: Seq::from_slice(alloc, &[bad])?,
        constraints: parts.constraints.copy(alloc)?,
        justice: Seq::new(alloc),
        fairness: Seq::new(alloc),
        gates: Seq::from_vec(gates),
    })
}
