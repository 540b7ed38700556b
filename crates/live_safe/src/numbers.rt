//! The variables of the shadow circuit.

ghost use Rattle.std.specs.Prelude.{◌≡◌, ℕ, ◌+◌, ◌*◌, ◌≤◌, length};
ghost use Rattle.graph.specs.Circuits.{wanted_of};
ghost use Rattle.live_safe.specs.Numbers.{AreNumbers, AreSpaced};

use graph::{Lit, Parts};

/// The new variables, or the first of each row of them.
#[derive(Clone, Copy)]
pub struct Numbers {
    /// The input.
    pub save: u32,
    /// The latch that is set once the copy is taken.
    pub saved: u32,
    /// The copies of the latches.
    pub shadow: u32,
    /// For each wanted literal, whether it has been set since.
    pub seen: u32,
    /// The gate that takes the copy.
    pub start: u32,
    /// The gate that says that no copy is or was taken.
    pub idle: u32,
    /// The gates of the copies.
    pub copies: u32,
    /// The gates of what has been seen.
    pub watches: u32,
    /// The gates that join it all.
    pub chain: u32,
}

/// The variables of the shadow circuit of these parts.
pub fn count_out(parts: &Parts, wanted: &[Lit]) -> Numbers
    requires limit { parts.now.max_var + 4 + 8 * length parts.now.latches + 4 * length wanted.now ≤ 4194303 }
    ensures numbers { (j : ℕ) → wanted.now ≡ wanted_of parts.now j → AreNumbers parts.now j result }
    ensures spaced { AreSpaced (length parts.now.latches) (length wanted.now) result }
{
    let latches = parts.latches.len() as u32;
    let start = parts.max_var + 3 + latches + wanted.len() as u32;
    Numbers {
        save: parts.max_var + 1,
        saved: parts.max_var + 2,
        shadow: parts.max_var + 3,
        seen: parts.max_var + 3 + latches,
        start,
        idle: start + 1,
        copies: start + 2,
        watches: start + 2 + 6 * latches,
        chain: start + 2 + 6 * latches + 2 * wanted.len() as u32,
    }
}
