//! The new variables of the circuit that counts rounds.

ghost use Rattle.std.specs.Prelude.{◌≡◌, ℕ, ◌+◌, ◌*◌, ◌≤◌, length};
ghost use Rattle.graph.specs.Circuits.{wanted_of};
ghost use Rattle.extension.specs.Rows.{AreRows, AreSpaced};

use graph::{Lit, Parts};

/// The first variable of each row of new ones.
#[derive(Clone, Copy)]
pub struct Rows {
    /// For each wanted literal, the latch that it has been set since the last round ended.
    pub seen: u32,
    /// The latches that count.
    pub count: u32,
    /// For each wanted literal, the gate that it is still missing.
    pub missing: u32,
    /// The gates that join what is met.
    pub join: u32,
    /// For each wanted literal, the gate that it is met and the round does not end.
    pub opened: u32,
    /// Two gates for each latch that counts.
    pub stage: u32,
}

/// The variables of the circuit that counts this number of rounds and one more.
pub fn count_out(parts: &Parts, wanted: &[Lit], rounds: u32) -> Rows
    requires limit { parts.now.max_var + 4 * length wanted.now + 3 * (rounds + 1) ≤ 4194303 }
    ensures rows { (j : ℕ) → wanted.now ≡ wanted_of parts.now j → AreRows parts.now j rounds result }
    ensures spaced { AreSpaced (length wanted.now) rounds result }
{
    let kinds = wanted.len() as u32;
    let first = parts.max_var + 2 + rounds;
    Rows {
        seen: parts.max_var + 1,
        count: parts.max_var + 1 + kinds,
        missing: first + kinds,
        join: first + 2 * kinds,
        opened: first + 3 * kinds,
        stage: first + 4 * kinds,
    }
}
