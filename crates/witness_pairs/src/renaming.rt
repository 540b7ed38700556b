//! The literals of a witness circuit, as literals of the model with what the witness adds.

ghost use Rattle.std.specs.Prelude.{◌≡◌, ◌%◌, ◌==◌, if◌then◌else◌, get_or};
ghost use Rattle.live_safe.specs.Shadow.{negation};
ghost use Rattle.witness_pairs.specs.Renamed.{renamed, renamed_gate, renamed_latch};

use graph::{Gate, Latch, Lit};

/// The literal's negation.
pub fn flipped(lit: Lit) -> Lit
    ensures { result ≡ negation lit }
{
    if lit.is_negated() {
        Lit(lit.0 - 1)
    } else {
        Lit(lit.0 + 1)
    }
}

/// The literal that stands for the variable.
fn name_of(names: &[Lit], variable: u32) -> Lit
    ensures { result ≡ get_or names.now variable (record { 0 = 0 }) }
{
    match names.get(variable as usize) {
        Some(name) => *name,
        None => Lit(0),
    }
}

/// The literal that stands for a literal of the witness.
pub fn literal_of(names: &[Lit], lit: Lit) -> Lit
    ensures { result ≡ renamed names.now lit }
{
    let name = name_of(names, lit.variable());
    if lit.is_negated() {
        flipped(name)
    } else {
        name
    }
}

/// The literal that stands for a literal's negation.
pub fn denial_of(names: &[Lit], lit: Lit) -> Lit
    ensures { result ≡ negation (renamed names.now lit) }
{
    flipped(literal_of(names, lit))
}

/// The latch that stands for a latch of the witness.
pub fn latch_of(names: &[Lit], latch: Latch) -> Latch
    ensures { result ≡ renamed_latch names.now latch }
{
    Latch {
        lit: literal_of(names, latch.lit),
        next: literal_of(names, latch.next),
        reset: literal_of(names, latch.reset),
    }
}

/// The gate that stands for a gate of the witness.
pub fn gate_of(names: &[Lit], gate: Gate) -> Gate
    ensures { result ≡ renamed_gate names.now gate }
{
    Gate {
        lhs: literal_of(names, gate.lhs),
        rhs0: literal_of(names, gate.rhs0),
        rhs1: literal_of(names, gate.rhs1),
    }
}

/// Gives the literal's variable a name.
pub fn name(names: &mut [Lit], lit: Lit, given: Lit) {
    if let Some(place) = names.get_mut(lit.variable() as usize) {
        *place = given;
    }
}
