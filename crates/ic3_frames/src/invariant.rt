//! The clauses of a frame as clauses over the circuit's literals.

ghost use Rattle.std.specs.Prelude.{◌≡◌, ◌≢◌, ◌↔◌, ◌<◌, IsTrue, map, All, IfOk};
ghost use Rattle.ic3_frames.specs.Clauses.{circuit_lit as circuit_lit_of, invariant_above};

use crate::frames::Entry;
use base::{Refused, Seq};
use graph::{Latch, Lit};
use states::StateLit;
use std::alloc::Global;

/// Whether no clause ends at the level.
pub(crate) fn is_left(entries: &[Entry], level: u32) -> bool
    ensures { IsTrue result ↔ All (λ e. e.level ≢ level) entries.now }
{
    entries.iter().all(|entry| entry.level != level)
}

/// The literal that is true where the latch has the value.
fn circuit_lit(latches: &[Latch], lit: StateLit) -> Lit
    requires { All (λ l. l.lit.0 < 4294967295) latches.now }
    ensures { result ≡ circuit_lit_of latches.now lit }
{
    let latch = match latches.get(lit.latch as usize) {
        Some(latch) => latch.lit,
        None => Lit(0),
    };
    if lit.value { latch } else { Lit(latch.0 + 1) }
}

/// The clause over the circuit's literals.
fn circuit_clause(
    alloc: Global,
    latches: &[Latch],
    clause: &[StateLit],
) -> Result<Seq<Lit>, Refused>
    requires { All (λ l. l.lit.0 < 4294967295) latches.now }
    ensures { IfOk result (λ c. c ≡ map (circuit_lit_of latches.now) clause.now) }
{
    let mut lits = Seq::new(alloc);
    'translating: for lit in clause {
        lits.push(circuit_lit(latches, *lit))?;
    }
    Ok(lits)
}

/// The clauses above the level.
pub(crate) fn clauses_above(
    alloc: Global,
    latches: &[Latch],
    entries: &[Entry],
    level: u32,
) -> Result<Seq<Seq<Lit>>, Refused>
    requires { All (λ l. l.lit.0 < 4294967295) latches.now }
    ensures { IfOk result (λ c. c ≡ invariant_above latches.now entries.now level) }
{
    let mut clauses = Seq::new(alloc);
    'collecting: for entry in entries {
        if level < entry.level {
            clauses.push(circuit_clause(alloc, latches, entry.clause.as_slice())?)?;
        }
    }
    Ok(clauses)
}
