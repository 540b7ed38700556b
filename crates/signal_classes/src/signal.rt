//! Signals, and those of two times.

ghost use Rattle.std.specs.Prelude.{◌≡◌, ◌++◌, if◌then◌else◌, map, true, OnOk};
ghost use Rattle.cnf.specs.Clauses.{along, is_negated};

use base::{Refused, extend, push};
use graph::{Latch, Lit, Model};
use std::alloc::Global;

/// A literal of a circuit, and the literal that it is one step later.
#[derive(Clone, Copy)]
pub struct Signal {
    /// the literal
    pub now: Lit,
    /// one step later
    pub later: Lit,
}

/// Two signals that may be equal, of which the first is behind the second.
#[derive(Clone, Copy)]
pub struct Equal {
    pub one: Signal,
    pub other: Signal,
}

/// The literal's negation.
pub(crate) fn negated(lit: Lit) -> Lit
    ensures { result ≡ along true lit }
{
    if lit.is_negated() {
        Lit(lit.0 - 1)
    } else {
        Lit(lit.0 + 1)
    }
}

/// The literal, negated where the other one is.
pub fn negated_as(lit: Lit, other: Lit) -> Lit
    ensures { result ≡ along (is_negated other) lit }
{
    if other.is_negated() {
        negated(lit)
    } else {
        lit
    }
}

impl Signal {
    /// What is true where the signal is false.
    pub fn negated(self) -> Signal
        ensures now { result.now ≡ along true self.now }
        ensures later { result.later ≡ along true self.later }
    {
        Signal {
            now: negated(self.now),
            later: negated(self.later),
        }
    }

    /// The literal, a step later where that is wanted.
    pub fn at(self, is_later: bool) -> Lit
        ensures { result ≡ (if is_later then self.later else self.now) }
    {
        if is_later { self.later } else { self.now }
    }
}

/// Adds the latches.
pub(crate) fn push_latches(lits: &mut Vec<Lit>, latches: &[Latch]) -> Result<(), Refused>
    ensures { OnOk result (lits.new.items ≡ lits.old.items ++ map (λ l. l.lit) latches.now) }
{
    for latch in latches {
        push(lits, latch.lit)?;
    }
    Ok(())
}

/// Adds the gates, each behind what it is made of.
fn push_gates(lits: &mut Vec<Lit>, circuit: &Model) -> Result<(), Refused> {
    for place in circuit.order() {
        if let Some(gate) = circuit.gates().get(*place as usize) {
            push(lits, gate.lhs)?;
        }
    }
    Ok(())
}

/// The constant, the inputs, the latches and the gates of a circuit, each behind what it is made of at its time.
pub(crate) fn lits_of(alloc: Global, circuit: &Model) -> Result<Vec<Lit>, Refused> {
    let mut lits = Vec::new(alloc);
    push(&mut lits, Lit(0))?;
    extend(&mut lits, circuit.inputs())?;
    push_latches(&mut lits, circuit.latches())?;
    push_gates(&mut lits, circuit)?;
    Ok(lits)
}
