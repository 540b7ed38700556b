//! Latches that clauses say are equal.

use base::{Refused, Seq, filled, filled_like, insert_key};
use graph::{Lit, Model};
use std::alloc::Global;
use std::collections::BTreeSet;

/// The latches of a circuit, and what clauses say of them.
#[derive(Drop)]
pub(crate) struct EqualLatches {
    /// for each variable the position of its latch
    positions: Vec<usize>,
    /// for each latch a literal of one before it, or a constant, that it is equal to
    pub equal: Vec<Option<Lit>>,
    /// the clauses of two literals so far
    pairs: BTreeSet<u64>,
}

/// Both literals as one number, in whatever order they come.
fn key(one: Lit, other: Lit) -> u64 {
    let (low, high) = if one.0 < other.0 {
        (one.0, other.0)
    } else {
        (other.0, one.0)
    };
    u64::from(low) << 32 | u64::from(high)
}

/// The literal's negation.
fn negated(lit: Lit) -> Lit {
    Lit(lit.0 ^ 1)
}

/// The literal, negated where the other one is.
fn negated_as(lit: Lit, other: Lit) -> Lit {
    if other.is_negated() {
        negated(lit)
    } else {
        lit
    }
}

/// For each variable the position of its latch, or 0.
fn positions_of(alloc: Global, circuit: &Model) -> Result<Vec<usize>, Refused> {
    circuit.well_formed();
    let mut positions = filled(alloc, 0, circuit.max_var() as usize + 1)?;
    for (position, latch) in circuit.latches().iter().enumerate() {
        if let Some(place) = positions.get_mut(latch.lit.variable() as usize) {
            *place = position;
        }
    }
    Ok(positions)
}

impl EqualLatches {
    /// Nothing is said of the circuit's latches.
    fn new(alloc: Global, circuit: &Model) -> Result<EqualLatches, Refused> {
        Ok(EqualLatches {
            positions: positions_of(alloc, circuit)?,
            equal: filled_like(alloc, None, circuit.latches())?,
            pairs: BTreeSet::new(alloc),
        })
    }

    /// The position of the literal's latch.
    fn position(&self, lit: Lit) -> usize {
        match self.positions.get(lit.variable() as usize) {
            Some(position) => *position,
            None => 0,
        }
    }

    /// Notes that the literal's latch has a value in common with another one, where none is noted yet.
    fn note(&mut self, lit: Lit, same: Lit) {
        let position = self.position(lit);
        if let Some(equal) = self.equal.get_mut(position)
            && equal.is_none()
        {
            *equal = Some(negated_as(same, lit));
        }
    }

    /// Notes what a clause says with those before it: of one literal that it is true, of two the second time that they are
    /// opposite.
    fn add(&mut self, clause: &[Lit]) -> Result<(), Refused> {
        match clause {
            [lit] => self.note(*lit, Lit(1)),
            [one, other] => {
                if self.pairs.contains(&key(negated(*one), negated(*other))) {
                    if self.position(*one) < self.position(*other) {
                        self.note(*other, negated(*one));
                    } else {
                        self.note(*one, negated(*other));
                    }
                }
                insert_key(&mut self.pairs, key(*one, *other))?;
            }
            _ => {}
        }
        Ok(())
    }

    /// What the clauses say of the latches.
    pub(crate) fn of(
        alloc: Global,
        circuit: &Model,
        clauses: &[Seq<Lit>],
    ) -> Result<EqualLatches, Refused> {
        let mut latches = EqualLatches::new(alloc, circuit)?;
        for clause in clauses {
            latches.add(clause.as_slice())?;
        }
        Ok(latches)
    }
}
