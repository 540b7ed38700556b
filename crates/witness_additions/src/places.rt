//! Where gates stand that may be taken apart.

ghost use Rattle.std.specs.Prelude.{◌≤◌, IfSome};
ghost use Rattle.witness_additions.specs.Spread.{IsBoth};

use crate::sizes::MAX_VAR;
use base::{Refused, filled};
use graph::{Gate, Lit, Model};
use std::alloc::Global;

/// What a variable of the model is.
#[derive(Clone, Copy, PartialEq, Eq)]
enum Kind {
    /// A latch.
    Latch,
    /// A gate that is the conjunction of latches and negated latches: a cube.
    Cube,
    /// Something else.
    Other,
}

/// The variable's position among gates, where there is none.
const NONE: u32 = u32::MAX;

/// For each variable the position of its gate among the model's and then new ones. A gate of the model has one only
/// where it is a cube.
#[derive(Drop)]
pub struct Places {
    /// what each variable of the model is
    kinds: Vec<Kind>,
    /// the positions
    pub positions: Vec<u32>,
}

/// What the literal's variable is.
fn kind_of(kinds: &[Kind], lit: Lit) -> Kind {
    match kinds.get(lit.variable() as usize) {
        Some(kind) => *kind,
        None => Kind::Other,
    }
}

/// Notes what the literal's variable is.
fn note(kinds: &mut [Kind], lit: Lit, kind: Kind) {
    if let Some(place) = kinds.get_mut(lit.variable() as usize) {
        *place = kind;
    }
}

/// Whether a cube may have the literal.
fn is_of_cube(kinds: &[Kind], lit: Lit) -> bool {
    match kind_of(kinds, lit) {
        Kind::Latch => true,
        Kind::Cube => !lit.is_negated(),
        Kind::Other => false,
    }
}

/// Notes which of the model's variables are latches.
fn note_latches(kinds: &mut [Kind], model: &Model) {
    for latch in model.latches() {
        note(kinds, latch.lit, Kind::Latch);
    }
}

/// Notes which of the model's gates are cubes.
fn note_cubes(kinds: &mut [Kind], model: &Model) {
    for position in model.order() {
        if let Some(gate) = model.gates().get(*position as usize)
            && is_of_cube(kinds, gate.rhs0)
            && is_of_cube(kinds, gate.rhs1)
        {
            note(kinds, gate.lhs, Kind::Cube);
        }
    }
}

/// What each variable of the model is.
fn kinds_of(alloc: Global, model: &Model) -> Result<Vec<Kind>, Refused> {
    model.well_formed();
    let mut kinds = filled(alloc, Kind::Other, model.max_var() as usize + 1)?;
    note_latches(kinds.as_mut_slice(), model);
    note_cubes(kinds.as_mut_slice(), model);
    Ok(kinds)
}

/// How many variables the model and the new gates have, where the last one has the greatest.
fn variables_of(model: &Model, gates: &[Gate]) -> usize
    ensures { result ≤ 4194304 }
{
    let last = match gates.last() {
        Some(gate) => gate.lhs.variable(),
        None => 0,
    };
    (last.max(model.max_var()) as usize).min(MAX_VAR) + 1
}

impl Places {
    /// Puts the gate at the position.
    fn put(&mut self, lit: Lit, position: usize) {
        if let Some(place) = self.positions.get_mut(lit.variable() as usize) {
            *place = position.min(NONE as usize) as u32;
        }
    }

    /// Puts the gates of the model that are cubes.
    fn put_cubes(&mut self, model: &Model) {
        for (position, gate) in model.gates().iter().enumerate() {
            if kind_of(&self.kinds, gate.lhs) == Kind::Cube {
                self.put(gate.lhs, position);
            }
        }
    }

    /// Puts gates behind so many.
    fn put_gates(&mut self, before: usize, gates: &[Gate]) {
        for (position, gate) in gates.iter().enumerate() {
            self.put(gate.lhs, position.saturating_add(before));
        }
    }

    /// Where the gates stand among the model's and then these.
    pub fn of(alloc: Global, model: &Model, gates: &[Gate]) -> Result<Places, Refused> {
        let mut places = Places {
            kinds: kinds_of(alloc, model)?,
            positions: filled(alloc, NONE, variables_of(model, gates))?,
        };
        places.put_cubes(model);
        places.put_gates(model.gates().len(), gates);
        Ok(places)
    }

    /// Whether the literal's variable is a latch.
    pub fn is_latch(&self, lit: Lit) -> bool {
        match self.kinds.get(lit.variable() as usize) {
            Some(kind) => *kind == Kind::Latch,
            None => match self.positions.get(lit.variable() as usize) {
                Some(position) => *position == NONE,
                None => false,
            },
        }
    }

    /// The gate of the literal, where it may be taken apart.
    pub fn gate_of(&self, gates: &[Gate], lit: Lit) -> Option<Gate>
        ensures { IfSome result (λ g. IsBoth gates.now lit g.rhs0 g.rhs1) }
    {
        let place = self.positions.get(lit.variable() as usize)?;
        match gates.get(*place as usize) {
            Some(gate) if gate.lhs.0 == lit.0 => Some(*gate),
            _ => None,
        }
    }
}
