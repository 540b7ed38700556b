//! Which literals are conjunctions of which (structural hashing).

use base::{Refused, insert_hashed, push};
use graph::{Gate, Lit, Model};
use std::alloc::Global;
use std::collections::HashMap;
use witness_pairs::{literal_of, name};

/// The conjunction of two literals, where it is one of them or a constant.
fn simplified(one: Lit, other: Lit) -> Option<Lit> {
    if one.0 == 0 || other.0 == 0 {
        return Some(Lit(0));
    }
    if one.0 == 1 || one.0 == other.0 {
        return Some(other);
    }
    if other.0 == 1 {
        return Some(one);
    }
    if one.variable() == other.variable() {
        return Some(Lit(0));
    }
    None
}

/// Both literals, the greater one first.
fn sides(one: Lit, other: Lit) -> (u32, u32) {
    if one.0 < other.0 {
        (other.0, one.0)
    } else {
        (one.0, other.0)
    }
}

/// The literals that are known as conjunctions of two others.
#[derive(Drop)]
pub struct Conjunctions {
    /// by the two, of which the greater one comes first
    table: HashMap<(u32, u32), Lit>,
}

impl Conjunctions {
    /// None is known.
    pub fn new(alloc: Global) -> Conjunctions {
        Conjunctions {
            table: HashMap::new(alloc),
        }
    }

    /// The literal that is the conjunction of the two, where one is known.
    pub fn literal(&self, one: Lit, other: Lit) -> Option<Lit> {
        if let Some(same) = simplified(one, other) {
            return Some(same);
        }
        match self.table.get(&sides(one, other)) {
            Some(lit) => Some(*lit),
            None => None,
        }
    }

    /// Notes that the literal is the conjunction of the two.
    pub fn add(&mut self, one: Lit, other: Lit, lit: Lit) -> Result<(), Refused> {
        insert_hashed(&mut self.table, sides(one, other), lit)?;
        Ok(())
    }

    /// Notes a gate of the model, of whose variables those before it have these literals with the same values. Where
    /// another literal is known as the conjunction of its right sides, that one has its value.
    fn add_gate(&mut self, same: &mut [Lit], gate: Gate) -> Result<(), Refused> {
        let one = literal_of(same, gate.rhs0);
        let other = literal_of(same, gate.rhs1);
        match self.literal(one, other) {
            Some(lit) => name(same, gate.lhs, lit),
            None => self.add(one, other, gate.lhs)?,
        }
        Ok(())
    }

    /// Notes the gates of the model. Answers for each of its variables the first one that has the same value.
    pub fn add_model(&mut self, alloc: Global, model: &Model) -> Result<Vec<Lit>, Refused> {
        let mut same = variables_of(alloc, model)?;
        for position in model.order() {
            if let Some(gate) = model.gates().get(*position as usize) {
                self.add_gate(same.as_mut_slice(), *gate)?;
            }
        }
        Ok(same)
    }
}

/// The model's variables, from the constant on.
fn variables_of(alloc: Global, model: &Model) -> Result<Vec<Lit>, Refused> {
    let mut variables = Vec::new(alloc);
    for variable in 0..model.max_var().saturating_add(1) {
        push(&mut variables, Lit(variable.saturating_mul(2)))?;
    }
    Ok(variables)
}
