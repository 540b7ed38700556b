//! Derivations without the lines on which nothing rests.

use crate::derivation::{Derivation, Role};
use base::{Refused, insert_key, push};
use std::alloc::Global;
use std::collections::BTreeSet;

/// The ids that clauses of one derivation have in another one.
#[derive(Drop)]
pub struct Renumbering {
    /// for each derived clause its id there, or 0
    ids: Vec<u32>,
}

impl Renumbering {
    /// The formula's clauses keep their ids.
    pub fn new(alloc: Global) -> Renumbering {
        Renumbering {
            ids: Vec::new(alloc),
        }
    }

    /// The next derived clause has this id there.
    pub fn push(&mut self, id: u32) -> Result<(), Refused> {
        push(&mut self.ids, id)
    }

    /// The id there of a clause of the derivation.
    pub fn new_id(&self, derivation: &Derivation, id: u32) -> u32 {
        match derivation.place(id) {
            Some(place) => match self.ids.get(place) {
                Some(new) => *new,
                None => id,
            },
            None => id,
        }
    }

    /// The ids there of these clauses of the derivation.
    pub fn new_ids(
        &self,
        alloc: Global,
        derivation: &Derivation,
        ids: &[u32],
    ) -> Result<Vec<u32>, Refused> {
        let mut new = Vec::new(alloc);
        for id in ids {
            push(&mut new, self.new_id(derivation, *id))?;
        }
        Ok(new)
    }
}

/// Wants these ids.
fn want(wanted: &mut BTreeSet<u32>, ids: &[u32]) -> Result<(), Refused> {
    for id in ids {
        insert_key(wanted, *id)?;
    }
    Ok(())
}

/// The ids of the clauses on which the goals rest, and of the goals.
fn wanted_by_goals(alloc: Global, derivation: &Derivation) -> Result<BTreeSet<u32>, Refused> {
    let mut wanted = BTreeSet::new(alloc);
    for place in (0..derivation.derived()).rev() {
        let id = derivation.id(place);
        if derivation.role(place) == Role::Goal {
            insert_key(&mut wanted, id)?;
        }
        if wanted.contains(&id) {
            want(&mut wanted, derivation.hints(place))?;
        }
    }
    Ok(wanted)
}

/// The derivation without the lines on which no goal rests.
pub fn trimmed(alloc: Global, derivation: &Derivation) -> Result<Derivation, Refused> {
    let wanted = wanted_by_goals(alloc, derivation)?;
    let mut trimmed = derivation.emptied(alloc)?;
    let mut renumbering = Renumbering::new(alloc);
    for place in 0..derivation.derived() {
        let id = derivation.id(place);
        let mut new = 0;
        if wanted.contains(&id) {
            let hints = renumbering.new_ids(alloc, derivation, derivation.hints(place))?;
            let role = derivation.role(place);
            new = trimmed.add(role, derivation.clause(id), hints.as_slice())?;
        }
        renumbering.push(new)?;
    }
    Ok(trimmed)
}
