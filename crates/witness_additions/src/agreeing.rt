//! Whether a witness is the model where it shares something with it.

ghost use Rattle.std.specs.BTreeSet.{contains};
ghost use Rattle.std.specs.List.{list_all, list_any};
ghost use Rattle.std.specs.Ordering.{nat_cmp};
ghost use Rattle.std.specs.Prelude.{◌≡◌, ◌&&◌, ◌||◌, ◌==◌, ℕ, true, Contains, IfOk, IfSome};
ghost use Rattle.witness_additions.specs.Agreements.{AreAgreed, AreSameLatches, IsSameLatch, are_among, is_among, is_some, number_in};

use crate::naming::Naming;
use base::{Refused, filled, insert_key};
use graph::{Latch, Lit, Model};
use std::alloc::Global;
use std::collections::BTreeSet;
use witness_pairs::{Shared, given_at, literal_of};

/// For each variable of the model the position of its latch, or 0.
fn positions_of(alloc: Global, model: &Model) -> Result<Vec<usize>, Refused> {
    model.well_formed();
    let mut positions = filled(alloc, 0, model.max_var() as usize + 1)?;
    for (position, latch) in model.latches().iter().enumerate() {
        if let Some(place) = positions.get_mut(latch.lit.variable() as usize) {
            *place = position;
        }
    }
    Ok(positions)
}

/// The latch of the literal, where it is one.
fn latch_at(positions: &[usize], latches: &[Latch], lit: Lit) -> Option<Latch>
    ensures { IfSome result (λ l. Contains latches.now l × (l.lit ≡ lit)) }
{
    let position = positions.get(lit.variable() as usize)?;
    match latches.get(*position) {
        Some(latch) if latch.lit.0 == lit.0 => Some(*latch),
        _ => None,
    }
}

/// Whether each input is given.
fn are_given(inputs: &[Option<Lit>]) -> bool
    ensures { result ≡ list_all is_some inputs.now }
{
    inputs.iter().all(|given| given.is_some())
}

/// Whether a reset is a function.
fn has_function(resets: &[Option<Lit>]) -> bool
    ensures { result ≡ list_any is_some resets.now }
{
    resets.iter().any(|reset| reset.is_some())
}

/// The literals that stand for these.
fn literals_of(alloc: Global, names: &[Lit], lits: &[Lit]) -> Result<BTreeSet<u32>, Refused>
    ensures { IfOk result (λ s. (n : ℕ) → contains nat_cmp s n ≡ is_among names.now lits.now n) }
{
    let mut found = BTreeSet::new(alloc);
    for k in 0..lits.len() {
        insert_key(&mut found, literal_of(names, lits[k]).0)?;
    }
    Ok(found)
}

/// Whether the literal is 1 or among the others.
fn is_known(lit: Lit, others: &BTreeSet<u32>) -> bool
    ensures { result ≡ ((lit.0 == 1) || contains nat_cmp others.now lit.0) }
{
    lit.0 == 1 || others.contains(&lit.0)
}

/// Whether each literal that stands for one of these is 1 or among the others.
fn are_among(names: &[Lit], lits: &[Lit], others: &BTreeSet<u32>) -> bool
    ensures { result ≡ list_all (λ a. (number_in names.now a == 1) || contains nat_cmp others.now (number_in names.now a)) lits.now }
{
    lits.iter()
        .all(|lit| is_known(literal_of(names, *lit), others))
}

/// Whether the constraints of both are the same, but for those that are 1.
fn are_constraints_same(
    alloc: Global,
    names: &[Lit],
    constraints: &[Lit],
    same: &[Lit],
    others: &[Lit],
) -> Result<bool, Refused>
    ensures { IfOk result (λ b. b ≡ (are_among names.now constraints.now same.now others.now && are_among same.now others.now names.now constraints.now)) }
{
    let known = literals_of(alloc, same, others)?;
    if !are_among(names, constraints, &known) {
        return Ok(false);
    }
    let wanted = literals_of(alloc, names, constraints)?;
    let are_wanted = are_among(same, others, &wanted);
    Ok(are_wanted)
}

impl Naming {
    /// Whether the latch of the witness, where the model shares it, has the next literal and the reset of the model's.
    fn is_latch_same(
        &self,
        latch: Latch,
        given: Option<Lit>,
        positions: &[usize],
        latches: &[Latch],
    ) -> bool
        ensures { result ≡ true → IsSameLatch self.now.names.items self.now.same.items latches.now latch given }
    {
        let Some(lit) = given else {
            return true;
        };
        match latch_at(positions, latches, lit) {
            Some(found) => {
                literal_of(&self.names, latch.next).0 == literal_of(&self.same, found.next).0
                    && literal_of(&self.names, latch.reset).0 == found.reset.0
            }
            None => false,
        }
    }

    /// Whether each shared latch has the next literal and the reset of the model's.
    fn are_latches_same(
        &self,
        own: &[Latch],
        shared: &[Option<Lit>],
        positions: &[usize],
        latches: &[Latch],
    ) -> bool
        ensures { result ≡ true → AreSameLatches self.now.names.items self.now.same.items latches.now own.now shared.now }
    {
        for position in 0..own.len() {
            let given = given_at(shared, position);
            if !self.is_latch_same(own[position], given, positions, latches) {
                return false;
            }
        }
        true
    }

    /// Whether the witness has no input of its own, no reset that is a function, the model's constraints, and the next
    /// literal and the reset of each latch that it shares, by what structural hashing finds to be the same.
    pub fn agrees(
        &self,
        alloc: Global,
        model: &Model,
        witness: &Model,
        shared: &Shared,
    ) -> Result<bool, Refused>
        ensures { IfOk result (λ b. b ≡ true → AreAgreed self.now.names.items self.now.same.items model.now witness.now shared.now.inputs.items shared.now.latches.items shared.now.resets.items) }
    {
        let positions = positions_of(alloc, model)?;
        if !are_given(&shared.inputs)
            || has_function(&shared.resets)
            || !self.are_latches_same(
                witness.latches(),
                &shared.latches,
                &positions,
                model.latches(),
            )
        {
            return Ok(false);
        }
        let are_same = are_constraints_same(
            alloc,
            &self.names,
            witness.constraints(),
            &self.same,
            model.constraints(),
        )?;
        Ok(are_same)
    }
}
