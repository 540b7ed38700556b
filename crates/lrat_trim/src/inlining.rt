//! Fewer lines for the same clauses.
//!
//! A line on which one other rests costs its id, its literals, and a hint there. Its hints take the place of that hint
//! where unit propagation over them all comes to a conflict too.

ghost use Rattle.std.specs.Prelude.{◌≡◌};
ghost use Rattle.base.specs.Budget.{Spends};

use crate::derivation::Derivation;
use crate::hinting::{Effect, suppose_false};
use base::{Budget, Lists, Refused, copied, push};
use lrat::Trail;
use std::alloc::Global;

/// The most hints that show one clause once others are inlined.
const MOST_HINTS: usize = 1_000;

/// Chains of hints, in which the hints of lines stand in place of the lines.
#[derive(Drop)]
pub struct Inlining {
    /// for each derived clause, how many hints name it
    uses: Vec<u32>,
    /// the chains so far
    chains: Lists<u32>,
}

/// For each derived clause, how many hints name it.
fn uses_of(alloc: Global, derivation: &Derivation) -> Result<Vec<u32>, Refused> {
    let mut uses = Vec::new(alloc);
    for _ in 0..derivation.derived() {
        push(&mut uses, 0)?;
    }
    for place in 0..derivation.derived() {
        count(uses.as_mut_slice(), derivation, derivation.hints(place));
    }
    Ok(uses)
}

/// Counts what the hints name.
fn count(uses: &mut [u32], derivation: &Derivation, hints: &[u32]) {
    for hint in hints {
        if let Some(place) = derivation.place(*hint)
            && let Some(uses) = uses.get_mut(place)
        {
            *uses = uses.saturating_add(1);
        }
    }
}

/// The ids with others in place of one.
fn replaced(alloc: Global, ids: &[u32], one: u32, others: &[u32]) -> Result<Vec<u32>, Refused> {
    let mut all = Vec::new(alloc);
    for id in ids {
        if *id == one {
            for other in others {
                push(&mut all, *other)?;
            }
        } else {
            push(&mut all, *id)?;
        }
    }
    Ok(all)
}

/// Hints among these that show the derived clause at a place, in the order in which unit propagation takes them, or none
/// where it comes to no conflict.
fn closed(
    alloc: Global,
    derivation: &Derivation,
    trail: &mut Trail,
    place: usize,
    ids: &[u32],
) -> Result<Option<Vec<u32>>, Refused>
    ensures { trail.new.vars ≡ trail.old.vars }
{
    suppose_false(trail, derivation.clause(derivation.id(place)))?;
    let denied = trail.len();
    let mut order = Vec::new(alloc);
    'round: for _ in ids {
        match derivation.go_round(trail, ids, &mut order)? {
            Effect::Conflicts => {
                let set = trail.literals();
                let set = set.get(denied..).unwrap_or(&[]);
                return Ok(Some(derivation.cone(alloc, set, order.as_slice())?));
            }
            Effect::Sets => {}
            Effect::Nothing => return Ok(None),
        }
    }
    Ok(None)
}

/// The chains of the derivation, with the chains of lines on which one other clause rests in place of the lines.
pub fn inlined_chains(
    alloc: Global,
    derivation: &Derivation,
    budget: &mut Budget,
) -> Result<Lists<u32>, Refused>
    ensures { Spends budget.old budget.new }
{
    let mut inlining = Inlining {
        uses: uses_of(alloc, derivation)?,
        chains: Lists::new(alloc),
    };
    let mut trail = derivation.trail(alloc)?;
    for place in 0..derivation.derived() {
        let chain = inlining.inlined(alloc, derivation, &mut trail, place, budget)?;
        inlining.chains.push(chain.as_slice())?;
    }
    Ok(inlining.chains)
}

impl Inlining {
    /// The hints of the clause with this id, where they may stand in its place.
    fn chain(&self, derivation: &Derivation, id: u32) -> Option<&[u32]> {
        let place = derivation.place(id)?;
        if self.uses.get(place) != Some(&1) || place >= self.chains.len() {
            return None;
        }
        Some(self.chains.list(place))
    }

    /// The hints of the derived clause at a place, with those of lines in place of the lines.
    fn inlined(
        &self,
        alloc: Global,
        derivation: &Derivation,
        trail: &mut Trail,
        place: usize,
        budget: &mut Budget,
    ) -> Result<Vec<u32>, Refused>
        ensures vars { trail.new.vars ≡ trail.old.vars }
        ensures spends { Spends budget.old budget.new }
    {
        let mut current = copied(alloc, derivation.hints(place))?;
        for hint in derivation.hints(place) {
            if let Some(chain) = self.chain(derivation, *hint) {
                let ids = replaced(alloc, current.as_slice(), *hint, chain)?;
                budget.spend(ids.len() as u64);
                if ids.len() <= MOST_HINTS
                    && budget.left() > 0
                    && let Some(closed) = closed(alloc, derivation, trail, place, ids.as_slice())?
                {
                    current = closed;
                }
            }
        }
        Ok(current)
    }
}
