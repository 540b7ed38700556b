//! Short chains of hints, found by unit propagation over all clauses.

ghost use Rattle.std.specs.Prelude.{◌≡◌};
ghost use Rattle.base.specs.Budget.{Spends};

use crate::derivation::Derivation;
use crate::hinting::{Effect, suppose_false};
use base::{Budget, Lists, Refused, copied, push};
use lrat::Trail;
use std::alloc::Global;

/// The most literals of which a search follows the consequences.
const MOST_FOLLOWED: usize = 1_000;

/// The most clauses that a search looks at, up to the last literal's.
const MOST_LOOKS: u64 = 20_000;

/// So few hints are short enough.
const FEW_HINTS: usize = 3;

/// Where literals occur.
#[derive(Drop)]
pub struct Occurrences {
    /// the ids of the clauses of one literal
    units: Vec<u32>,
    /// for each literal the ids of the clauses that have it, in order: of variable `v` at `2 * v`, of its negation behind that
    lists: Vec<Vec<u32>>,
}

/// Where the list of a literal is.
fn place_of(literal: i32) -> usize {
    let place = u64::from(literal.unsigned_abs()) * 2 + u64::from(literal < 0);
    place as usize
}

impl Occurrences {
    /// Where the literals of all clauses but the goals occur.
    pub fn new(alloc: Global, derivation: &Derivation) -> Result<Occurrences, Refused> {
        let mut lists = Vec::new(alloc);
        for _ in 0..=2 * u64::from(derivation.vars()) + 1 {
            push(&mut lists, Vec::new(alloc))?;
        }
        let mut occurrences = Occurrences {
            units: Vec::new(alloc),
            lists,
        };
        for id in 1..derivation.id(derivation.lines()) {
            occurrences.add(id, derivation.clause(id))?;
        }
        Ok(occurrences)
    }

    /// Adds a clause with an id.
    fn add(&mut self, id: u32, clause: &[i32]) -> Result<(), Refused> {
        if clause.len() == 1 {
            push(&mut self.units, id)?;
        }
        for literal in clause {
            if let Some(list) = self.lists.get_mut(place_of(*literal)) {
                push(list, id)?;
            }
        }
        Ok(())
    }

    /// The clauses that have the other literal of the variable.
    fn against(&self, literal: i32) -> &[u32] {
        match self.lists.get(place_of(literal) ^ 1) {
            Some(list) => list.as_slice(),
            None => &[],
        }
    }

    /// Goes on breadth first by what follows from the trail's literals, by clauses with ids below `limit`, up to one that is
    /// false. Those that set a literal, and the one that is false, come behind `order`.
    fn follow(
        &self,
        derivation: &Derivation,
        trail: &mut Trail,
        limit: u32,
        order: &mut Vec<u32>,
        budget: &mut Budget,
    ) -> Result<Effect, Refused>
        ensures vars { trail.new.vars ≡ trail.old.vars }
        ensures spends { Spends budget.old budget.new }
    {
        let mut search = Budget::new(MOST_LOOKS.min(budget.left()));
        let mut ids = below(self.units.as_slice(), limit);
        let mut effect = Effect::Nothing;
        for place in 0..MOST_FOLLOWED {
            search.spend(ids.len() as u64);
            if search.left() == 0 {
                break;
            }
            effect = derivation.go_round(trail, ids, order)?;
            if effect == Effect::Conflicts {
                break;
            }
            let Some(literal) = trail.literals().get(place) else {
                break;
            };
            ids = below(self.against(*literal), limit);
        }
        budget.spend(search.spent());
        Ok(effect)
    }

    /// The hints of each derived clause, or fewer.
    pub fn shortest_chains(
        &self,
        alloc: Global,
        derivation: &Derivation,
        budget: &mut Budget,
    ) -> Result<Lists<u32>, Refused>
        ensures { Spends budget.old budget.new }
    {
        let mut trail = derivation.trail(alloc)?;
        let mut chains = Lists::new(alloc);
        for place in 0..derivation.derived() {
            let chain = self.shortest(alloc, derivation, &mut trail, place, budget)?;
            chains.push(chain.as_slice())?;
        }
        Ok(chains)
    }

    /// The hints of the derived clause at a place, or fewer.
    fn shortest(
        &self,
        alloc: Global,
        derivation: &Derivation,
        trail: &mut Trail,
        place: usize,
        budget: &mut Budget,
    ) -> Result<Vec<u32>, Refused>
        ensures vars { trail.new.vars ≡ trail.old.vars }
        ensures spends { Spends budget.old budget.new }
    {
        let hints = copied(alloc, derivation.hints(place))?;
        if hints.len() <= FEW_HINTS || budget.left() == 0 {
            return Ok(hints);
        }
        let id = derivation.id(place);
        suppose_false(trail, derivation.clause(id))?;
        let denied = trail.len();
        let mut order = Vec::new(alloc);
        if self.follow(derivation, trail, id, &mut order, budget)? != Effect::Conflicts {
            return Ok(hints);
        }
        let set = trail.literals();
        let set = set.get(denied..).unwrap_or(&[]);
        let found = derivation.cone(alloc, set, order.as_slice())?;
        Ok(if found.len() < hints.len() {
            found
        } else {
            hints
        })
    }
}

/// Those of the ids, which rise, that are below the limit.
fn below(ids: &[u32], limit: u32) -> &[u32] {
    let count = match ids.binary_search(&limit) {
        Ok(place) | Err(place) => place,
    };
    ids.get(..count).unwrap_or(ids)
}
