//! Lines that stand in place of two hints where many chains have both.
//!
//! Where a chain's hint sets a literal on which one later hint alone rests, a line that is the resolvent of both clauses
//! does what both do. A line of `n` literals that stands in place of pairs more than `n + 4` times makes the text shorter.
//! Lines are paired again, up to segments of chains that many clauses share.

ghost use Rattle.std.specs.Prelude.{◌≡◌};
ghost use Rattle.base.specs.Budget.{Spends};

use crate::derivation::{Derivation, Role};
use crate::renumbering::Renumbering;
use crate::resting::{Pair, Resting};
use base::{Budget, Refused, insert, push};
use std::alloc::Global;
use std::collections::BTreeMap;

/// The most times that all chains are looked at for pairs.
const MOST_ROUNDS: usize = 16;

/// The most literals of a line that stands in place of a pair.
const MOST_LITERALS: usize = 6;

/// How many hints a line costs beside its literals.
const LINE_HINTS: usize = 4;

/// How often chains have pairs, by the pairs' keys.
type Counts = BTreeMap<u64, u32>;

/// How often the pair of this key comes.
fn count_of(counts: &Counts, key: u64) -> u32 {
    match counts.get(&key) {
        Some(count) => *count,
        None => 0,
    }
}

/// Counts the pair of this key once more.
fn count(counts: &mut Counts, key: u64) -> Result<(), Refused> {
    let count = count_of(counts, key).saturating_add(1);
    insert(counts, key, count)?;
    Ok(())
}

/// Adds the literals of a clause, but for those of which the other has the negation, and those that are there.
fn push_resolved(literals: &mut Vec<i32>, clause: &[i32], other: &[i32]) -> Result<(), Refused> {
    for literal in clause {
        if !has_opposite(other, *literal) && !literals.contains(literal) {
            push(literals, *literal)?;
        }
    }
    Ok(())
}

/// The literals of both clauses but for the one on which they clash, each once: a gate's clause may have a literal twice.
fn resolvent(alloc: Global, one: &[i32], other: &[i32]) -> Result<Vec<i32>, Refused> {
    let mut literals = Vec::new(alloc);
    push_resolved(&mut literals, one, other)?;
    push_resolved(&mut literals, other, one)?;
    Ok(literals)
}

/// Whether the clause has the literal's negation.
fn has_opposite(clause: &[i32], literal: i32) -> bool {
    clause
        .iter()
        .any(|other| i64::from(*other) == -i64::from(literal))
}

/// Pairs of hints, and the lines in their place.
#[derive(Drop)]
struct Pairing {
    /// how often chains have each pair
    counts: Counts,
    /// how often each pair would be replaced
    chosen: Counts,
    /// the ids of the lines in place of pairs
    ids: BTreeMap<u64, u32>,
    /// the ids of the clauses among these lines
    renumbering: Renumbering,
}

impl Pairing {
    /// What chains of the derivation have in common.
    fn new(
        alloc: Global,
        derivation: &Derivation,
        resting: &mut Resting,
    ) -> Result<Pairing, Refused> {
        let mut pairing = Pairing {
            counts: BTreeMap::new(alloc),
            chosen: BTreeMap::new(alloc),
            ids: BTreeMap::new(alloc),
            renumbering: Renumbering::new(alloc),
        };
        for place in 0..derivation.derived() {
            let pairs = resting.pairs(alloc, derivation, place)?;
            for pair in pairs.as_slice() {
                count(&mut pairing.counts, pair.key())?;
            }
        }
        for place in 0..derivation.derived() {
            pairing.choose(alloc, derivation, resting, place)?;
        }
        Ok(pairing)
    }

    /// Counts the pairs of a chain that would be replaced.
    fn choose(
        &mut self,
        alloc: Global,
        derivation: &Derivation,
        resting: &mut Resting,
        place: usize,
    ) -> Result<(), Refused> {
        let pairs = self.replaced(alloc, derivation, resting, place)?;
        for pair in pairs.as_slice() {
            count(&mut self.chosen, pair.key())?;
        }
        Ok(())
    }

    /// The pairs of a chain, apart from each other, that come often enough.
    fn replaced(
        &self,
        alloc: Global,
        derivation: &Derivation,
        resting: &mut Resting,
        place: usize,
    ) -> Result<Vec<Pair>, Refused> {
        let mut apart: Vec<Pair> = Vec::new(alloc);
        let pairs = resting.pairs(alloc, derivation, place)?;
        for pair in pairs.as_slice() {
            if !apart.iter().any(|other| other.meets(*pair))
                && self.pays(alloc, derivation, &self.counts, *pair)?
            {
                push(&mut apart, *pair)?;
            }
        }
        Ok(apart)
    }

    /// Whether a line in place of the pair makes the text shorter, where the pair comes so often. The empty clause is no such
    /// line: no line may stand behind it.
    fn pays(
        &self,
        alloc: Global,
        derivation: &Derivation,
        counts: &Counts,
        pair: Pair,
    ) -> Result<bool, Refused> {
        let count = count_of(counts, pair.key()) as usize;
        if count <= LINE_HINTS {
            return Ok(false);
        }
        let line = resolvent(
            alloc,
            derivation.clause(pair.first),
            derivation.clause(pair.second),
        )?;
        let is_short = !line.is_empty() && line.len() <= MOST_LITERALS;
        Ok(is_short && count - LINE_HINTS > line.len())
    }

    /// Adds the lines in place of pairs of a chain that are not there yet.
    fn add_lines(
        &mut self,
        alloc: Global,
        derivation: &Derivation,
        to: &mut Derivation,
        pairs: &[Pair],
    ) -> Result<(), Refused> {
        for pair in pairs {
            if self.ids.get(&pair.key()).is_none()
                && self.pays(alloc, derivation, &self.chosen, *pair)?
            {
                let line = resolvent(
                    alloc,
                    derivation.clause(pair.first),
                    derivation.clause(pair.second),
                )?;
                let hints = [pair.first, pair.second];
                let hints = self.renumbering.new_ids(alloc, derivation, &hints)?;
                let id = to.add(Role::Line, line.as_slice(), hints.as_slice())?;
                insert(&mut self.ids, pair.key(), id)?;
            }
        }
        Ok(())
    }

    /// The hint at a step of a chain among the lines in place of these pairs, where it stays.
    fn hint(&self, derivation: &Derivation, pairs: &[Pair], step: usize, id: u32) -> Option<u32> {
        for pair in pairs {
            if let Some(line) = self.ids.get(&pair.key()) {
                if pair.by == step {
                    return Some(*line);
                }
                if pair.step == step {
                    return None;
                }
            }
        }
        Some(self.renumbering.new_id(derivation, id))
    }

    /// Adds the derived clause at a place, by the lines in place of these pairs.
    fn add_clause(
        &mut self,
        alloc: Global,
        derivation: &Derivation,
        to: &mut Derivation,
        place: usize,
        pairs: &[Pair],
    ) -> Result<(), Refused> {
        let mut hints = Vec::new(alloc);
        for (step, id) in derivation.hints(place).iter().enumerate() {
            if let Some(hint) = self.hint(derivation, pairs, step, *id) {
                push(&mut hints, hint)?;
            }
        }
        let clause = derivation.clause(derivation.id(place));
        let id = to.add(derivation.role(place), clause, hints.as_slice())?;
        self.renumbering.push(id)
    }

    /// Adds the lines in place of pairs of a chain, and of a line the line.
    fn add_before(
        &mut self,
        alloc: Global,
        derivation: &Derivation,
        resting: &mut Resting,
        to: &mut Derivation,
        place: usize,
    ) -> Result<(), Refused> {
        let pairs = self.replaced(alloc, derivation, resting, place)?;
        self.add_lines(alloc, derivation, to, pairs.as_slice())?;
        if derivation.role(place) == Role::Line {
            self.add_clause(alloc, derivation, to, place, pairs.as_slice())?;
        }
        Ok(())
    }

    /// The derivation with lines in place of pairs.
    fn paired(
        &mut self,
        alloc: Global,
        derivation: &Derivation,
        resting: &mut Resting,
    ) -> Result<Derivation, Refused> {
        let mut paired = derivation.emptied(alloc)?;
        for place in 0..derivation.derived() {
            self.add_before(alloc, derivation, resting, &mut paired, place)?;
        }
        for place in derivation.lines()..derivation.derived() {
            let pairs = self.replaced(alloc, derivation, resting, place)?;
            self.add_clause(alloc, derivation, &mut paired, place, pairs.as_slice())?;
        }
        Ok(paired)
    }
}

/// The derivation with lines in place of pairs that many chains have.
fn paired_once(
    alloc: Global,
    derivation: &Derivation,
    resting: &mut Resting,
) -> Result<Derivation, Refused> {
    Pairing::new(alloc, derivation, resting)?.paired(alloc, derivation, resting)
}

/// The derivation with lines in place of what many chains have in common. It looks at all chains as long as the text gets
/// shorter and the budget lasts.
pub fn paired(
    alloc: Global,
    derivation: Derivation,
    budget: &mut Budget,
) -> Result<Derivation, Refused>
    ensures { Spends budget.old budget.new }
{
    let mut resting = Resting::new(alloc, &derivation)?;
    let mut current = derivation;
    'round: for _ in 0..MOST_ROUNDS {
        budget.spend(current.hint_count());
        if budget.left() == 0 {
            return Ok(current);
        }
        let next = paired_once(alloc, &current, &mut resting)?;
        if next.text_length() >= current.text_length() {
            return Ok(current);
        }
        current = next;
    }
    Ok(current)
}
