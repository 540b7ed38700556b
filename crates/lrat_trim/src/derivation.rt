//! Clauses that are derived from those of a formula.

ghost use Rattle.std.specs.Prelude.{◌≡◌};

use crate::hinting::{Effect, apply};
use base::{Lists, Refused, insert_key, push};
use lrat::{Formula, Line, Trail};
use std::alloc::Global;
use std::collections::BTreeSet;

/// The greatest variable of a trail.
const MOST_VARS: u32 = i32::MAX as u32;

/// The zeros, spaces and the end of a line.
const LINE_BYTES: u64 = 5;

/// The least numbers of more than one, two, .. digits.
static POWERS: [u32; 9] = [
    10,
    100,
    1_000,
    10_000,
    100_000,
    1_000_000,
    10_000_000,
    100_000_000,
    1_000_000_000,
];

/// What a derived clause is for.
#[derive(Clone, Copy, PartialEq, Eq)]
pub enum Role {
    /// Others rest on it.
    Line,
    /// It is to be shown.
    Goal,
}

/// The clauses of a formula, and behind them clauses that are derived, each from earlier ones by hints. The ids of the clauses
/// are 1, 2 and so on. No hint names one of the last ones, the goals.
#[derive(Drop)]
pub struct Derivation {
    /// the greatest variable
    vars: u32,
    /// how many clauses the formula has
    base: usize,
    /// the literals of the clauses
    clauses: Lists<i32>,
    /// the hints of the derived clauses
    chains: Lists<u32>,
    /// how many derived clauses are no goals
    lines: usize,
}

impl Derivation {
    /// The formula's clauses alone.
    pub fn new(alloc: Global, formula: &Formula) -> Result<Derivation, Refused> {
        let mut clauses = Lists::new(alloc);
        for clause in formula.clauses.as_slice() {
            clauses.push(clause.as_slice())?;
        }
        Ok(Derivation {
            vars: formula.vars.min(MOST_VARS),
            base: clauses.len(),
            clauses,
            chains: Lists::new(alloc),
            lines: 0,
        })
    }

    /// The clauses of its formula alone.
    pub fn emptied(&self, alloc: Global) -> Result<Derivation, Refused> {
        let mut clauses = Lists::new(alloc);
        for place in 0..self.base.min(self.clauses.len()) {
            clauses.push(self.clauses.list(place))?;
        }
        Ok(Derivation {
            vars: self.vars,
            base: self.base,
            clauses,
            chains: Lists::new(alloc),
            lines: 0,
        })
    }

    /// Derives a clause, and answers its id.
    pub fn add(&mut self, role: Role, clause: &[i32], hints: &[u32]) -> Result<u32, Refused> {
        self.clauses.push(clause)?;
        self.chains.push(hints)?;
        if role == Role::Line {
            self.lines = self.chains.len();
        }
        Ok(self.clauses.len().min(u32::MAX as usize) as u32)
    }

    /// Derives the clauses that the lines add.
    pub fn add_lines(&mut self, alloc: Global, lines: &[Line]) -> Result<(), Refused> {
        for line in lines {
            if let Line::Add { clause, hints, .. } = line {
                let ids = ids_of(alloc, hints.as_slice())?;
                self.add(Role::Line, clause.as_slice(), ids.as_slice())?;
            }
        }
        Ok(())
    }

    /// A trail over its variables.
    pub fn trail(&self, alloc: Global) -> Result<Trail, Refused> {
        Trail::new(alloc, self.vars.min(MOST_VARS))
    }

    /// The greatest variable.
    pub fn vars(&self) -> u32 {
        self.vars
    }

    /// How many clauses are derived.
    pub fn derived(&self) -> usize {
        self.chains.len()
    }

    /// How many of them are no goals.
    pub fn lines(&self) -> usize {
        self.lines.min(self.chains.len())
    }

    /// The id of the derived clause at a place, from 0.
    pub fn id(&self, place: usize) -> u32 {
        let id = (self.base as u64).saturating_add(place as u64);
        id.saturating_add(1).min(u64::from(u32::MAX)) as u32
    }

    /// The place of a derived clause, from 0.
    pub fn place(&self, id: u32) -> Option<usize> {
        (id as usize).checked_sub(1)?.checked_sub(self.base)
    }

    /// What the derived clause at a place, from 0, is for.
    pub fn role(&self, place: usize) -> Role {
        if place < self.lines {
            Role::Line
        } else {
            Role::Goal
        }
    }

    /// The clause with this id.
    pub fn clause(&self, id: u32) -> &[i32] {
        match (id as usize).checked_sub(1) {
            Some(place) if place < self.clauses.len() => self.clauses.list(place),
            _ => &[],
        }
    }

    /// The hints of the derived clause at a place, from 0.
    pub fn hints(&self, place: usize) -> &[u32] {
        if place < self.chains.len() {
            self.chains.list(place)
        } else {
            &[]
        }
    }

    /// The same clauses, of which the last one is a goal.
    pub fn with_goal(self) -> Derivation {
        Derivation {
            vars: self.vars,
            base: self.base,
            clauses: self.clauses,
            lines: self.chains.len().saturating_sub(1),
            chains: self.chains,
        }
    }

    /// How many hints there are.
    pub fn hint_count(&self) -> u64 {
        let mut count: u64 = 0;
        for place in 0..self.chains.len() {
            count = count.saturating_add(self.chains.list(place).len() as u64);
        }
        count
    }

    /// How many bytes the derived clause at a place takes in a text: a line with its id, a goal with the number of its hints.
    fn length_at(&self, place: usize) -> u64 {
        let hints = self.hints(place);
        let length = length_of_ids(hints);
        match self.role(place) {
            Role::Goal => length.saturating_add(digits(hints.len().min(u32::MAX as usize) as u32)),
            Role::Line => {
                let id = self.id(place);
                let clause = length_of_literals(self.clause(id)).saturating_add(LINE_BYTES);
                length.saturating_add(clause).saturating_add(digits(id))
            }
        }
    }

    /// How many bytes its lines and goals take in a text, but for the ends of the goals.
    pub fn text_length(&self) -> u64 {
        let mut length: u64 = 0;
        for place in 0..self.chains.len() {
            length = length.saturating_add(self.length_at(place));
        }
        length
    }

    /// The same clauses by other hints.
    pub fn with_chains(self, chains: Lists<u32>) -> Derivation {
        Derivation {
            vars: self.vars,
            base: self.base,
            clauses: self.clauses,
            chains,
            lines: self.lines,
        }
    }

    /// Goes on by each of the clauses once, up to the first that is false. Those that set a literal, and the one that is
    /// false, come behind `order`.
    pub fn go_round(
        &self,
        trail: &mut Trail,
        ids: &[u32],
        order: &mut Vec<u32>,
    ) -> Result<Effect, Refused>
        ensures { trail.new.vars ≡ trail.old.vars }
    {
        let mut last = Effect::Nothing;
        for id in ids {
            let effect = apply(trail, self.clause(*id))?;
            if effect != Effect::Nothing {
                push(order, *id)?;
                last = effect;
            }
            if effect == Effect::Conflicts {
                return Ok(effect);
            }
        }
        Ok(last)
    }

    /// Those of the clauses on which the last one rests. Each but the last has set one of the literals.
    pub fn cone(&self, alloc: Global, set: &[i32], order: &[u32]) -> Result<Vec<u32>, Refused> {
        let mut wanted = BTreeSet::new(alloc);
        let mut kept = Vec::new(alloc);
        for place in (0..order.len()).rev() {
            let is_wanted = match set.get(place) {
                Some(literal) => wanted.contains(&literal.unsigned_abs()),
                None => true,
            };
            if is_wanted {
                push(&mut kept, order[place])?;
                want_variables(&mut wanted, self.clause(order[place]))?;
            }
        }
        kept.reverse();
        Ok(kept)
    }
}

/// How many digits a number has.
fn digits(number: u32) -> u64 {
    let mut digits: u64 = 1;
    for power in &POWERS {
        if number >= *power {
            digits = digits.saturating_add(1);
        }
    }
    digits
}

/// How many bytes ids take, with a space before each.
fn length_of_ids(ids: &[u32]) -> u64 {
    let mut length: u64 = 0;
    for id in ids {
        length = length.saturating_add(digits(*id)).saturating_add(1);
    }
    length
}

/// How many bytes literals take, with a space before each.
fn length_of_literals(literals: &[i32]) -> u64 {
    let mut length: u64 = 0;
    for literal in literals {
        let sign = u64::from(*literal < 0);
        length = length.saturating_add(digits(literal.unsigned_abs()));
        length = length.saturating_add(sign).saturating_add(1);
    }
    length
}

/// Wants the variables of the literals.
fn want_variables(wanted: &mut BTreeSet<u32>, literals: &[i32]) -> Result<(), Refused> {
    for literal in literals {
        insert_key(wanted, literal.unsigned_abs())?;
    }
    Ok(())
}

/// The ids that a line's hints name.
fn ids_of(alloc: Global, hints: &[i64]) -> Result<Vec<u32>, Refused> {
    let mut ids = Vec::new(alloc);
    for hint in hints {
        let id = hint.unsigned_abs().min(u64::from(u32::MAX)) as u32;
        push(&mut ids, id)?;
    }
    Ok(ids)
}
