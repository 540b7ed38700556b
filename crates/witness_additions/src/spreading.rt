//! Literals that are to be true, as clauses.

ghost use Rattle.std.specs.Prelude.{◌≡◌, ◌++◌, ◌∷◌, ◌&&◌, ◌||◌, [], IfOk, IfSome, MatchOption, OnOk, map};
ghost use Rattle.graph.specs.Circuits.{value_of};
ghost use Rattle.witness_circuits.specs.Witnesses.{is_true, are_true};
ghost use Rattle.witness_pairs.specs.Drafts.{all_true};
ghost use Rattle.witness_additions.specs.Spread.{AreSame, IsBoth};

use crate::arranging::arranged;
use crate::places::Places;
use base::{Lists, Refused, extend, filled_like, push};
use graph::{Gate, Lit};
use std::alloc::Global;
use witness_pairs::flipped;

/// Takes the last literal away.
fn take_last(lits: &mut Vec<Lit>) -> Option<Lit>
    ensures { MatchOption result ((lits.old.items ≡ []) × (lits.new.items ≡ [])) (λ a. lits.old.items ≡ lits.new.items ++ a ∷ []) }
{
    lits.pop()
}

/// Adds a literal to the clause or, where it denies a gate, the denials of its right sides to what is to be added yet.
fn add_part(
    places: &Places,
    gates: &[Gate],
    clause: &mut Vec<Lit>,
    pending: &mut Vec<Lit>,
    lit: Lit,
) -> Result<(), Refused>
    ensures { OnOk result (AreSame gates.now (λ w. is_true w clause.new.items || is_true w pending.new.items) (λ w. is_true w clause.old.items || (is_true w pending.old.items || value_of w lit))) }
{
    match places.gate_of(gates, flipped(lit)) {
        Some(gate) => {
            push(pending, flipped(gate.rhs1))?;
            push(pending, flipped(gate.rhs0))?;
            Ok(())
        }
        None => {
            push(clause, lit)?;
            Ok(())
        }
    }
}

/// A clause of the literal: of the denial of a gate the denials of its right sides, and so on for these, so many times.
fn clause_of(
    alloc: Global,
    places: &Places,
    gates: &[Gate],
    lit: Lit,
    most: usize,
) -> Result<Vec<Lit>, Refused>
    ensures { IfOk result (λ c. AreSame gates.now (λ w. is_true w c.items) (λ w. value_of w lit)) }
{
    let mut clause = Vec::new(alloc);
    let mut pending = Vec::new(alloc);
    push(&mut pending, lit)?;
    'parts: for _ in 0..most {
        let Some(next) = take_last(&mut pending) else {
            return Ok(clause);
        };
        add_part(places, gates, &mut clause, &mut pending, next)?;
    }
    extend(&mut clause, &pending)?;
    Ok(clause)
}

/// Adds a clause of its own for each literal.
fn push_units(clauses: &mut Lists<Lit>, lits: &[Lit]) -> Result<(), Refused>
    ensures { OnOk result (clauses.new ≡ clauses.old ++ map (λ a. a ∷ []) lits.now) }
{
    for lit in lits {
        clauses.push(&[*lit])?;
    }
    Ok(())
}

/// What steers the spreading of literals.
#[derive(Drop)]
pub struct Spreading {
    /// where gates stand that may be taken apart
    places: Places,
    /// for each variable whether its gate is not to be taken apart as a conjunction, or was
    apart: Vec<bool>,
    /// for each variable the last clause that was seen to have it
    seen: Vec<u32>,
    /// how many clauses were looked at
    clause: u32,
    /// how many literals may be written yet
    left: usize,
}

/// For each variable whether it is one of the model's, of which this one is the greatest.
fn are_of_model(alloc: Global, max_var: u32, places: &Places) -> Result<Vec<bool>, Refused> {
    let mut are = Vec::new(alloc);
    for variable in 0..places.positions.len() {
        push(&mut are, variable <= max_var as usize)?;
    }
    Ok(are)
}

impl Spreading {
    /// Nothing is spread yet. Gates behind this variable may be taken apart as conjunctions. As many literals may be
    /// written as are given, and four for each of these gates.
    pub fn new(
        alloc: Global,
        places: Places,
        max_var: u32,
        gates: usize,
        literals: usize,
    ) -> Result<Spreading, Refused> {
        let apart = are_of_model(alloc, max_var, &places)?;
        let seen = filled_like(alloc, 0, &places.positions)?;
        Ok(Spreading {
            places,
            apart,
            seen,
            clause: 0,
            left: gates.saturating_mul(4).saturating_add(literals),
        })
    }

    /// Notes that the clause has the variable. Answers whether it had it before.
    fn has(&mut self, variable: u32) -> bool {
        match self.seen.get_mut(variable as usize) {
            Some(last) => {
                let has = *last == self.clause;
                *last = self.clause;
                has
            }
            None => false,
        }
    }

    /// Whether the clause has a variable twice.
    fn repeats(&mut self, clause: &[Lit]) -> bool {
        self.clause = self.clause.saturating_add(1);
        for lit in clause {
            if self.has(lit.variable()) {
                return true;
            }
        }
        false
    }

    /// Whether the clause may be written in place of its literal.
    fn may_write(&mut self, clause: &[Lit]) -> bool {
        let is_short = clause.len() <= self.left;
        self.left = self.left.saturating_sub(clause.len());
        is_short && !self.repeats(clause)
    }

    /// Adds a clause of the literal.
    fn push_clause(
        &mut self,
        alloc: Global,
        gates: &[Gate],
        lit: Lit,
        clauses: &mut Lists<Lit>,
    ) -> Result<(), Refused>
        ensures { OnOk result (AreSame gates.now (λ w. are_true w clauses.new) (λ w. are_true w clauses.old && value_of w lit)) }
    {
        let clause = clause_of(alloc, &self.places, gates, lit, self.left.saturating_mul(2))?;
        if self.may_write(&clause) {
            clauses.push(&clause)?;
            Ok(())
        } else {
            clauses.push(&[lit])?;
            Ok(())
        }
    }

    /// Whether the literal's gate may be taken apart as a conjunction.
    fn is_whole(&self, lit: Lit) -> bool {
        match self.apart.get(lit.variable() as usize) {
            Some(apart) => !*apart && !lit.is_negated() && self.left > 0,
            None => false,
        }
    }

    /// Notes that the literal's gate was taken apart.
    fn take(&mut self, lit: Lit) {
        if let Some(apart) = self.apart.get_mut(lit.variable() as usize) {
            *apart = true;
        }
    }

    /// The right sides of the literal's gate, where it is to be taken apart as a conjunction. One that is to be taken
    /// apart then, and the lesser one of two such, comes last.
    fn sides(&mut self, gates: &[Gate], lit: Lit) -> Option<(Lit, Lit)>
        ensures { IfSome result (λ p. IsBoth gates.now lit p.0 p.1) }
    {
        let gate = self.places.gate_of(gates, lit)?;
        if !self.is_whole(lit) {
            return None;
        }
        self.take(lit);
        if self.is_whole(gate.rhs0) && !self.is_whole(gate.rhs1) {
            Some((gate.rhs1, gate.rhs0))
        } else {
            Some((gate.rhs0, gate.rhs1))
        }
    }

    /// Adds the clause of a literal or, where it is a gate, its right sides to what is to be added yet.
    fn add_item(
        &mut self,
        alloc: Global,
        gates: &[Gate],
        lit: Lit,
        pending: &mut Vec<Lit>,
        clauses: &mut Lists<Lit>,
    ) -> Result<(), Refused>
        ensures { OnOk result (AreSame gates.now (λ w. are_true w clauses.new && all_true w pending.new.items) (λ w. are_true w clauses.old && (all_true w pending.old.items && value_of w lit))) }
    {
        match self.sides(gates, lit) {
            Some(sides) => {
                push(pending, sides.0)?;
                push(pending, sides.1)?;
                Ok(())
            }
            None => {
                self.push_clause(alloc, gates, lit, clauses)?;
                Ok(())
            }
        }
    }

    /// Adds clauses that are true exactly where the literal is.
    fn add(
        &mut self,
        alloc: Global,
        gates: &[Gate],
        lit: Lit,
        clauses: &mut Lists<Lit>,
    ) -> Result<(), Refused>
        ensures { OnOk result (AreSame gates.now (λ w. are_true w clauses.new) (λ w. are_true w clauses.old && value_of w lit)) }
    {
        let mut pending = Vec::new(alloc);
        push(&mut pending, lit)?;
        'items: for _ in 0..gates.len().saturating_mul(2).saturating_add(2) {
            let Some(next) = take_last(&mut pending) else {
                return Ok(());
            };
            self.add_item(alloc, gates, next, &mut pending, clauses)?;
        }
        push_units(clauses, &pending)?;
        Ok(())
    }

    /// As `spread`, in the order in which the clauses are found.
    fn found(&mut self, alloc: Global, gates: &[Gate], lits: &[Lit]) -> Result<Lists<Lit>, Refused>
        ensures { IfOk result (λ clauses. AreSame gates.now (λ w. are_true w clauses) (λ w. all_true w lits.now)) }
    {
        let mut clauses = Lists::new(alloc);
        for lit in lits {
            self.add(alloc, gates, *lit, &mut clauses)?;
        }
        Ok(clauses)
    }

    /// Clauses that are true exactly where all of the literals are, wherever each gate is the conjunction of its right
    /// sides. A new gate that is to be true is taken apart into its right sides, at most once. What denies a new gate or
    /// a cube becomes the clause of its denied right sides, in which such a literal is spread again. A clause that would
    /// have a variable twice stays a literal, as does what would be too long.
    pub fn spread(
        &mut self,
        alloc: Global,
        gates: &[Gate],
        lits: &[Lit],
    ) -> Result<Lists<Lit>, Refused>
        ensures { IfOk result (λ clauses. AreSame gates.now (λ w. are_true w clauses) (λ w. all_true w lits.now)) }
    {
        let clauses = self.found(alloc, gates, lits)?;
        let all = arranged(alloc, &self.places, &clauses)?;
        Ok(all)
    }
}
