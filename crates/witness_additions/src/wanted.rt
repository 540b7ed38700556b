//! What is to be inductive of a witness, as clauses.

ghost use Rattle.std.specs.Prelude.{◌≡◌, ◌++◌, ◌∷◌, IfOk, length, map};
ghost use Rattle.witness_pairs.specs.Renamed.{renamed};
ghost use Rattle.witness_additions.specs.Spread.{AreWanted};

use crate::arranging::append;
use crate::places::Places;
use crate::spreading::Spreading;
use base::{Lists, Refused, copied, extend, push};
use graph::{Gate, Lit, Model};
use std::alloc::Global;
use witness_pairs::{denial_of, literal_of};

/// Clauses, of which the first ones are of the property.
#[derive(Drop)]
pub struct Wanted {
    /// the clauses
    pub clauses: Lists<Lit>,
    /// how many say that the bad literal is 0
    pub of_property: usize,
}

/// The literals that stand for these.
fn literals_of(alloc: Global, names: &[Lit], lits: &[Lit]) -> Result<Vec<Lit>, Refused>
    ensures { IfOk result (λ v. v.items ≡ map (renamed names.now) lits.now) }
{
    let mut found = Vec::new(alloc);
    for lit in lits {
        push(&mut found, literal_of(names, *lit))?;
    }
    Ok(found)
}

/// The gates, one list after the other.
fn all_gates(alloc: Global, gates: &[Gate], more: &[Gate]) -> Result<Vec<Gate>, Refused>
    ensures { IfOk result (λ v. v.items ≡ gates.now ++ more.now) }
{
    let mut all = copied(alloc, gates)?;
    extend(&mut all, more)?;
    Ok(all)
}

impl Wanted {
    /// The clauses of both, those of the property first.
    fn joined(property: Lists<Lit>, constraints: &Lists<Lit>) -> Result<Wanted, Refused>
        ensures { IfOk result (λ x. (x.clauses ≡ property ++ constraints.now) × (x.of_property ≡ length property)) }
    {
        let of_property = property.len();
        let mut clauses = property;
        append(&mut clauses, constraints)?;
        Ok(Wanted {
            clauses,
            of_property,
        })
    }

    /// That the literal that stands for the bad one is 0, and then that each one that stands for a constraint is 1. The
    /// gates are those behind the model's.
    pub fn of(
        alloc: Global,
        model: &Model,
        names: &[Lit],
        gates: &[Gate],
        bad: Lit,
        constraints: &[Lit],
    ) -> Result<Wanted, Refused>
        ensures { IfOk result (λ x. AreWanted names.now (model.now.gates ++ gates.now) bad constraints.now x.of_property x.clauses) }
    {
        let all = all_gates(alloc, model.gates(), gates)?;
        let literals = literals_of(alloc, names, constraints)?;
        let count = literals.len().saturating_add(1);
        let places = Places::of(alloc, model, gates)?;
        let mut spreading = Spreading::new(alloc, places, model.max_var(), gates.len(), count)?;
        let property = spreading.spread(alloc, &all, &[denial_of(names, bad)])?;
        let constraints = spreading.spread(alloc, &all, &literals)?;
        let wanted = Wanted::joined(property, &constraints)?;
        Ok(wanted)
    }
}
