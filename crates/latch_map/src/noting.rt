//! Noting what clauses say.

ghost use Rattle.std.specs.Prelude.{◌≡◌, ◌≤◌, IfOk, OnOk};
ghost use Rattle.graph.specs.Circuits.{Valuation};
ghost use Rattle.cnf.specs.Formulas.{clause_at as clause_of};
ghost use Rattle.latch_map.specs.Equal.{AreValues, IsKeptBy};

use crate::equality::{negated, said};
use crate::table::join;
use base::{Refused, Seq, filled, insert_hashed};
use graph::Lit;
use std::alloc::Global;
use std::collections::HashMap;

/// The numbers of two literals, the lesser one first.
fn key(one: Lit, other: Lit) -> (u32, u32) {
    if one.0 < other.0 {
        (one.0, other.0)
    } else {
        (other.0, one.0)
    }
}

/// The places of the clauses of two literals, by these.
fn places_of(alloc: Global, clauses: &[Seq<Lit>]) -> Result<HashMap<(u32, u32), usize>, Refused> {
    let mut places = HashMap::new(alloc);
    for (place, clause) in clauses.iter().enumerate() {
        if let [one, other] = clause.as_slice() {
            insert_hashed(&mut places, key(*one, *other), place)?;
        }
    }
    Ok(places)
}

/// The place of the clause that has the negations of the two literals of this one, and else this place.
fn place_of_denial(places: &HashMap<(u32, u32), usize>, clause: &[Lit], place: usize) -> usize {
    if let [one, other] = clause
        && let Some(found) = places.get(&key(negated(*one), negated(*other)))
    {
        return *found;
    }
    place
}

/// The clause at a place, which is empty behind the last one.
fn clause_at(clauses: &[Seq<Lit>], place: usize) -> &[Lit]
    ensures { result.now ≡ clause_of clauses.now place }
{
    match clauses.get(place) {
        Some(clause) => clause.as_slice(),
        None => &[],
    }
}

/// Notes what the clauses at two places say.
fn note(table: &mut [Option<Lit>], clauses: &[Seq<Lit>], place: usize, denial: usize)
    ensures { (w : Valuation) → IsKeptBy clauses.now w → AreValues w table.old → AreValues w table.new }
{
    match said(clause_at(clauses, place), clause_at(clauses, denial)) {
        Some(equal) => join(table, equal.one, equal.other),
        None => {}
    }
}

/// Notes what the clauses say.
#[tactic(auto, using(crate::proofs::Noted::noted_more))]
fn note_all(alloc: Global, table: &mut [Option<Lit>], clauses: &[Seq<Lit>]) -> Result<(), Refused>
    ensures { OnOk result ((w : Valuation) → IsKeptBy clauses.now w → AreValues w table.old → AreValues w table.new) }
{
    let places = places_of(alloc, clauses)?;
    for place in 0..clauses.len() {
        let denial = place_of_denial(&places, clause_at(clauses, place), place);
        note(table, clauses, place, denial);
    }
    Ok(())
}

/// A table of so many variables that has what the clauses say.
pub(crate) fn table_of(
    alloc: Global,
    clauses: &[Seq<Lit>],
    count: usize,
) -> Result<Vec<Option<Lit>>, Refused>
    requires { count ≤ 4194304 }
    ensures { IfOk result (λ table. (w : Valuation) → IsKeptBy clauses.now w → AreValues w table.items) }
{
    let mut table = filled(alloc, None, count)?;
    note_all(alloc, table.as_mut_slice(), clauses)?;
    Ok(table)
}
