//! What each variable is read as.

ghost use Rattle.std.specs.Prelude.{◌≡◌, ◌+◌, ◌<◌, All, IfOk, length};
ghost use Rattle.graph.specs.Circuits.{variable};
ghost use Rattle.cnf.specs.Formulas.{IsOverLatches, clause_at as clause_of};
ghost use Rattle.merged.specs.Reading.{IsTable, IsTableTo};

use crate::equal::said;
use base::{Refused, Seq, filled};
use graph::{Lit, Model};
use std::alloc::Global;

/// The clause at a place, which is empty behind the last one.
fn clause_at(clauses: &[Seq<Lit>], place: usize) -> &[Lit]
    ensures { result.now ≡ clause_of clauses.now place }
{
    match clauses.get(place) {
        Some(clause) => clause.as_slice(),
        None => &[],
    }
}

/// Notes what the clauses at a place say.
fn note(table: &mut [Option<Lit>], clauses: &[Seq<Lit>], place: usize)
    requires place { place < length clauses.now }
    requires range { All (All (λ a. (a.0 < 4294967294) × (variable a < length table.old))) clauses.now }
    requires table { IsTableTo clauses.now place table.old }
    ensures table { IsTableTo clauses.now (place + 1) table.new }
    ensures places { length table.new ≡ length table.old }
{
    match said(clause_at(clauses, place), clause_at(clauses, place + 1)) {
        Some(equal) => table[equal.variable as usize] = Some(equal.same),
        None => {}
    }
}

/// Notes what all clauses say.
fn note_all(table: &mut [Option<Lit>], clauses: &[Seq<Lit>])
    requires range { All (All (λ a. (a.0 < 4294967294) × (variable a < length table.old))) clauses.now }
    requires table { IsTableTo clauses.now 0 table.old }
    ensures { IsTable clauses.now table.new }
{
    for place in 0..clauses.len() {
        note(table, clauses, place);
    }
}

/// What each variable is read as, by the clauses: none where it is read as itself.
pub(crate) fn table_of(
    alloc: Global,
    circuit: &Model,
    clauses: &[Seq<Lit>],
) -> Result<Vec<Option<Lit>>, Refused>
    requires { All (IsOverLatches circuit.now) clauses.now }
    ensures { IfOk result (λ t. IsTable clauses.now t.items) }
{
    circuit.well_formed();
    let mut table = filled(alloc, None, circuit.max_var() as usize + 1)?;
    note_all(table.as_mut_slice(), clauses);
    Ok(table)
}
