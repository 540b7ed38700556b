//! A circuit with merged latches.

ghost use Rattle.std.specs.Prelude.{◌≡◌, ◌↔◌, ℕ, All, IfOk, IfSome, IsTrue, None};
ghost use Rattle.graph.specs.WellFormed.{IsWellFormed};
ghost use Rattle.graph.specs.declared.circuit.Lit.{Lit};
ghost use Rattle.cnf.specs.Formulas.{IsOverLatches};
ghost use Rattle.merged.specs.Laws.{AreLaws};
ghost use Rattle.merged.specs.Merged.{IsMerged};
ghost use Rattle.merged.specs.Reading.{IsTable, SaysAt};

use crate::reading::read_parts;
use crate::table::table_of;
use base::{Refused, Seq};
use graph::{Lit, Model, Parts, ReadError};
use std::alloc::Global;

/// The circuit of parts that are well formed.
fn model_of(alloc: Global, parts: Parts) -> Result<Model, Refused>
    requires { IsWellFormed parts }
    ensures { IfOk result (λ m. m ≡ parts) }
{
    match Model::from_parts(alloc, parts) {
        Ok(model) => Ok(model),
        Err(ReadError::OutOfMemory(refused)) => Err(refused),
        // Well-formed parts have no other cause.
        Err(_) => unreachable!(),
    }
}

/// The circuit in which latches are read as the table says.
fn merged(
    alloc: Global,
    circuit: &Model,
    clauses: &[Seq<Lit>],
    table: &[Option<Lit>],
) -> Result<Model, Refused>
    requires over { All (IsOverLatches circuit.now) clauses.now }
    requires table { IsTable clauses.now table.now }
    ensures merged { IfOk result (λ s. IsMerged circuit.now s clauses.now) }
    ensures laws { IfOk result (λ s. AreLaws circuit.now s clauses.now) }
{
    circuit.well_formed();
    let parts = read_parts(alloc, circuit, table)?;
    let merged = model_of(alloc, parts)?;
    Ok(merged)
}

/// Whether each variable is read as itself.
fn is_plain(table: &[Option<Lit>]) -> bool
    ensures { IsTrue result ↔ All (λ o. o ≡ None) table.now }
{
    table.iter().all(|same| same.is_none())
}

/// The circuit in which each latch, of which the clauses say that it is equal to another one or constant, is read as that.
/// None where they say so of no latch. Where the clauses are inductive, both circuits have the same runs that keep the
/// constraints, and an invariant of the second one behind the clauses is one of the first.
pub fn merge(alloc: Global, circuit: &Model, clauses: &[Seq<Lit>]) -> Result<Option<Model>, Refused>
    requires { All (IsOverLatches circuit.now) clauses.now }
    ensures merged { IfOk result (λ r. IfSome r (λ s. IsMerged circuit.now s clauses.now)) }
    ensures laws { IfOk result (λ r. IfSome r (λ s. AreLaws circuit.now s clauses.now)) }
    ensures none { IfOk result (λ r. r ≡ None → (k : ℕ) (v : ℕ) (b : Lit) → SaysAt clauses.now k v b → ⊥) }
{
    let table = table_of(alloc, circuit, clauses)?;
    if is_plain(table.as_slice()) {
        return Ok(None);
    }
    Ok(Some(merged(alloc, circuit, clauses, table.as_slice())?))
}
