//! The circuit and the guarded clauses in a solver.

ghost use Rattle.std.specs.Prelude.{◌≡◌, ◌<◌, ◌≤◌, ◌+◌, ◌++◌, length, map, All, Contains, IfOk, OnOk};
ghost use Rattle.lrat.specs.Literals.{IsLiteral};
ghost use Rattle.cnf.specs.Clauses.{literal, time_clauses};
ghost use Rattle.cnf.specs.Formulas.{IsInRange, IsOverLatches};
ghost use Rattle.inductive_subset.specs.Guards.{guard_of, guarded_clause as guarded_clause_of, IsOfCase, IsLoaded};

use base::{Refused, Seq, push};
use cnf::{TimeFrame, shared_base};
use graph::{Lit, Model};
use lrat::Clause;
use solver::{Sat, SatError};
use std::alloc::Global;

/// The guard of the clause at a place.
pub(crate) fn guard(circuit: &Model, place: usize) -> i32
    requires { circuit.now.max_var + 1 + place < 2147483647 }
    ensures { result ≡ guard_of circuit.now place }
{
    (circuit.max_var() + 2 + place as u32) as i32
}

/// Adds the literal of clauses for each literal of the circuit.
fn push_lits(literals: &mut Vec<i32>, circuit: &Model, lits: &[Lit]) -> Result<(), Refused>
    requires { All (IsInRange circuit.now.max_var) lits.now }
    ensures { OnOk result (literals.new.items ≡ literals.old.items ++ map (literal circuit.now.max_var 0) lits.now) }
{
    circuit.well_formed();
    let time = TimeFrame::first(circuit);
    for lit in lits {
        push(literals, time.literal(*lit))?;
    }
    Ok(())
}

/// The clause at a place, or not its guard.
fn guarded_clause(
    alloc: Global,
    circuit: &Model,
    invariant: &[Seq<Lit>],
    place: usize,
) -> Result<Vec<i32>, Refused>
    requires place { place < length invariant.now }
    requires fits { circuit.now.max_var + 1 + length invariant.now ≤ 2147483647 }
    requires over { All (IsOverLatches circuit.now) invariant.now }
    ensures { IfOk result (λ v. v.items ≡ guarded_clause_of circuit.now invariant.now place) }
{
    circuit.well_formed();
    let mut literals = Vec::new(alloc);
    push(&mut literals, -guard(circuit, place))?;
    push_lits(&mut literals, circuit, invariant[place].as_slice())?;
    Ok(literals)
}

/// Adds clauses.
fn add_clauses<S: Sat>(solver: &mut S, alloc: Global, clauses: &[Clause]) -> Result<(), SatError>
    requires { All (All (IsLiteral (S.vars solver.old))) clauses.now }
    ensures vars { S.vars solver.new ≡ S.vars solver.old }
    ensures clauses { OnOk result (S.clauses solver.new ≡ S.clauses solver.old ++ clauses.now) }
{
    for clause in clauses {
        solver.add(alloc, clause.as_slice())?;
    }
    Ok(())
}

/// Adds each clause of the invariant under its guard.
fn add_guarded<S: Sat>(
    solver: &mut S,
    alloc: Global,
    circuit: &Model,
    invariant: &[Seq<Lit>],
) -> Result<(), SatError>
    requires fits { circuit.now.max_var + 1 + length invariant.now ≤ 2147483647 }
    requires over { All (IsOverLatches circuit.now) invariant.now }
    requires vars { S.vars solver.old ≡ circuit.now.max_var + 1 + length invariant.now }
    requires only { All (IsOfCase circuit.now invariant.now) (S.clauses solver.old) }
    requires time { All (Contains (S.clauses solver.old)) (time_clauses circuit.now 0) }
    ensures { OnOk result (IsLoaded circuit.now invariant.now (S.vars solver.new) (S.clauses solver.new)) }
{
    circuit.well_formed();
    'adding: for place in 0..invariant.len() {
        let clause = guarded_clause(alloc, circuit, invariant, place)?;
        solver.add(alloc, clause.as_slice())?;
    }
    Ok(())
}

/// Begins anew with the circuit at one time, and each clause of the invariant under its guard.
pub(crate) fn load<S: Sat>(
    solver: &mut S,
    alloc: Global,
    circuit: &Model,
    invariant: &[Seq<Lit>],
) -> Result<(), SatError>
    requires fits { circuit.now.max_var + 1 + length invariant.now ≤ 2147483647 }
    requires over { All (IsOverLatches circuit.now) invariant.now }
    ensures { OnOk result (IsLoaded circuit.now invariant.now (S.vars solver.new) (S.clauses solver.new)) }
{
    circuit.well_formed();
    let base = shared_base(alloc, circuit, &[])?;
    solver.reset(alloc, circuit.max_var() + 1 + invariant.len() as u32)?;
    add_clauses(solver, alloc, base.clauses.as_slice())?;
    add_guarded(solver, alloc, circuit, invariant)
}
