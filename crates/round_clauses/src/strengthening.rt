//! Clauses with fewer literals, and fewer clauses.
//!
//! A literal goes from a clause of an invariant where the clause holds at first without it, and after each step from where all
//! clauses hold. Then those clauses stay that the others need. Nothing is claimed of what is left: it is to be proved.

ghost use Rattle.std.specs.Prelude.{◌≡◌, ◌+◌, All, IfOk, IsTrue};
ghost use Rattle.base.specs.Budget.{Spends};
ghost use Rattle.lrat.specs.Literals.{IsLiteral};
ghost use Rattle.cnf.specs.Formulas.{IsOverLatches};
ghost use Rattle.cnf.specs.Tables.{IsTableOf, is_latch_in};
ghost use Rattle.graph.specs.Circuits.{variable};
ghost use Rattle.engine.specs.Findings.{IsForBad};

use base::{Budget, Refused, Seq, extend, filled, push};
use cdcl::Cdcl;
use cnf::{NextTable, TimeFrame, clause_into, shared_base, step_units};
use graph::{Lit, Model};
use inductive_subset::safe_inductive_subset;
use lrat::Clause;
use solver::{Answer, Sat, SatError};
use std::alloc::Global;

/// A circuit, and what its steps and its first states are.
#[derive(Clone, Copy)]
struct Steps<'a> {
    circuit: &'a Model,
    table: &'a NextTable,
    /// whether each first state sets the literal, for each literal
    firsts: &'a [bool],
}

/// Whether each first state sets the literal, for each literal of the circuit.
fn set_at_first(alloc: Global, circuit: &Model) -> Result<Vec<bool>, Refused> {
    circuit.well_formed();
    let mut firsts = filled(alloc, false, 2 * circuit.max_var() as usize + 2)?;
    for latch in circuit.latches() {
        let literal = match latch.reset.0 {
            0 => latch.lit.0 ^ 1,
            1 => latch.lit.0,
            _ => continue,
        };
        if (literal as usize) < firsts.len() {
            firsts[literal as usize] = true;
        }
    }
    Ok(firsts)
}

/// Whether the table has each literal of the clause.
fn has_all(table: &NextTable, clause: &[Lit]) -> bool
    ensures { IsTrue result → All (λ a. IsTrue (is_latch_in table.now (variable a))) clause.now }
{
    clause.iter().all(|lit| table.is_latch(lit.variable()))
}

/// Whether each literal of the clause is a latch's.
fn is_over_latches(circuit: &Model, table: &NextTable, clause: &[Lit]) -> bool
    requires { IsTableOf circuit.now.latches table.now }
    ensures { IsTrue result → IsOverLatches circuit.now clause.now }
{
    has_all(table, clause)
}

/// Whether each literal of the clauses is.
fn are_over_latches(circuit: &Model, table: &NextTable, clauses: &[Seq<Lit>]) -> bool
    requires { IsTableOf circuit.now.latches table.now }
    ensures { IsTrue result → All (IsOverLatches circuit.now) clauses.now }
{
    for clause in clauses {
        if !is_over_latches(circuit, table, clause.as_slice()) {
            return false;
        }
    }
    true
}

/// The literals but this one.
fn without(alloc: Global, clause: &[Lit], lit: Lit) -> Result<Vec<Lit>, Refused> {
    let mut others = Vec::new(alloc);
    for other in clause {
        if *other != lit {
            push(&mut others, *other)?;
        }
    }
    Ok(others)
}

/// Adds clauses over the solver's variables.
fn add_all<S: Sat>(solver: &mut S, alloc: Global, clauses: &[Clause]) -> Result<(), SatError>
    requires { All (All (IsLiteral (S.vars solver.old))) clauses.now }
    ensures { S.vars solver.new ≡ S.vars solver.old }
{
    for clause in clauses {
        solver.add(alloc, clause.as_slice())?;
    }
    Ok(())
}

/// Adds a clause, where it is over the latches.
fn add<S: Sat>(
    solver: &mut S,
    alloc: Global,
    circuit: &Model,
    table: &NextTable,
    clause: &[Lit],
) -> Result<(), SatError>
    requires table { IsTableOf circuit.now.latches table.now }
    requires vars { S.vars solver.old ≡ circuit.now.max_var + 1 }
    ensures { S.vars solver.new ≡ S.vars solver.old }
{
    circuit.well_formed();
    if !is_over_latches(circuit, table, clause) {
        return Ok(());
    }
    let mut literals = Vec::new(alloc);
    clause_into(&mut literals, TimeFrame::first(circuit), clause)?;
    solver.add(alloc, literals.as_slice())
}

/// Begins anew with the circuit at one time, and these clauses.
fn load<S: Sat>(
    solver: &mut S,
    alloc: Global,
    circuit: &Model,
    table: &NextTable,
    clauses: &[Seq<Lit>],
) -> Result<(), SatError>
    requires { IsTableOf circuit.now.latches table.now }
    ensures { IfOk result (λ _. S.vars solver.new ≡ circuit.now.max_var + 1) }
{
    circuit.well_formed();
    let base = shared_base(alloc, circuit, &[])?;
    solver.reset(alloc, circuit.max_var() + 1)?;
    add_all(solver, alloc, base.clauses.as_slice())?;
    for clause in clauses {
        add(solver, alloc, circuit, table, clause.as_slice())?;
    }
    Ok(())
}

impl Steps<'_> {
    /// Whether the clause holds in each first state, by one of its literals.
    fn holds_at_first(self, clause: &[Lit]) -> bool {
        clause.iter().any(|lit| self.firsts.get(lit.0 as usize).copied() == Some(true))
    }

    /// Whether the clause holds after each step from where the solver's clauses hold.
    fn is_kept<S: Sat>(
        self,
        solver: &mut S,
        alloc: Global,
        clause: &[Lit],
        budget: &mut Budget,
    ) -> Result<bool, SatError>
        requires table { IsTableOf self.circuit.now.latches self.table.now }
        requires vars { S.vars solver.old ≡ self.circuit.now.max_var + 1 }
        ensures vars { S.vars solver.new ≡ S.vars solver.old }
        ensures spends { Spends budget.old budget.new }
    {
        if !is_over_latches(self.circuit, self.table, clause) {
            return Ok(false);
        }
        let units = step_units(alloc, self.circuit, self.table, clause)?;
        match solver.solve(alloc, units.as_slice(), budget)? {
            Answer::Core(_) => Ok(true),
            Answer::Model(_) | Answer::Spent => Ok(false),
        }
    }

    /// The clause without the literals that it does not need, the last ones first.
    fn fewer_literals<S: Sat>(
        self,
        solver: &mut S,
        alloc: Global,
        clause: &[Lit],
        budget: &mut Budget,
    ) -> Result<Seq<Lit>, SatError>
        requires table { IsTableOf self.circuit.now.latches self.table.now }
        requires vars { S.vars solver.old ≡ self.circuit.now.max_var + 1 }
        ensures vars { S.vars solver.new ≡ S.vars solver.old }
        ensures spends { Spends budget.old budget.new }
    {
        let mut fewer = Vec::new(alloc);
        extend(&mut fewer, clause)?;
        'dropping: for place in 0..clause.len() {
            let lit = clause[clause.len() - 1 - place];
            let others = without(alloc, fewer.as_slice(), lit)?;
            if self.holds_at_first(others.as_slice())
                && self.is_kept(solver, alloc, others.as_slice(), budget)?
            {
                fewer = others;
            }
        }
        Ok(Seq::from_vec(fewer))
    }

    /// The clauses, each without the literals that it does not need.
    fn all_with_fewer<S: Sat>(
        self,
        solver: &mut S,
        alloc: Global,
        clauses: &[Seq<Lit>],
        budget: &mut Budget,
    ) -> Result<Seq<Seq<Lit>>, SatError>
        requires table { IsTableOf self.circuit.now.latches self.table.now }
        requires vars { S.vars solver.old ≡ self.circuit.now.max_var + 1 }
        ensures spends { Spends budget.old budget.new }
    {
        let mut found = Seq::new(alloc);
        'shortening: for clause in clauses {
            let fewer = self.fewer_literals(solver, alloc, clause.as_slice(), budget)?;
            add(solver, alloc, self.circuit, self.table, fewer.as_slice())?;
            found.push(fewer)?;
        }
        Ok(found)
    }
}

/// The clauses, each without the literals that it does not need.
fn strengthened_by<S: Sat>(
    solver: &mut S,
    alloc: Global,
    circuit: &Model,
    clauses: &[Seq<Lit>],
    budget: &mut Budget,
) -> Result<Seq<Seq<Lit>>, SatError>
    ensures { Spends budget.old budget.new }
{
    let table = NextTable::new(alloc, circuit)?;
    let firsts = set_at_first(alloc, circuit)?;
    load(solver, alloc, circuit, &table, clauses)?;
    let steps = Steps {
        circuit,
        table: &table,
        firsts: firsts.as_slice(),
    };
    steps.all_with_fewer(solver, alloc, clauses, budget)
}

/// Those of the clauses that the others need, where they are an invariant over the latches.
fn needed_by<S: Sat>(
    solver: &mut S,
    alloc: Global,
    circuit: &Model,
    clauses: &[Seq<Lit>],
    budget: &mut Budget,
) -> Result<Option<Seq<Seq<Lit>>>, SatError>
    requires { IsForBad circuit.now }
    ensures { Spends budget.old budget.new }
{
    circuit.well_formed();
    let table = NextTable::new(alloc, circuit)?;
    if !are_over_latches(circuit, &table, clauses) {
        return Ok(None);
    }
    let bad = circuit.bad()[0];
    safe_inductive_subset(solver, alloc, circuit, clauses, bad, budget)
}

/// What a solver answered, or nothing where it has used up its ids.
fn answered<T: Drop>(answer: Result<T, SatError>) -> Result<Option<T>, Refused> {
    match answer {
        Ok(found) => Ok(Some(found)),
        Err(SatError::OutOfMemory(refused)) => Err(refused),
        Err(SatError::Limit(_)) => Ok(None),
    }
}

/// The clauses, each without the literals that it does not need, where that is found. Nothing is claimed of what is left: it is to be
/// proved.
pub fn strengthened(
    alloc: Global,
    circuit: &Model,
    clauses: Seq<Seq<Lit>>,
    budget: &mut Budget,
) -> Result<Seq<Seq<Lit>>, Refused>
    ensures { Spends budget.old budget.new }
{
    let mut solver = Cdcl::new(alloc);
    let found = strengthened_by(&mut solver, alloc, circuit, clauses.as_slice(), budget);
    match answered(found)? {
        Some(stronger) => Ok(stronger),
        None => Ok(clauses),
    }
}

/// Those of the clauses that the others need, where that is found. Nothing is claimed of what is left: it is to be proved.
pub fn needed(
    alloc: Global,
    circuit: &Model,
    clauses: Seq<Seq<Lit>>,
    budget: &mut Budget,
) -> Result<Seq<Seq<Lit>>, Refused>
    requires { IsForBad circuit.now }
    ensures { Spends budget.old budget.new }
{
    let mut solver = Cdcl::new(alloc);
    let found = needed_by(&mut solver, alloc, circuit, clauses.as_slice(), budget);
    match answered(found)? {
        Some(Some(few)) => Ok(few),
        _ => Ok(clauses),
    }
}
