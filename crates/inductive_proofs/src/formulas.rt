//! The formulas of the three proofs.

ghost use Rattle.base.specs.Witness.{witness};
ghost use Rattle.std.specs.Prelude.{◌≡◌, ◌+◌, ◌≤◌, ◌<◌, ◌^◌, ◌++◌, All, IfOk, OnOk, length, map};
ghost use Rattle.lrat.specs.Limits.{IsFormula};
ghost use Rattle.cnf.specs.Clauses.{literal, time_clauses};
ghost use Rattle.cnf.specs.Formulas.{IsInRange, bad_formula as bad_of};
ghost use Rattle.extension.specs.Accepted.{begin_formula as begin_of, pair_formula as pair_of};
ghost use Rattle.extension.specs.Inductive.{IsOverAll};
ghost use Rattle.cnf.specs.Unrolled.{times_from};

use base::{Lists, Refused, Seq};
use cnf::{CnfError, TimeFrame, clause_into, extension, shared_base, unroll};
use graph::{Lit, Model};
use lrat::{Clause, Formula};
use std::alloc::Global;

/// What the refusal of an unrolling of one step at most is: there are 255.
fn refused_of(error: CnfError) -> Refused
    requires { error ≡ CnfError.OutOfMemory witness }
{
    match error {
        CnfError::OutOfMemory(refused) => refused,
        CnfError::Limit => unreachable!(),
    }
}

/// Resets, gates and constraints of a first time. It costs the circuit.
pub fn begin_formula(alloc: Global, circuit: &Model) -> Result<Formula, Refused>
    ensures formula { IfOk result (λ f. f ≡ begin_of circuit.now) }
    ensures is_formula { IfOk result (λ f. IsFormula f) }
{
    match unroll(alloc, circuit, 0) {
        Ok(formula) => Ok(formula),
        Err(error) => Err(refused_of(error)),
    }
}

/// Adds clauses over the circuit, at this time.
fn push_clauses(
    alloc: Global,
    to: &mut Seq<Clause>,
    time: TimeFrame,
    invariant: &Lists<Lit>,
) -> Result<(), Refused>
    requires fits { time.offset + time.max_var + 1 < 2 ^ 31 }
    requires over { All (All (IsInRange time.max_var)) invariant.now }
    ensures { OnOk result (to.new ≡ to.old ++ map (map (literal time.max_var time.offset)) invariant.now) }
{
    let mut literals = Vec::new(alloc);
    for k in 0..invariant.len() {
        clause_into(&mut literals, time, invariant.list(k))?;
        to.push(Clause::from_slice(alloc, literals.as_slice())?)?;
    }
    Ok(())
}

/// Gates and constraints of one time.
fn time_list(alloc: Global, circuit: &Model) -> Result<Seq<Clause>, Refused>
    ensures { IfOk result (λ s. s ≡ time_clauses circuit.now 0) }
{
    let none: &[Seq<Lit>] = &[];
    let formula = shared_base(alloc, circuit, none)?;
    Ok(formula.clauses)
}

/// Gates and constraints of two times, and the step between them.
fn pair_list(alloc: Global, circuit: &Model) -> Result<Seq<Clause>, Refused>
    ensures { IfOk result (λ s. s ≡ times_from circuit.now 1 0) }
{
    let mut clauses = time_list(alloc, circuit)?;
    match extension(alloc, circuit, 1) {
        Ok(later) => append(alloc, &mut clauses, later.as_slice())?,
        Err(error) => return Err(refused_of(error)),
    }
    Ok(clauses)
}

/// Adds clauses behind others.
fn append(alloc: Global, to: &mut Seq<Clause>, more: &[Clause]) -> Result<(), Refused>
    ensures { OnOk result (to.new ≡ to.old ++ more.now) }
{
    for clause in more {
        to.push(Clause::from_slice(alloc, clause.as_slice())?)?;
    }
    Ok(())
}

/// Gates and constraints of two times, the step between them, and the clauses at the first. It costs the
/// circuit twice, and the clauses.
pub fn pair_formula(
    alloc: Global,
    circuit: &Model,
    invariant: &Lists<Lit>,
) -> Result<Formula, Refused>
    requires over { All (IsOverAll circuit.now) invariant.now }
    requires few { length invariant.now ≤ 4194303 }
    ensures formula { IfOk result (λ f. f ≡ pair_of circuit.now invariant.now) }
    ensures is_formula { IfOk result (λ f. IsFormula f) }
{
    circuit.well_formed();
    let mut clauses = pair_list(alloc, circuit)?;
    push_clauses(alloc, &mut clauses, TimeFrame::first(circuit), invariant)?;
    Ok(Formula {
        vars: 2 * (circuit.max_var() + 1),
        clauses,
    })
}

/// Gates and constraints of one time, the clauses, and the literal as a unit. It costs the circuit and
/// the clauses.
pub fn bad_formula(
    alloc: Global,
    circuit: &Model,
    invariant: &Lists<Lit>,
    bad: Lit,
) -> Result<Formula, Refused>
    requires over { All (IsOverAll circuit.now) invariant.now }
    requires few { length invariant.now ≤ 4194303 }
    requires bad { IsInRange circuit.now.max_var bad }
    ensures formula { IfOk result (λ f. f ≡ bad_of circuit.now invariant.now bad) }
    ensures is_formula { IfOk result (λ f. IsFormula f) }
{
    circuit.well_formed();
    let time = TimeFrame::first(circuit);
    let mut clauses = time_list(alloc, circuit)?;
    push_clauses(alloc, &mut clauses, time, invariant)?;
    clauses.push(Clause::from_slice(alloc, &[time.literal(bad)])?)?;
    Ok(Formula {
        vars: circuit.max_var() + 1,
        clauses,
    })
}
