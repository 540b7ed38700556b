//! Calls that are made again where they are out of memory. Where no growth is refused, each is made once. Under
//! `robustness/again` one growth is refused in each run, one after the other: the call that is then made again has to answer as
//! one that was never refused, with what was there before, and so have the calls behind it.

ghost use Rattle.std.specs.Prelude.{◌≡◌, ◌≤◌, OnOk, IfOk, All};
ghost use Rattle.engine.specs.Findings.{IsForBad};
ghost use Rattle.lrat.specs.Limits.{IsFormula};
ghost use Rattle.lrat.specs.Literals.{IsLiteral};

use crate::bounded::circuit;
use crate::solvers::{AskError, formula, is_right, satisfies};
use base::{Budget, Refused, Seq};
use bmc::Bmc;
use cdcl::{Cdcl, Refuted, Refuter};
use correspondence::Corresponding;
use engine::{Engine, EngineError, Finding, InOrder, Reason, Silent};
use engine_random::Random;
use graph::{Lit, Model, ReadError};
use ic3::Ic3;
use lrat::{Formula, refutes};
use solver::{Answer, Plain, Sat, SatError};
use std::alloc::Global;
use std::test::Fail;

/// How many steps of the budget a call may cost.
const STEPS: u64 = 1_000_000;

/// How many times of runs random simulation may play.
const PLAYED: u64 = 100;

/// Texts of circuits: one that toggles, one of two latches that are never 1 at once, the same twice with latches that are equal, and
/// two bits that count.
static ROWS: [&[u8]; 4] = [
    b"aag 1 0 1 0 0 1\n2 3\n2\n",
    b"aag 5 0 2 0 3 1\n2 6\n4 8\n10\n6 3 5\n8 2 5\n10 2 4\n",
    b"aag 9 0 4 0 5 1\n2 10\n4 12\n6 14\n8 16\n18\n10 3 9\n12 2 9\n14 7 5\n16 6 5\n18 2 8\n",
    b"aag 6 0 2 0 4 1\n2 3\n4 11\n12\n6 2 5\n8 3 4\n10 7 9\n12 2 4\n",
];

/// What an engine answers, and whether it was asked again, with a new budget.
fn found<E: Engine>(
    engine: &mut E,
    alloc: Global,
    circuit: &Model,
    steps: u64,
) -> Result<(Finding, bool), EngineError>
    requires { IsForBad circuit.now }
{
    match engine.find(alloc, circuit, &mut Budget::new(steps)) {
        Err(EngineError::OutOfMemory(_)) => {
            let finding = engine.find(alloc, circuit, &mut Budget::new(steps))?;
            Ok((finding, true))
        }
        Err(error) => Err(error),
        Ok(finding) => Ok((finding, false)),
    }
}

/// Whether two lists have the same clauses.
fn are_same_clauses(first: &[Seq<Lit>], second: &[Seq<Lit>]) -> bool {
    for (clause, other) in first.iter().zip(second) {
        if clause.as_slice() != other.as_slice() {
            return false;
        }
    }
    first.len() == second.len()
}

/// Whether two lists have the same values at each time.
fn are_same_times(first: &[Seq<bool>], second: &[Seq<bool>]) -> bool {
    for (values, other) in first.iter().zip(second) {
        if values.as_slice() != other.as_slice() {
            return false;
        }
    }
    first.len() == second.len()
}

/// Whether two engines found the same, and something.
fn is_same(first: &Finding, second: &Finding) -> bool {
    match (first, second) {
        (Finding::Invariant(clauses), Finding::Invariant(others)) => {
            are_same_clauses(clauses.as_slice(), others.as_slice())
        }
        (
            Finding::Run { initial, inputs },
            Finding::Run {
                initial: other_initial,
                inputs: other_inputs,
            },
        ) => {
            initial.as_slice() == other_initial.as_slice()
                && are_same_times(inputs.as_slice(), other_inputs.as_slice())
        }
        (Finding::Unknown(reason), Finding::Unknown(other)) => {
            reason == other && *reason != Reason::NoEvidence
        }
        _ => false,
    }
}

/// Whether a call was made again, where it answered right.
type Called = Option<bool>;

/// Whether a call answered right. One that was made again is told on standard error.
fn is_right_call(rt: &HostRuntime, call: Called) -> Result<bool, Fail> {
    if call == Some(true) {
        eprintln!(rt; "asked again")?;
    }
    Ok(call.is_some())
}

/// The circuit of a text. Where a growth is refused, it is read again.
fn circuit_of(alloc: Global, text: &[u8]) -> Result<Model, ReadError>
    ensures { IfOk result IsForBad }
{
    match circuit(alloc, text) {
        Err(ReadError::OutOfMemory(_)) => circuit(alloc, text),
        first => first,
    }
}

/// How two engines of a sort are asked about a circuit, of which both have to find the same.
fn compared_at<E: Engine>(
    first: &mut E,
    second: &mut E,
    alloc: Global,
    circuit: &Model,
    steps: u64,
) -> Result<Called, Fail>
    requires { IsForBad circuit.now }
{
    let (finding, first_again) = found(first, alloc, circuit, steps)?;
    let (other, second_again) = found(second, alloc, circuit, steps)?;
    if is_same(&finding, &other) {
        Ok(Some(first_again || second_again))
    } else {
        Ok(None)
    }
}

/// The same of the circuit of a text.
fn compared_on<E: Engine>(
    first: &mut E,
    second: &mut E,
    alloc: Global,
    text: &[u8],
    steps: u64,
) -> Result<Called, Fail> {
    let circuit = circuit_of(alloc, text)?;
    compared_at(first, second, alloc, &circuit, steps)
}

/// The same of each circuit.
fn compared<E: Engine>(
    mut first: E,
    mut second: E,
    alloc: Global,
    steps: u64,
) -> Result<Called, Fail> {
    let mut is_again = false;
    for text in &ROWS {
        match compared_on(&mut first, &mut second, alloc, text, steps)? {
            Some(again) => is_again |= again,
            None => return Ok(None),
        }
    }
    Ok(Some(is_again))
}

/// Bounded search through runs of so many steps.
fn bounded(alloc: Global, depth: u32) -> Bmc<Cdcl, Silent>
    requires { depth ≤ 255 }
{
    Bmc::new(alloc, Cdcl::new(alloc), Cdcl::new(alloc), depth)
}

#[test]
fn bounded_search(rt: HostRuntime) -> Result<(), Fail> {
    let alloc = rt.alloc();
    let (first, second) = (bounded(alloc, 8), bounded(alloc, 8));
    let call = compared(first, second, alloc, STEPS)?;
    assert!(rt; is_right_call(&rt, call)?);
    Ok(())
}

#[test]
fn ic3(rt: HostRuntime) -> Result<(), Fail> {
    let alloc = rt.alloc();
    let (first, second) = (Cdcl::new(alloc), Cdcl::new(alloc));
    let call = compared(Ic3::new(first), Ic3::new(second), alloc, STEPS)?;
    assert!(rt; is_right_call(&rt, call)?);
    Ok(())
}

#[test]
fn random_simulation(rt: HostRuntime) -> Result<(), Fail> {
    let (first, second) = (Random::new(0, 8), Random::new(0, 8));
    let call = compared(first, second, rt.alloc(), PLAYED)?;
    assert!(rt; is_right_call(&rt, call)?);
    Ok(())
}

/// Equal latches, bounded search up to runs of one step behind them, and IC3 behind both.
fn one_behind_the_other(
    alloc: Global,
) -> Corresponding<Cdcl, InOrder<Bmc<Cdcl, Silent>, Ic3<Cdcl, Silent>>, Silent> {
    let behind = InOrder::new(bounded(alloc, 1), Ic3::new(Cdcl::new(alloc)));
    Corresponding::new(Cdcl::new(alloc), behind)
}

#[test]
fn equal_latches(rt: HostRuntime) -> Result<(), Fail> {
    let alloc = rt.alloc();
    let (first, second) = (one_behind_the_other(alloc), one_behind_the_other(alloc));
    let call = compared(first, second, alloc, STEPS)?;
    assert!(rt; is_right_call(&rt, call)?);
    Ok(())
}

/// A list of clauses, its greatest variable, and whether nothing satisfies it.
type Clauses = (u16, &'static [i32], bool);

/// Three pigeons that do not fit into two holes, four into three, and clauses that have a model.
static FORMULAS: [Clauses; 3] = [
    (
        6,
        &[
            1, 2, 0, 3, 4, 0, 5, 6, 0, -3, -1, 0, -5, -1, 0, -5, -3, 0, -4, -2, 0, -6, -2, 0, -6,
            -4, 0,
        ],
        true,
    ),
    (
        12,
        &[
            1, 2, 3, 0, 4, 5, 6, 0, 7, 8, 9, 0, 10, 11, 12, 0, -4, -1, 0, -7, -1, 0, -7, -4, 0,
            -10, -1, 0, -10, -4, 0, -10, -7, 0, -5, -2, 0, -8, -2, 0, -8, -5, 0, -11, -2, 0, -11,
            -5, 0, -11, -8, 0, -6, -3, 0, -9, -3, 0, -9, -6, 0, -12, -3, 0, -12, -6, 0, -12, -9, 0,
        ],
        true,
    ),
    (
        4,
        &[1, 2, 0, 3, 4, 0, -3, -1, 0, -4, -2, 0, -2, -1, 0],
        false,
    ),
];

/// The formula of a list.
fn formula_of(alloc: Global, vars: u16, list: &[i32]) -> Result<Formula, AskError>
    ensures vars { IfOk result (λ f. f.vars ≡ vars) }
    ensures is_formula { IfOk result IsFormula }
{
    match formula(alloc, vars, list) {
        Ok(formula) => Ok(formula),
        Err(_) => formula(alloc, vars, list),
    }
}

/// Begins anew over these variables, and answers whether that took a second call.
fn reset<S: Sat>(solver: &mut S, alloc: Global, vars: u16) -> Result<bool, SatError>
    ensures { OnOk result (S.vars solver.new ≡ vars) }
{
    match solver.reset(alloc, u32::from(vars)) {
        Err(SatError::OutOfMemory(_)) => {
            solver.reset(alloc, u32::from(vars))?;
            Ok(true)
        }
        Err(error) => Err(error),
        Ok(()) => Ok(false),
    }
}

/// Adds a clause, and answers whether that took a second call.
fn add<S: Sat>(solver: &mut S, alloc: Global, clause: &[i32]) -> Result<bool, SatError>
    requires { All (IsLiteral (S.vars solver.old)) clause.now }
    ensures { S.vars solver.new ≡ S.vars solver.old }
{
    match solver.add(alloc, clause) {
        Err(SatError::OutOfMemory(_)) => {
            solver.add(alloc, clause)?;
            Ok(true)
        }
        Err(error) => Err(error),
        Ok(()) => Ok(false),
    }
}

/// Adds the formula's clauses, and answers whether a call was made again.
fn add_all<S: Sat>(solver: &mut S, alloc: Global, formula: &Formula) -> Result<bool, SatError>
    requires is_formula { IsFormula formula.now }
    requires vars { S.vars solver.old ≡ formula.now.vars }
    ensures { S.vars solver.new ≡ S.vars solver.old }
{
    let mut is_again = false;
    for clause in formula.clauses.as_slice() {
        is_again |= add(solver, alloc, clause.as_slice())?;
    }
    Ok(is_again)
}

/// The answer, and whether it took a second call, with a new budget.
fn solve<S: Sat>(solver: &mut S, alloc: Global) -> Result<(Answer, bool), SatError> {
    match solver.solve(alloc, &[], &mut Budget::new(STEPS)) {
        Err(SatError::OutOfMemory(_)) => {
            let answer = solver.solve(alloc, &[], &mut Budget::new(STEPS))?;
            Ok((answer, true))
        }
        Err(error) => Err(error),
        Ok(answer) => Ok((answer, false)),
    }
}

/// How a solver is asked about a formula of this greatest variable.
fn asked_by<S: Sat>(
    solver: &mut S,
    alloc: Global,
    vars: u16,
    formula: &Formula,
    is_unsatisfiable: bool,
) -> Result<Called, AskError>
    requires vars { formula.now.vars ≡ vars }
    requires is_formula { IsFormula formula.now }
{
    let reset_again = reset(solver, alloc, vars)?;
    let added_again = add_all(solver, alloc, formula)?;
    let (answer, solved_again) = solve(solver, alloc)?;
    let none: &[i32] = &[];
    let core = if is_unsatisfiable { Some(none) } else { None };
    if is_right(&answer, formula, core) {
        Ok(Some(reset_again || added_again || solved_again))
    } else {
        Ok(None)
    }
}

/// How a solver is asked about a list of clauses.
fn by_solver<S: Sat>(mut solver: S, alloc: Global, clauses: &Clauses) -> Result<Called, AskError> {
    let (vars, list, is_unsatisfiable) = clauses;
    let formula = formula_of(alloc, *vars, list)?;
    asked_by(&mut solver, alloc, *vars, &formula, *is_unsatisfiable)
}

/// The same of a call that may have been refused, which is no right answer.
fn answered(call: Result<Called, AskError>) -> Called {
    match call {
        Ok(call) => call,
        Err(_) => None,
    }
}

#[test]
fn conflict_driven_solver(rt: HostRuntime) -> Result<(), Fail> {
    for clauses in &FORMULAS {
        let call = by_solver(Cdcl::new(rt.alloc()), rt.alloc(), clauses);
        assert!(rt; is_right_call(&rt, answered(call))?);
    }
    Ok(())
}

#[test]
fn backtracking_solver(rt: HostRuntime) -> Result<(), Fail> {
    for clauses in &FORMULAS {
        let call = by_solver(Plain::new(rt.alloc()), rt.alloc(), clauses);
        assert!(rt; is_right_call(&rt, answered(call))?);
    }
    Ok(())
}

/// A refuter that has loaded the formula.
fn refuter_of(alloc: Global, formula: &Formula) -> Result<Refuter, SatError>
    requires { IsFormula formula.now }
    ensures formula { IfOk result (λ r. r.formula ≡ formula.now) }
{
    match Refuter::new(alloc, formula, 0) {
        Ok(refuter) => Ok(refuter),
        Err(_) => Refuter::new(alloc, formula, 0),
    }
}

/// What refutes the formula of a refuter, or satisfies it, and whether it took a second call, with a new budget.
fn refute(refuter: &mut Refuter, alloc: Global) -> Result<(Refuted, bool), SatError> {
    match refuter.refute(alloc, &[], &mut Budget::new(STEPS)) {
        Err(SatError::OutOfMemory(_)) => {
            let refuted = refuter.refute(alloc, &[], &mut Budget::new(STEPS))?;
            Ok((refuted, true))
        }
        Err(error) => Err(error),
        Ok(refuted) => Ok((refuted, false)),
    }
}

/// Whether a proof of the formula is accepted, or a model satisfies it.
fn stands(alloc: Global, refuted: &Refuted, formula: &Formula, is_unsatisfiable: bool) -> bool
    requires { IsFormula formula.now }
{
    match refuted {
        Refuted::Proof(proof) => {
            is_unsatisfiable
                && (refutes(alloc, formula, proof).is_ok()
                    || refutes(alloc, formula, proof).is_ok())
        }
        Refuted::Model(values) => !is_unsatisfiable && satisfies(values.as_slice(), formula),
        Refuted::Spent => false,
    }
}

/// How a refuter of the formula is asked about it.
fn refuted_by(
    refuter: &mut Refuter,
    alloc: Global,
    formula: &Formula,
    is_unsatisfiable: bool,
) -> Result<Called, AskError>
    requires { IsFormula formula.now }
{
    let (refuted, is_again) = refute(refuter, alloc)?;
    if stands(alloc, &refuted, formula, is_unsatisfiable) {
        Ok(Some(is_again))
    } else {
        Ok(None)
    }
}

/// How a refuter is asked about a list of clauses.
fn by_refuter(alloc: Global, clauses: &Clauses) -> Result<Called, AskError> {
    let (vars, list, is_unsatisfiable) = clauses;
    let formula = formula_of(alloc, *vars, list)?;
    let mut refuter = refuter_of(alloc, &formula)?;
    let call = refuted_by(&mut refuter, alloc, &formula, *is_unsatisfiable);
    drop(refuter);
    call
}

#[test]
fn refuter(rt: HostRuntime) -> Result<(), Fail> {
    for clauses in &FORMULAS {
        let call = by_refuter(rt.alloc(), clauses);
        assert!(rt; is_right_call(&rt, answered(call))?);
    }
    Ok(())
}

/// Whether a push was made again of a list of a hundred numbers, where it is made.
fn pushed(alloc: Global) -> Result<Called, Refused> {
    let mut list = Seq::new(alloc);
    let mut is_again = false;
    for number in 0..100u32 {
        if list.push(number).is_err() {
            list.push(number)?;
            is_again = true;
        }
    }
    if list.len() == 100 && list.as_slice().last() == Some(&99) {
        Ok(Some(is_again))
    } else {
        Ok(None)
    }
}

#[test]
fn list(rt: HostRuntime) -> Result<(), Fail> {
    let call = pushed(rt.alloc())?;
    assert!(rt; is_right_call(&rt, call)?);
    Ok(())
}
