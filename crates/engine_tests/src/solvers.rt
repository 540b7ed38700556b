//! Worked formulas: both solvers answer them rightly, and what is refuted has an accepted proof.

ghost use Rattle.std.specs.Prelude.{◌≡◌, ◌≤◌, length, OnOk, IfOk};
ghost use Rattle.lrat.specs.Limits.{IsFormula};

mod formulas;

use crate::literals::are_literals;
use base::{Budget, Refused, Seq, push};
use cdcl::{Cdcl, Refuted, refute};
use formulas::UNSATISFIABLE;
use lrat::{Clause, Formula, Line, Proof, refutes};
use solver::{Answer, Plain, Sat, SatError};
use std::alloc::Global;
use std::test::Fail;

/// Why a question was not asked, or not answered.
#[derive(Clone, Copy, Debug, PartialEq, Eq)]
pub enum AskError {
    /// a literal is out of range
    Unfit,
    /// the solver refused
    Refused(SatError),
}

impl From<SatError> for AskError {
    fn from(error: SatError) -> AskError {
        AskError::Refused(error)
    }
}

impl From<Refused> for AskError {
    fn from(refused: Refused) -> AskError {
        AskError::Refused(SatError::OutOfMemory(refused))
    }
}

/// Assumptions about a formula, and the literals that a core may have; none of these where there is a
/// model.
type Question = (&'static [i32], Option<&'static [i32]>);

/// The greatest variable, clauses, each of which ends with 0, and a question.
static SHORT: [(u16, &[i32], Question); 13] = [
    (0, &[], (&[], None)),
    (3, &[], (&[], None)),
    (2, &[1, 2, 0, 1, -2, 0, -1, 2, 0], (&[], None)),
    (
        4,
        &[1, 2, 0, 3, 4, 0, -3, -1, 0, -4, -2, 0, -2, -1, 0],
        (&[], None),
    ),
    (3, &[1, 1, 0, 2, -2, 3, 0, -3, -3, -1, 0], (&[], None)),
    (4, &[-1, -2, -3, 0], (&[1, 2, 3, 4], Some(&[1, 2, 3]))),
    (4, &[-1, -2, -3, 0], (&[4, 3, 2, 1], Some(&[1, 2, 3]))),
    (4, &[-1, -2, -3, 0], (&[1, 2, -3, 4], None)),
    (4, &[-1, -2, -3, 0], (&[1, 4, -4], Some(&[1, 4, -4]))),
    (3, &[1, 2, 0, -1, 3, 0], (&[-2], None)),
    (3, &[1, 2, 0, -1, 3, 0, -3, 0], (&[-2], Some(&[-2]))),
    (3, &[1, 2, 0, -1, 3, 0, -3, 0], (&[2, 2], None)),
    (3, &[1, 2, 0, -1, 3, 0, -3, 0, -2, 0], (&[2], Some(&[2]))),
];

/// Clauses that come one after the other over three variables, each with a question then.
static GROWING: [(&[i32], Question); 4] = [
    (&[1, 2, 0], (&[-2], None)),
    (&[-1, 3, 0], (&[-2], None)),
    (&[-3, 0], (&[-2], Some(&[-2]))),
    (&[-2, 0], (&[], Some(&[]))),
];

/// The place of the next 0, or the end.
fn clause_end(list: &[i32], start: usize) -> usize
    requires { start ≤ length list.now }
    ensures after { start ≤ result }
    ensures inside { result ≤ length list.now }
{
    let mut end = start;
    while end < list.len() && list[end] != 0 {
        end += 1;
    }
    end
}

/// The formula of a list of clauses, each of which ends with 0 and whose literals must be in range.
pub fn formula(alloc: Global, vars: u16, list: &[i32]) -> Result<Formula, AskError>
    ensures vars { IfOk result (λ f. f.vars ≡ vars) }
    ensures is_formula { IfOk result IsFormula }
{
    let vars = u32::from(vars);
    let mut clauses = Seq::new(alloc);
    let mut start = 0;
    while start < list.len() {
        let end = clause_end(list, start);
        let clause = &list[start..end];
        if !are_literals(clause, vars) {
            return Err(AskError::Unfit);
        }
        clauses.push(Clause::from_slice(alloc, clause)?)?;
        start = end + 1;
    }
    if clauses.len() > 4_294_967_295 {
        return Err(AskError::Unfit);
    }
    Ok(Formula { vars, clauses })
}

/// Adds the formula's clauses.
fn add<S: Sat>(solver: &mut S, alloc: Global, formula: &Formula) -> Result<(), AskError>
    requires is_formula { IsFormula formula.now }
    requires vars { S.vars solver.old ≡ formula.now.vars }
    ensures { S.vars solver.new ≡ S.vars solver.old }
{
    for clause in formula.clauses.as_slice() {
        solver.add(alloc, clause.as_slice())?;
    }
    Ok(())
}

/// Begins anew with the formula.
fn load<S: Sat>(solver: &mut S, alloc: Global, formula: &Formula) -> Result<(), AskError>
    requires { IsFormula formula.now }
    ensures { OnOk result (S.vars solver.new ≡ formula.now.vars) }
{
    solver.reset(alloc, formula.vars)?;
    add(solver, alloc, formula)
}

/// Begins anew with a list of clauses.
fn load_list<S: Sat>(solver: &mut S, alloc: Global, vars: u16, list: &[i32]) -> Result<(), AskError>
    ensures { OnOk result (S.vars solver.new ≡ vars) }
{
    let formula = formula(alloc, vars, list)?;
    load(solver, alloc, &formula)
}

/// The answer under assumptions, whose literals must be in range.
fn ask<S: Sat>(
    solver: &mut S,
    alloc: Global,
    assume: &[i32],
    budget: &mut Budget,
) -> Result<Answer, AskError>
    ensures { S.vars solver.new ≡ S.vars solver.old }
{
    if !are_literals(assume, solver.vars()) {
        return Err(AskError::Unfit);
    }
    Ok(solver.solve(alloc, assume, budget)?)
}

/// How many steps a solver may take where nothing is said of them.
const STEPS: u64 = 100_000_000;

/// Whether a literal is true by its variable's place.
fn is_true(values: &[bool], literal: i32) -> bool {
    values.get(literal.unsigned_abs() as usize) == Some(&(literal > 0))
}

/// Whether each clause has a true literal.
pub fn satisfies(values: &[bool], formula: &Formula) -> bool {
    for clause in formula.clauses.as_slice() {
        if !clause
            .as_slice()
            .iter()
            .any(|literal| is_true(values, *literal))
        {
            return false;
        }
    }
    true
}

/// Whether each literal is one of the others.
fn is_among(literals: &[i32], others: &[i32]) -> bool {
    for literal in literals {
        if !others.contains(literal) {
            return false;
        }
    }
    true
}

/// Whether it is a model of the formula, with a value for each variable and for 0, where no core is wanted, and else a
/// core of such literals.
pub fn is_right(answer: &Answer, formula: &Formula, core: Option<&[i32]>) -> bool {
    match (answer, core) {
        (Answer::Model(values), None) => {
            values.len() as u64 == u64::from(formula.vars) + 1
                && satisfies(values.as_slice(), formula)
        }
        (Answer::Core(part), Some(among)) => is_among(part.as_slice(), among),
        _ => false,
    }
}

/// Whether the solver, begun anew with the formula, answers the question rightly.
fn answers<S: Sat>(
    solver: &mut S,
    alloc: Global,
    formula: &Formula,
    question: Question,
) -> Result<bool, AskError>
    requires { IsFormula formula.now }
{
    let (assume, core) = question;
    load(solver, alloc, formula)?;
    let answer = ask(solver, alloc, assume, &mut Budget::new(STEPS))?;
    Ok(is_right(&answer, formula, core))
}

/// Whether the solver answers the question about a list of clauses rightly.
fn answers_list<S: Sat>(
    solver: &mut S,
    alloc: Global,
    vars: u16,
    list: &[i32],
    question: Question,
) -> Result<bool, AskError> {
    let formula = formula(alloc, vars, list)?;
    answers(solver, alloc, &formula, question)
}

/// Whether the solver answers all short formulas rightly, one after the other.
fn answers_short<S: Sat>(solver: &mut S, alloc: Global) -> Result<bool, AskError> {
    for (vars, list, question) in &SHORT {
        if !answers_list(solver, alloc, *vars, list, *question)? {
            return Ok(false);
        }
    }
    Ok(true)
}

/// Whether the kernel refused neither a learned clause nor a core of the search.
fn refuses_nothing(solver: &Cdcl) -> bool {
    let statistics = solver.statistics();
    statistics.refused_learned == 0 && statistics.refused_cores == 0
}

#[test]
fn short_formulas(rt: HostRuntime) {
    let mut cdcl = Cdcl::new(rt.alloc());
    assert!(rt; answers_short(&mut cdcl, rt.alloc()) == Ok(true));
    assert!(rt; refuses_nothing(&cdcl));
    drop(cdcl);
    assert!(rt; answers_short(&mut Plain::new(rt.alloc()), rt.alloc()) == Ok(true));
}

/// In how many steps the solver, begun anew with the clauses, finds them unsatisfiable, where it does.
fn steps<S: Sat>(
    solver: &mut S,
    alloc: Global,
    vars: u16,
    list: &[i32],
) -> Result<Option<u64>, AskError> {
    let formula = formula(alloc, vars, list)?;
    load(solver, alloc, &formula)?;
    let mut budget = Budget::new(STEPS);
    let answer = ask(solver, alloc, &[], &mut budget)?;
    if !is_right(&answer, &formula, Some(&[])) {
        return Ok(None);
    }
    Ok(Some(budget.spent()))
}

/// Whether the solver finds each of the worked formulas unsatisfiable, in at most `most` steps and, where `least` is set,
/// in no fewer than stand beside it.
fn answers_worked<S: Sat>(
    solver: &mut S,
    alloc: Global,
    least: bool,
    most: u64,
) -> Result<bool, AskError> {
    for (vars, list, few) in &UNSATISFIABLE {
        let few = if least { *few } else { 0 };
        match steps(solver, alloc, *vars, list)? {
            Some(spent) if few <= spent && spent <= most => {}
            _ => return Ok(false),
        }
    }
    Ok(true)
}

#[test]
fn worked_formulas(rt: HostRuntime) {
    let mut cdcl = Cdcl::new(rt.alloc());
    assert!(rt; answers_worked(&mut cdcl, rt.alloc(), false, STEPS) == Ok(true));
    assert!(rt; refuses_nothing(&cdcl));
    assert!(rt; cdcl.statistics().kept_learned > 0);
    drop(cdcl);
    let plain = answers_worked(&mut Plain::new(rt.alloc()), rt.alloc(), true, 1_000_000);
    assert!(rt; plain == Ok(true));
}

/// Whether the question is answered rightly once these clauses over three variables were added.
fn answers_more<S: Sat>(
    solver: &mut S,
    alloc: Global,
    list: &[i32],
    question: Question,
) -> Result<bool, AskError>
    requires { S.vars solver.old ≡ 3 }
    ensures { S.vars solver.new ≡ S.vars solver.old }
{
    let (assume, core) = question;
    let added = formula(alloc, 3, list)?;
    add(solver, alloc, &added)?;
    let answer = ask(solver, alloc, assume, &mut Budget::new(STEPS))?;
    Ok(is_right(&answer, &added, core))
}

/// Whether each question is answered rightly as the clauses come.
fn grows<S: Sat>(solver: &mut S, alloc: Global) -> Result<bool, AskError> {
    load_list(solver, alloc, 3, &[])?;
    for (list, question) in &GROWING {
        if !answers_more(solver, alloc, list, *question)? {
            return Ok(false);
        }
    }
    Ok(true)
}

#[test]
fn clauses_may_come_between_the_calls(rt: HostRuntime) {
    let mut cdcl = Cdcl::new(rt.alloc());
    assert!(rt; grows(&mut cdcl, rt.alloc()) == Ok(true));
    assert!(rt; refuses_nothing(&cdcl));
    drop(cdcl);
    assert!(rt; grows(&mut Plain::new(rt.alloc()), rt.alloc()) == Ok(true));
}

/// Each of the pigeons sits in one of fewer holes, and none share one.
fn pigeons(alloc: Global, pigeons: u8, holes: u8) -> Result<Vec<i32>, Refused> {
    let holes = i32::from(holes);
    let mut list = Vec::new(alloc);
    for pigeon in 0..pigeons {
        let first = i32::from(pigeon) * holes;
        for hole in 1..holes + 1 {
            push(&mut list, first.saturating_add(hole))?;
        }
        push(&mut list, 0)?;
        for other in 0..pigeon {
            for hole in 1..holes + 1 {
                let taken = i32::from(other) * holes + hole;
                push(&mut list, taken.wrapping_neg())?;
                push(&mut list, first.saturating_add(hole).wrapping_neg())?;
                push(&mut list, 0)?;
            }
        }
    }
    Ok(list)
}

/// The id of the empty clause in an accepted proof that the pigeons do not fit.
fn last_id(alloc: Global, list: &[i32]) -> Result<Option<u32>, Fail> {
    let formula = formula(alloc, 56, list)?;
    match refute(alloc, &formula, &mut Budget::new(STEPS))? {
        Refuted::Proof(proof) => Ok(id_of_last(alloc, &formula, &proof)),
        _ => Ok(None),
    }
}

/// The id of the last clause that an accepted proof of the formula adds.
fn id_of_last(alloc: Global, formula: &Formula, proof: &Proof) -> Option<u32>
    requires { IsFormula formula.now }
{
    if refutes(alloc, formula, proof).is_err() {
        return None;
    }
    match proof.lines().last() {
        Some(Line::Add { id, .. }) => Some(*id),
        _ => None,
    }
}

// The 204 clauses have the first ids, the literals of the 56 variables that hold without decisions have one each at
// most, and each conflict takes one. Clauses are forgotten after 500 conflicts, after 550 more, after 600 more, and so
// on.
#[test]
fn forgets_clauses_and_goes_on(rt: HostRuntime) -> Result<(), Fail> {
    let list = pigeons(rt.alloc(), 8, 7)?;
    assert!(rt; matches!(last_id(rt.alloc(), list.as_slice())?, Some(2261..)));
    Ok(())
}

/// Whether the search began anew and forgot clauses, and the kernel kept 2,000 or more that were learned.
fn is_thorough(solver: &Cdcl) -> bool {
    let statistics = solver.statistics();
    let is_renewed = statistics.reductions > 0 && statistics.restarts > 0;
    let is_learned = statistics.conflicts > 2_000 && statistics.kept_learned >= 2_000;
    let is_decided = statistics.decisions > 0 && statistics.propagations > statistics.decisions;
    is_renewed && is_learned && is_decided
}

/// Whether the solver finds that the pigeons do not fit.
fn is_refuted<S: Sat>(solver: &mut S, alloc: Global) -> Result<bool, AskError> {
    let list = pigeons(alloc, 8, 7)?;
    Ok(steps(solver, alloc, 56, list.as_slice())?.is_some())
}

#[test]
fn the_kernel_refuses_no_learned_clause(rt: HostRuntime) {
    let mut cdcl = Cdcl::new(rt.alloc());
    assert!(rt; is_refuted(&mut cdcl, rt.alloc()) == Ok(true));
    assert!(rt; refuses_nothing(&cdcl));
    assert!(rt; is_thorough(&cdcl));
    drop(cdcl);
}
