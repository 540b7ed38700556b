//! Lines and hints that show clauses at a time.

ghost use Rattle.std.specs.Prelude.{◌≡◌, ◌+◌, ◌≤◌, ◌<◌, ◌^◌, ℤ, List, All, IfErr, IfOk, map};
ghost use Rattle.base.specs.Budget.{Spends};
ghost use Rattle.lrat.specs.Limits.{IsFormula};
ghost use Rattle.lrat.specs.Literals.{IsLiteral};
ghost use Rattle.cnf.specs.Clauses.{denial};
ghost use Rattle.cnf.specs.Formulas.{IsInRange};
ghost use Rattle.cdcl_log.specs.Closings.{IsClosingOf, StaysShown};
ghost use Rattle.cdcl_log.specs.Logged.{with_units};
ghost use Rattle.inductive_proofs.specs.ProveErrors.{IsProveErrorAt, IsProveErrorOf, case_of};

use crate::counterexample::{Case, Counterexample};
use crate::near::Nearby;
use crate::prove_error::ProveError;
use crate::sweeping::sweep_pairs;
use base::{Budget, Lists, Refused, Seq, push};
use cdcl::{Closing, Refuter, Shown};
use cnf::{TimeFrame, clause_into};
use graph::{Lit, Model};
use lrat::{Formula, Trail};
use lrat_trim::{Derived, Known, Numbering};
use solver::{Part, SatError};
use std::alloc::Global;

/// Which of the clauses' cases are asked about.
#[derive(Clone, Copy, PartialEq, Eq)]
pub enum Kind {
    /// those of a first time
    First,
    /// those of a step
    Step,
}

impl Kind {
    /// The case of a clause.
    fn case(self, clause: u64) -> Case
        ensures { result ≡ case_of self clause }
    {
        match self {
            Kind::First => Case::First(clause),
            Kind::Step => Case::Step(clause),
        }
    }
}

/// Clauses at a time.
#[derive(Clone, Copy)]
pub struct Timed<'a> {
    /// the circuit
    pub circuit: &'a Model,
    /// which of their cases are asked about
    pub kind: Kind,
    /// the variables of the time
    pub time: TimeFrame,
    /// the clauses over the circuit's literals
    pub clauses: &'a Lists<Lit>,
}

/// The negations of a clause's literals at a time.
fn denials(alloc: Global, time: TimeFrame, clause: &[Lit]) -> Result<Vec<i32>, Refused>
    requires fits { time.offset + time.max_var + 1 < 2 ^ 31 }
    requires over { All (IsInRange time.max_var) clause.now }
    ensures { IfOk result (λ us. us.items ≡ map (denial time.max_var time.offset) clause.now) }
{
    let mut units = Vec::new(alloc);
    for lit in clause {
        push(&mut units, time.denial(*lit))?;
    }
    Ok(units)
}

/// What shows a case with these units, where nothing satisfies it. The part is asked about first.
fn close(
    alloc: Global,
    refuter: &mut Refuter,
    case: Case,
    part: &Part,
    units: &[i32],
    budget: &mut Budget,
) -> Result<Closing, ProveError>
    requires literals { All (IsLiteral refuter.old.formula.vars) units.now }
    ensures formula { refuter.new.formula ≡ refuter.old.formula }
    ensures stays { StaysShown refuter.old refuter.new }
    ensures spends { Spends budget.old budget.new }
    ensures closed { IfOk result (IsClosingOf refuter.new units.now) }
    ensures halted { IfErr result (IsProveErrorOf (with_units refuter.old.formula units.now) case budget.new) }
{
    match refuter.show_part(alloc, part, units, budget)? {
        Shown::Closing(closing) => Ok(closing),
        Shown::Model(values) => Err(ProveError::NotInvariant(Counterexample { case, values })),
        Shown::Spent => Err(ProveError::Spent),
    }
}

/// What shows each clause, one after the other: what is learned for one serves the next.
fn close_all(
    alloc: Global,
    refuter: &mut Refuter,
    timed: Timed,
    budget: &mut Budget,
) -> Result<Seq<Closing>, ProveError>
    requires fits { timed.time.offset + timed.time.max_var + 1 ≤ refuter.old.formula.vars }
    requires small { refuter.old.formula.vars < 2 ^ 31 }
    requires over { All (All (IsInRange timed.time.max_var)) timed.clauses.now }
    ensures formula { refuter.new.formula ≡ refuter.old.formula }
    ensures spends { Spends budget.old budget.new }
    ensures closed { IfOk result (λ ks. All (λ k. (us : List ℤ) × IsClosingOf refuter.new us k) ks) }
    ensures halted { IfErr result (IsProveErrorAt refuter.old.formula timed.entry.kind timed.entry.time timed.entry.clauses.now budget.new) }
{
    let after_step = timed.kind == Kind::Step;
    let mut nearby = Nearby::new(alloc, timed.circuit)?;
    let mut closings = Seq::new(alloc);
    for place in 0..timed.clauses.len() {
        let clause = timed.clauses.list(place);
        let part = nearby.part(alloc, timed.circuit, clause, after_step)?;
        let units = denials(alloc, timed.time, clause)?;
        let case = timed.kind.case(place as u64);
        let closing = close(alloc, refuter, case, &part, units.as_slice(), budget)?;
        closings.push(closing)?;
    }
    Ok(closings)
}

/// The hints of each clause, by what closed it.
fn hint_all(
    alloc: Global,
    known: Known,
    timed: Timed,
    closings: &[Closing],
) -> Result<Lists<u32>, Refused>
    requires fits { timed.time.offset + timed.time.max_var + 1 < 2 ^ 31 }
    requires vars { known.formula.now.vars < 2 ^ 31 }
    requires over { All (All (IsInRange timed.time.max_var)) timed.clauses.now }
{
    let mut trail = Trail::new(alloc, known.formula.vars)?;
    let mut literals = Vec::new(alloc);
    let mut hints = Lists::new(alloc);
    let count = timed.clauses.len().min(closings.len());
    for place in 0..count {
        clause_into(&mut literals, timed.time, timed.clauses.list(place))?;
        let closing = closings[place].hints.as_slice();
        let strict = known.strict(alloc, &mut trail, literals.as_slice(), closing)?;
        hints.push(strict.as_slice())?;
    }
    Ok(hints)
}

/// What is asked before the clauses, for what the refuter learns of it.
fn prepare(
    alloc: Global,
    timed: Timed,
    refuter: &mut Refuter,
    budget: &mut Budget,
) -> Result<(), SatError>
    requires { timed.circuit.now.max_var + 1 ≤ refuter.old.formula.vars }
    ensures same { refuter.new ≡ refuter.old }
    ensures spends { Spends budget.old budget.new }
{
    match timed.kind {
        Kind::First => Ok(()),
        Kind::Step => sweep_pairs(alloc, timed.circuit, timed.clauses, refuter, budget),
    }
}

/// The lines on which the closings rest, and the hints of each clause behind them.
fn shown_by(
    alloc: Global,
    formula: &Formula,
    timed: Timed,
    refuter: &Refuter,
    closings: &[Closing],
) -> Result<Derived, SatError>
    requires fits { timed.time.offset + timed.time.max_var + 1 < 2 ^ 31 }
    requires vars { formula.now.vars < 2 ^ 31 }
    requires over { All (All (IsInRange timed.time.max_var)) timed.clauses.now }
    requires closed { All (λ k. (us : List ℤ) × IsClosingOf refuter.now us k) closings.now }
{
    let found = refuter.lemmas(alloc, closings)?.proof;
    let numbering = Numbering::new(alloc, formula.clauses.len(), found.lines())?;
    let lines = numbering.renumbered(alloc, found.lines())?;
    let known = Known {
        formula,
        lines: lines.lines(),
        numbering: &numbering,
    };
    let hints = hint_all(alloc, known, timed, closings)?;
    Ok(Derived { lines, hints })
}

/// Lines and hints that show the clauses, by a refuter that has loaded the formula.
fn show_by(
    alloc: Global,
    formula: &Formula,
    timed: Timed,
    refuter: &mut Refuter,
    budget: &mut Budget,
) -> Result<Derived, ProveError>
    requires loaded { refuter.old.formula ≡ formula.now }
    requires small { formula.now.vars < 2 ^ 31 }
    requires first { timed.circuit.now.max_var + 1 ≤ formula.now.vars }
    requires fits { timed.time.offset + timed.time.max_var + 1 ≤ formula.now.vars }
    requires over { All (All (IsInRange timed.time.max_var)) timed.clauses.now }
    ensures spends { Spends budget.old budget.new }
    ensures halted { IfErr result (IsProveErrorAt formula.now timed.entry.kind timed.entry.time timed.entry.clauses.now budget.new) }
{
    prepare(alloc, timed, refuter, budget)?;
    let closings = close_all(alloc, refuter, timed, budget)?;
    Ok(shown_by(alloc, formula, timed, refuter, closings.as_slice())?)
}

/// Lines and hints that show the clauses from the formula, which is loaded once.
pub fn show(
    alloc: Global,
    formula: &Formula,
    timed: Timed,
    budget: &mut Budget,
) -> Result<Derived, ProveError>
    requires formula { IsFormula formula.now }
    requires first { timed.circuit.now.max_var + 1 ≤ formula.now.vars }
    requires fits { timed.time.offset + timed.time.max_var + 1 ≤ formula.now.vars }
    requires over { All (All (IsInRange timed.time.max_var)) timed.clauses.now }
    ensures spends { Spends budget.old budget.new }
    ensures halted { IfErr result (IsProveErrorAt formula.now timed.entry.kind timed.entry.time timed.entry.clauses.now budget.new) }
{
    let mut refuter = Refuter::new(alloc, formula, 0)?;
    show_by(alloc, formula, timed, &mut refuter, budget)
}
