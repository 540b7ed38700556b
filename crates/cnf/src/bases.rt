//! The frame of a circuit, and what the cases of an invariant share.

ghost use Rattle.std.specs.Prelude.{◌≡◌, ◌∷◌, [], IfOk, OnOk};
ghost use Rattle.lrat.specs.Limits.{IsFormula};
ghost use Rattle.cnf.specs.Clauses.{truth_clause, frame_clauses as frame_list, gates_at, start_clauses as start_list, time_clauses, shared_clauses as shared_list};
ghost use Rattle.cnf.specs.Formulas.{formula_of, frame_formula, start_formula, shared_formula, IsInvariant, IsOver};
ghost use Rattle.cnf.specs.Invariants.{SafetyLaw};
ghost use Rattle.cnf.specs.Meaning.{FrameLaw};

use crate::push::{push, push_constraints, push_gates, push_invariant, push_lists, push_resets};
use crate::rows::add_time;
use crate::time_frame::TimeFrame;
use base::{Lists, Refused, Seq};
use graph::{Lit, Model};
use lrat::{AddClause, Clause, ClauseRow, Formula, GateLiterals};
use std::alloc::Global;

/// The clauses as a formula over the variables of one time.
fn formula(circuit: &Model, clauses: Seq<Clause>) -> Formula
    ensures { result ≡ formula_of circuit.now clauses }
{
    circuit.well_formed();
    Formula {
        vars: circuit.max_var() + 1,
        clauses,
    }
}

/// Adds the clause that makes the constant true to a list without clauses.
fn push_truth<C: AddClause>(alloc: Global, clauses: &mut C, circuit: &Model) -> Result<(), Refused>
    requires { C.clauses clauses.old ≡ [] }
    ensures { OnOk result (C.clauses clauses.new ≡ truth_clause circuit.now.max_var 0 ∷ []) }
{
    circuit.well_formed();
    push(alloc, clauses, &[TimeFrame::first(circuit).truth()])
}

/// Adds the clauses of the frame to a list without clauses.
fn push_frame<C: AddClause>(alloc: Global, clauses: &mut C, circuit: &Model) -> Result<(), Refused>
    requires { C.clauses clauses.old ≡ [] }
    ensures { OnOk result (C.clauses clauses.new ≡ frame_list circuit.now) }
{
    circuit.well_formed();
    push_truth(alloc, clauses, circuit)?;
    push_gates(alloc, clauses, TimeFrame::first(circuit), circuit.gates())
}

/// Adds the clauses with which all initial cases begin to a list without clauses.
fn push_start<C: AddClause>(alloc: Global, clauses: &mut C, circuit: &Model) -> Result<(), Refused>
    requires { C.clauses clauses.old ≡ [] }
    ensures { OnOk result (C.clauses clauses.new ≡ start_list circuit.now) }
{
    circuit.well_formed();
    push_truth(alloc, clauses, circuit)?;
    push_resets(alloc, clauses, TimeFrame::first(circuit), circuit.latches())
}

/// Adds the clauses of the frame and of the constraints to a list without clauses.
fn push_constrained_frame<C: AddClause>(
    alloc: Global,
    clauses: &mut C,
    circuit: &Model,
) -> Result<(), Refused>
    requires { C.clauses clauses.old ≡ [] }
    ensures { OnOk result (C.clauses clauses.new ≡ time_clauses circuit.now 0) }
{
    circuit.well_formed();
    push_frame(alloc, clauses, circuit)?;
    push_constraints(
        alloc,
        clauses,
        TimeFrame::first(circuit),
        circuit.constraints(),
    )
}

fn frame_clauses(alloc: Global, circuit: &Model) -> Result<Seq<Clause>, Refused>
    ensures { IfOk result (λ s. s ≡ frame_list circuit.now) }
{
    let mut clauses: Seq<Clause> = Seq::new(alloc);
    push_frame(alloc, &mut clauses, circuit)?;
    Ok(clauses)
}

fn start_clauses(alloc: Global, circuit: &Model) -> Result<Seq<Clause>, Refused>
    ensures { IfOk result (λ s. s ≡ start_list circuit.now) }
{
    let mut clauses: Seq<Clause> = Seq::new(alloc);
    push_start(alloc, &mut clauses, circuit)?;
    Ok(clauses)
}

fn shared_clauses(
    alloc: Global,
    circuit: &Model,
    invariant: &[Seq<Lit>],
) -> Result<Seq<Clause>, Refused>
    requires { IsInvariant circuit.now invariant.now }
    ensures { IfOk result (λ s. s ≡ shared_list circuit.now invariant.now) }
{
    circuit.well_formed();
    let mut clauses: Seq<Clause> = Seq::new(alloc);
    push_constrained_frame(alloc, &mut clauses, circuit)?;
    push_invariant(alloc, &mut clauses, TimeFrame::first(circuit), invariant)?;
    Ok(clauses)
}

/// The frame: exactly the agreeing valuations satisfy it. It costs the gates.
pub fn frame(alloc: Global, circuit: &Model) -> Result<Formula, Refused>
    ensures formula { IfOk result (λ f. f ≡ frame_formula circuit.now) }
    ensures is_formula { IfOk result (λ f. IsFormula f) }
    ensures variables { IfOk result (λ f. IsOver circuit.now 1 f.clauses) }
    ensures meaning { IfOk result (λ _. FrameLaw circuit.now) }
{
    circuit.well_formed();
    let clauses = frame_clauses(alloc, circuit)?;
    Ok(formula(circuit, clauses))
}

/// What all initial cases begin with. An initial case is this with its units, `init_units`.
pub fn start_base(alloc: Global, circuit: &Model) -> Result<Formula, Refused>
    ensures formula { IfOk result (λ f. f ≡ start_formula circuit.now) }
    ensures is_formula { IfOk result (λ f. IsFormula f) }
{
    circuit.well_formed();
    let clauses = start_clauses(alloc, circuit)?;
    Ok(formula(circuit, clauses))
}

/// What all step and bad cases of an invariant begin with: frame, constraints and the invariant's
/// clauses. A case is this with its units, `step_units` or `bad_unit`.
///
/// Where nothing satisfies any case of the invariant, the circuit is safe.
pub fn shared_base(
    alloc: Global,
    circuit: &Model,
    invariant: &[Seq<Lit>],
) -> Result<Formula, Refused>
    requires { IsInvariant circuit.now invariant.now }
    ensures formula { IfOk result (λ f. f ≡ shared_formula circuit.now invariant.now) }
    ensures is_formula { IfOk result (λ f. IsFormula f) }
    ensures safety { IfOk result (λ _. SafetyLaw circuit.now invariant.now) }
{
    circuit.well_formed();
    let clauses = shared_clauses(alloc, circuit, invariant)?;
    Ok(formula(circuit, clauses))
}

/// The clauses of `start_base`, for a refuter to take over.
pub fn start_row<'a>(alloc: Global, circuit: &Model) -> Result<ClauseRow<'a>, Refused>
    ensures formula { IfOk result (λ r. formula_of circuit.now r ≡ start_formula circuit.now) }
    ensures is_formula { IfOk result (λ r. IsFormula (formula_of circuit.now r)) }
{
    circuit.well_formed();
    let mut clauses = ClauseRow::new(alloc);
    push_start(alloc, &mut clauses, circuit)?;
    Ok(clauses)
}

/// The clauses of `shared_base`, for a refuter to take over. The gates are those of `gates_of`.
pub fn shared_row<'a>(
    alloc: Global,
    circuit: &Model,
    gates: &'a [GateLiterals],
    invariant: &Lists<Lit>,
) -> Result<ClauseRow<'a>, Refused>
    requires gates { gates.now ≡ gates_at circuit.now }
    requires invariant { IsInvariant circuit.now invariant.now }
    ensures formula { IfOk result (λ r. formula_of circuit.now r ≡ shared_formula circuit.now invariant.now) }
    ensures is_formula { IfOk result (λ r. IsFormula (formula_of circuit.now r)) }
    ensures safety { IfOk result (λ _. SafetyLaw circuit.now invariant.now) }
{
    circuit.well_formed();
    let time = TimeFrame::first(circuit);
    let mut clauses = ClauseRow::new(alloc);
    add_time(alloc, &mut clauses, circuit, gates, time)?;
    push_lists(alloc, &mut clauses, time, invariant)?;
    Ok(clauses)
}
