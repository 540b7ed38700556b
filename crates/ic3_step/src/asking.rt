//! A query of a solver.

ghost use Rattle.std.specs.Prelude.{◌≡◌, ◌+◌, ◌<◌, ◌^◌, ◌++◌, ℕ, List, Some, map, All, IfOk, OnOk};
ghost use Rattle.base.specs.Budget.{Spends};
ghost use Rattle.cnf.specs.Clauses.{literal};
ghost use Rattle.cnf.specs.Formulas.{IsInRange};
ghost use Rattle.ic3_step.specs.States.{Guarded};
ghost use Rattle.ic3_step.specs.Replies.{IsReply, IsUsable};
ghost use Rattle.ic3_step.specs.Contents.{IsLoaded, HasGuards, guard_literal as guard_literal_of};
ghost use Rattle.ic3_step.specs.Readings.{assumptions_of};

use crate::cone::{Cone, grow};
use crate::encoding::guard_literal;
use crate::reading::{core_lits, time_in};
use crate::reply::Reply;
use base::{Budget, Refused, push};
use engine::EngineError;
use graph::{Lit, Model};
use solver::{Answer, PartSat};
use std::alloc::Global;

/// Adds the literal of each guard.
fn push_guards(literals: &mut Vec<i32>, circuit: &Model, guards: &[u32]) -> Result<(), Refused>
    requires { All (λ g. circuit.now.max_var + 2 + g < 2 ^ 31) guards.now }
    ensures { OnOk result (literals.new.items ≡ literals.old.items ++ map (guard_literal_of circuit.now) guards.now) }
{
    for guard in guards {
        push(literals, guard_literal(circuit, *guard))?;
    }
    Ok(())
}

/// Adds the literal of clauses for each literal of the circuit.
pub(crate) fn push_lits(
    literals: &mut Vec<i32>,
    circuit: &Model,
    lits: &[Lit],
) -> Result<(), Refused>
    requires { All (IsInRange circuit.now.max_var) lits.now }
    ensures { OnOk result (literals.new.items ≡ literals.old.items ++ map (literal circuit.now.max_var 0) lits.now) }
{
    circuit.well_formed();
    let time = cnf::TimeFrame::first(circuit);
    for lit in lits {
        push(literals, time.literal(*lit))?;
    }
    Ok(())
}

/// What is assumed.
fn assumptions(
    alloc: Global,
    circuit: &Model,
    guards: &[u32],
    lits: &[Lit],
) -> Result<Vec<i32>, Refused>
    requires guards { All (λ g. circuit.now.max_var + 2 + g < 2 ^ 31) guards.now }
    requires lits { All (IsInRange circuit.now.max_var) lits.now }
    ensures { IfOk result (λ v. v.items ≡ assumptions_of circuit.now guards.now lits.now) }
{
    let mut literals = Vec::new(alloc);
    push_guards(&mut literals, circuit, guards)?;
    push_lits(&mut literals, circuit, lits)?;
    Ok(literals)
}

/// Asks for a time at which the literals are true, in a state where the clauses of these guards
/// hold. First the solver gets what it lacks of the literals' cone. It answers by that cone alone, so the clauses may
/// be false in a state that it finds, by latches outside of the cone; no core rests on that.
pub(crate) fn ask<S: PartSat>(
    solver: &mut S,
    alloc: Global,
    circuit: &Model,
    cone: &mut Cone,
    guards: &[u32],
    lits: &[Lit],
    budget: &mut Budget,
) -> Result<Reply, EngineError>
    requires guards { HasGuards circuit.now guards.now (record { vars = S.vars solver.old; clauses = S.clauses solver.old; cone = Some cone.old }) }
    requires lits { All (IsUsable circuit.now) lits.now }
    ensures spends { Spends budget.old budget.new }
    ensures loaded { (n : ℕ) (gs : List Guarded) → IsLoaded circuit.now n gs (record { vars = S.vars solver.old; clauses = S.clauses solver.old; cone = Some cone.old }) →
        OnOk result (IsLoaded circuit.now n gs (record { vars = S.vars solver.new; clauses = S.clauses solver.new; cone = Some cone.new })) }
    ensures lawful { (n : ℕ) (gs : List Guarded) → IsLoaded circuit.now n gs (record { vars = S.vars solver.old; clauses = S.clauses solver.old; cone = Some cone.old }) →
        IfOk result (IsReply circuit.now gs guards.now lits.now budget.new) }
{
    circuit.well_formed();
    circuit.order();
    solver.vars();
    grow(solver, alloc, circuit, cone, lits)?;
    let part = cone.part_for(alloc, circuit, lits)?;
    let assumed = assumptions(alloc, circuit, guards, lits)?;
    match solver.solve_part(alloc, &part, assumed.as_slice(), budget)? {
        Answer::Model(values) => Ok(Reply::Found(time_in(alloc, circuit, values)?)),
        Answer::Core(core) => Ok(Reply::Core(core_lits(alloc, circuit, core.as_slice())?)),
        Answer::Spent => Ok(Reply::Spent),
    }
}
