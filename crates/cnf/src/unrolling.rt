//! A circuit over several times.

ghost use Rattle.base.specs.Witness.{witness};
ghost use Rattle.std.specs.Prelude.{◌≡◌, ◌<◌, ◌≤◌, ◌+◌, ◌*◌, ◌^◌, ◌++◌, ◌⊎◌, All, flat_map, IfOk, IfErr, OnOk};
ghost use Rattle.lrat.specs.Limits.{IsFormula};
ghost use Rattle.lrat.specs.Literals.{IsLiteral};
ghost use Rattle.cnf.specs.Clauses.{time_clauses};
ghost use Rattle.cnf.specs.Formulas.{IsInRange, IsOver};
ghost use Rattle.cnf.specs.Unrolled.{join_clauses, times_from, unroll_clauses as unroll_list, unroll_formula, IsExtension, UnrollLaw};
ghost use Rattle.cnf.specs.declared.error.CnfError.TheVariants.{Limit, OutOfMemory};

use crate::error::CnfError;
use crate::push::{push, push_constraints, push_gates, push_resets};
use crate::time_frame::TimeFrame;
use base::{Refused, Seq};
use graph::{Latch, Model};
use lrat::{AddClause, Clause, Formula};
use std::alloc::Global;

/// The greatest number of steps.
const GREATEST: u32 = 255;

/// Truth, gates and constraints of one time.
fn push_time<C: AddClause>(
    alloc: Global,
    clauses: &mut C,
    circuit: &Model,
    time: TimeFrame,
) -> Result<(), Refused>
    requires max_var { time.max_var ≡ circuit.now.max_var }
    requires fits { time.offset + time.max_var + 1 < 2 ^ 31 }
    ensures { OnOk result (C.clauses clauses.new ≡ C.clauses clauses.old ++ time_clauses circuit.now time.offset) }
{
    circuit.well_formed();
    push(alloc, clauses, &[time.truth()])?;
    push_gates(alloc, clauses, time, circuit.gates())?;
    push_constraints(alloc, clauses, time, circuit.constraints())?;
    Ok(())
}

/// A latch at the next time has the value of its next literal at this one.
fn push_join<C: AddClause>(
    alloc: Global,
    clauses: &mut C,
    time: TimeFrame,
    latch: Latch,
) -> Result<(), Refused>
    requires fits { time.offset + 2 * (time.max_var + 1) < 2 ^ 31 }
    requires lit { IsInRange time.max_var latch.lit }
    requires next { IsInRange time.max_var latch.next }
    ensures { OnOk result (C.clauses clauses.new ≡ C.clauses clauses.old ++ join_clauses time.max_var time.offset latch) }
{
    let after = time.next();
    push(
        alloc,
        clauses,
        &[after.denial(latch.lit), time.literal(latch.next)],
    )?;
    push(
        alloc,
        clauses,
        &[after.literal(latch.lit), time.denial(latch.next)],
    )?;
    Ok(())
}

/// Each latch gets the value of its next literal.
pub(crate) fn push_joins<C: AddClause>(
    alloc: Global,
    clauses: &mut C,
    time: TimeFrame,
    latches: &[Latch],
) -> Result<(), Refused>
    requires fits { time.offset + 2 * (time.max_var + 1) < 2 ^ 31 }
    requires lits { All (λ l. IsInRange time.max_var l.lit) latches.now }
    requires nexts { All (λ l. IsInRange time.max_var l.next) latches.now }
    ensures { OnOk result (C.clauses clauses.new ≡ C.clauses clauses.old ++ flat_map (join_clauses time.max_var time.offset) latches.now) }
{
    for latch in latches {
        push_join(alloc, clauses, time, *latch)?;
    }
    Ok(())
}

/// The first time and `steps` more.
pub fn push_times<C: AddClause>(
    alloc: Global,
    clauses: &mut C,
    circuit: &Model,
    steps: u32,
) -> Result<(), Refused>
    requires { steps ≤ 255 }
    ensures { OnOk result (C.clauses clauses.new ≡ C.clauses clauses.old ++ times_from circuit.now steps 0) }
{
    circuit.well_formed();
    let mut time = TimeFrame::first(circuit);
    for _step in 0..steps {
        push_time(alloc, clauses, circuit, time)?;
        push_joins(alloc, clauses, time, circuit.latches())?;
        time = time.next();
    }
    push_time(alloc, clauses, circuit, time)?;
    Ok(())
}

fn unroll_clauses(alloc: Global, circuit: &Model, steps: u32) -> Result<Seq<Clause>, Refused>
    requires { steps ≤ 255 }
    ensures { IfOk result (λ s. s ≡ unroll_list circuit.now steps) }
{
    circuit.well_formed();
    let mut clauses = Seq::new(alloc);
    push_resets(
        alloc,
        &mut clauses,
        TimeFrame::first(circuit),
        circuit.latches(),
    )?;
    push_times(alloc, &mut clauses, circuit, steps)?;
    Ok(clauses)
}

/// The runs of this number of steps that keep the constraints, at most 255. Variable `v` at time `t` is
/// `t * (M + 1) + v`, where `M` is the greatest variable. It costs `steps + 1` circuits.
pub fn unroll(alloc: Global, circuit: &Model, steps: u32) -> Result<Formula, CnfError>
    ensures formula { IfOk result (λ f. (steps ≤ 255) × (f ≡ unroll_formula circuit.now steps)) }
    ensures refused { IfErr result (λ e. (e ≡ OutOfMemory witness) ⊎ ((e ≡ Limit) × (255 < steps))) }
    ensures is_formula { IfOk result (λ f. IsFormula f) }
    ensures variables { IfOk result (λ f. IsOver circuit.now (steps + 1) f.clauses) }
    ensures meaning { IfOk result (λ _. UnrollLaw circuit.now steps) }
{
    if steps > GREATEST {
        return Err(CnfError::Limit);
    }
    circuit.well_formed();
    let clauses = unroll_clauses(alloc, circuit, steps)?;
    Ok(Formula {
        vars: (steps + 1) * (circuit.max_var() + 1),
        clauses,
    })
}

/// The joins with the time before, and that time.
fn extension_clauses(alloc: Global, circuit: &Model, steps: u32) -> Result<Seq<Clause>, Refused>
    requires { steps ≤ 255 }
    ensures { IfOk result (IsExtension circuit.now steps) }
{
    if steps == 0 {
        return unroll_clauses(alloc, circuit, 0);
    }
    circuit.well_formed();
    let before = TimeFrame::after(circuit, steps - 1);
    let mut clauses = Seq::new(alloc);
    push_joins(alloc, &mut clauses, before, circuit.latches())?;
    push_time(alloc, &mut clauses, circuit, before.next())?;
    Ok(clauses)
}

/// The clauses that the unrolling of this number of steps has beyond that of one step less: of 0 steps,
/// all. So an unrolling can grow step by step. It costs one circuit.
pub fn extension(alloc: Global, circuit: &Model, steps: u32) -> Result<Seq<Clause>, CnfError>
    ensures clauses { IfOk result (λ s. (steps ≤ 255) × IsExtension circuit.now steps s) }
    ensures literals { IfOk result (λ s. All (All (IsLiteral ((steps + 1) * (circuit.now.max_var + 1)))) s) }
    ensures variables { IfOk result (λ _. IsOver circuit.now (steps + 1) (unroll_list circuit.now steps)) }
    ensures meaning { IfOk result (λ _. UnrollLaw circuit.now steps) }
    ensures refused { IfErr result (λ e. (e ≡ OutOfMemory witness) ⊎ ((e ≡ Limit) × (255 < steps))) }
{
    if steps > GREATEST {
        return Err(CnfError::Limit);
    }
    circuit.well_formed();
    Ok(extension_clauses(alloc, circuit, steps)?)
}
