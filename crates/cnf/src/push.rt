//! Lists of clauses in the making.

ghost use Rattle.std.specs.Prelude.{◌≡◌, ◌<◌, ◌+◌, ◌^◌, ◌++◌, ◌∷◌, [], All, map, flat_map, IfOk, OnOk};
ghost use Rattle.lrat.specs.Shared.{unit_clauses};
ghost use Rattle.cnf.specs.Clauses.{literal, denial, gate_at, gate_clauses, gates_at, reset_clauses};
ghost use Rattle.cnf.specs.Formulas.{IsGateIn, IsInRange};

use crate::time_frame::TimeFrame;
use base::{Lists, Refused, Seq};
use graph::{Gate, Latch, Lit, Model};
use lrat::{AddClause, GateLiterals};
use std::alloc::Global;

/// Adds a clause. By itself where it is called, a clause of two or three literals is copied without a call.
#[inline(always)]
pub fn push<C: AddClause>(alloc: Global, clauses: &mut C, clause: &[i32]) -> Result<(), Refused>
    ensures { OnOk result (C.clauses clauses.new ≡ C.clauses clauses.old ++ clause.now ∷ []) }
{
    clauses.add_clause(alloc, clause)
}

/// Adds the literals of clauses for literals of the circuit.
pub fn push_literals(literals: &mut Vec<i32>, time: TimeFrame, lits: &[Lit]) -> Result<(), Refused>
    requires fits { time.offset + time.max_var + 1 < 2 ^ 31 }
    requires in_range { All (IsInRange time.max_var) lits.now }
    ensures { OnOk result (literals.new.items ≡ literals.old.items ++ map (literal time.max_var time.offset) lits.now) }
{
    for lit in lits {
        base::push(literals, time.literal(*lit))?;
    }
    Ok(())
}

/// Adds their negations.
pub fn push_denials(literals: &mut Vec<i32>, time: TimeFrame, lits: &[Lit]) -> Result<(), Refused>
    requires fits { time.offset + time.max_var + 1 < 2 ^ 31 }
    requires in_range { All (IsInRange time.max_var) lits.now }
    ensures { OnOk result (literals.new.items ≡ literals.old.items ++ map (denial time.max_var time.offset) lits.now) }
{
    for lit in lits {
        base::push(literals, time.denial(*lit))?;
    }
    Ok(())
}

/// Adds each literal of the circuit as a unit.
pub fn push_constraints<C: AddClause>(
    alloc: Global,
    clauses: &mut C,
    time: TimeFrame,
    lits: &[Lit],
) -> Result<(), Refused>
    requires fits { time.offset + time.max_var + 1 < 2 ^ 31 }
    requires in_range { All (IsInRange time.max_var) lits.now }
    ensures { OnOk result (C.clauses clauses.new ≡ C.clauses clauses.old ++ unit_clauses (map (literal time.max_var time.offset) lits.now)) }
{
    for lit in lits {
        push(alloc, clauses, &[time.literal(*lit)])?;
    }
    Ok(())
}

/// The literals of a gate at this time.
fn gate_literals(time: TimeFrame, gate: Gate) -> GateLiterals
    requires fits { time.offset + time.max_var + 1 < 2 ^ 31 }
    requires in_range { IsGateIn time.max_var gate }
    ensures { result ≡ gate_at time.max_var time.offset gate }
{
    GateLiterals {
        output: time.literal(gate.lhs),
        left: time.literal(gate.rhs0),
        right: time.literal(gate.rhs1),
    }
}

fn push_gate<C: AddClause>(
    alloc: Global,
    clauses: &mut C,
    time: TimeFrame,
    gate: Gate,
) -> Result<(), Refused>
    requires fits { time.offset + time.max_var + 1 < 2 ^ 31 }
    requires in_range { IsGateIn time.max_var gate }
    ensures { OnOk result (C.clauses clauses.new ≡ C.clauses clauses.old ++ gate_clauses time.max_var time.offset gate) }
{
    clauses.add_gate(alloc, gate_literals(time, gate))?;
    Ok(())
}

/// The literals of gates at this time.
fn literals_of(alloc: Global, time: TimeFrame, gates: &[Gate]) -> Result<Seq<GateLiterals>, Refused>
    requires fits { time.offset + time.max_var + 1 < 2 ^ 31 }
    requires in_range { All (IsGateIn time.max_var) gates.now }
    ensures { IfOk result (λ s. s ≡ map (gate_at time.max_var time.offset) gates.now) }
{
    let mut literals = Seq::new(alloc);
    for gate in gates {
        literals.push(gate_literals(time, *gate))?;
    }
    Ok(literals)
}

/// The literals of the circuit's gates at a first time, for rows of clauses. It costs the gates.
pub fn gates_of(alloc: Global, circuit: &Model) -> Result<Seq<GateLiterals>, Refused>
    ensures { IfOk result (λ s. s ≡ gates_at circuit.now) }
{
    circuit.well_formed();
    literals_of(alloc, TimeFrame::first(circuit), circuit.gates())
}

/// Adds the clauses of the gates.
pub fn push_gates<C: AddClause>(
    alloc: Global,
    clauses: &mut C,
    time: TimeFrame,
    gates: &[Gate],
) -> Result<(), Refused>
    requires fits { time.offset + time.max_var + 1 < 2 ^ 31 }
    requires in_range { All (IsGateIn time.max_var) gates.now }
    ensures { OnOk result (C.clauses clauses.new ≡ C.clauses clauses.old ++ flat_map (gate_clauses time.max_var time.offset) gates.now) }
{
    for gate in gates {
        push_gate(alloc, clauses, time, *gate)?;
    }
    Ok(())
}

fn push_reset<C: AddClause>(
    alloc: Global,
    clauses: &mut C,
    time: TimeFrame,
    latch: Latch,
) -> Result<(), Refused>
    requires fits { time.offset + time.max_var + 1 < 2 ^ 31 }
    requires in_range { IsInRange time.max_var latch.lit }
    ensures { OnOk result (C.clauses clauses.new ≡ C.clauses clauses.old ++ reset_clauses time.max_var time.offset latch) }
{
    match latch.reset.0 {
        0 => push(alloc, clauses, &[time.denial(latch.lit)]),
        1 => push(alloc, clauses, &[time.literal(latch.lit)]),
        _ => Ok(()),
    }
}

/// Adds the units of the latches that are reset to a value.
pub fn push_resets<C: AddClause>(
    alloc: Global,
    clauses: &mut C,
    time: TimeFrame,
    latches: &[Latch],
) -> Result<(), Refused>
    requires fits { time.offset + time.max_var + 1 < 2 ^ 31 }
    requires in_range { All (λ l. IsInRange time.max_var l.lit) latches.now }
    ensures { OnOk result (C.clauses clauses.new ≡ C.clauses clauses.old ++ flat_map (reset_clauses time.max_var time.offset) latches.now) }
{
    for latch in latches {
        push_reset(alloc, clauses, time, *latch)?;
    }
    Ok(())
}

/// Adds the clauses of an invariant.
pub fn push_invariant<C: AddClause>(
    alloc: Global,
    clauses: &mut C,
    time: TimeFrame,
    invariant: &[Seq<Lit>],
) -> Result<(), Refused>
    requires fits { time.offset + time.max_var + 1 < 2 ^ 31 }
    requires in_range { All (λ c. All (IsInRange time.max_var) c) invariant.now }
    ensures { OnOk result (C.clauses clauses.new ≡ C.clauses clauses.old ++ map (map (literal time.max_var time.offset)) invariant.now) }
{
    let mut literals = Vec::new(alloc);
    for clause in invariant {
        literals.clear();
        push_literals(&mut literals, time, clause.as_slice())?;
        push(alloc, clauses, literals.as_slice())?;
    }
    Ok(())
}

/// Adds the clauses of an invariant, which lie in one list.
pub fn push_lists<C: AddClause>(
    alloc: Global,
    clauses: &mut C,
    time: TimeFrame,
    invariant: &Lists<Lit>,
) -> Result<(), Refused>
    requires fits { time.offset + time.max_var + 1 < 2 ^ 31 }
    requires in_range { All (λ c. All (IsInRange time.max_var) c) invariant.now }
    ensures { OnOk result (C.clauses clauses.new ≡ C.clauses clauses.old ++ map (map (literal time.max_var time.offset)) invariant.now) }
{
    let mut literals = Vec::new(alloc);
    for k in 0..invariant.len() {
        literals.clear();
        push_literals(&mut literals, time, invariant.list(k))?;
        push(alloc, clauses, literals.as_slice())?;
    }
    Ok(())
}
