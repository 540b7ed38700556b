//! The tests of single literals, in the order of the lists.

ghost use Rattle.std.specs.Prelude.{◌+◌, ◌^◌, ◌++◌, ◌∷◌, [], ◌<◌, ◌≤◌, length, map, flat_map};
ghost use Rattle.graph.specs.Circuits.{justice_literals};
ghost use Rattle.graph.specs.WellFormed.{IsInLimits};
ghost use Rattle.graph.specs.Uses.{latch_uses, gate_uses, uses_of};
ghost use Rattle.graph.specs.Faults.{GoesOn};
ghost use Rattle.graph.specs.declared.circuit.Use.TheVariants.{Defines, Mentions};

use crate::circuit::{Gate, Latch, Lit, Use};
use crate::error::ReadError;
use crate::parts::Parts;
use base::Seq;

/// Looks at one literal, before which there were `before` others, and answers how many there are
/// with it.
fn check_use(literal: Use, max_var: u32, before: u64) -> Result<u64, ReadError>
    requires variables { max_var ≤ 4194303 }
    requires few { before < 2 ^ 60 }
    ensures { GoesOn max_var before (literal ∷ []) result }
{
    let most = 2 * max_var + 1;
    match literal {
        Use::Defines(lit) | Use::Mentions(lit) if lit.0 > most => {
            Err(ReadError::LiteralRange(before))
        }
        Use::Defines(lit) if lit.is_negated() || lit.0 < 2 => Err(ReadError::Defining(before)),
        Use::Resets(latch) if latch.reset.0 > 1 && latch.reset != latch.lit => {
            Err(ReadError::Reset(before))
        }
        _ => Ok(before + 1),
    }
}

fn check_inputs(inputs: &[Lit], max_var: u32, before: u64) -> Result<u64, ReadError>
    requires variables { max_var ≤ 4194303 }
    requires few { before + length (map Defines inputs.now) < 2 ^ 60 }
    ensures { GoesOn max_var before (map Defines inputs.now) result }
{
    let mut count = before;
    for lit in inputs {
        count = check_use(Use::Defines(*lit), max_var, count)?;
    }
    Ok(count)
}

fn check_mentions(lits: &[Lit], max_var: u32, before: u64) -> Result<u64, ReadError>
    requires variables { max_var ≤ 4194303 }
    requires few { before + length (map Mentions lits.now) < 2 ^ 60 }
    ensures { GoesOn max_var before (map Mentions lits.now) result }
{
    let mut count = before;
    for lit in lits {
        count = check_use(Use::Mentions(*lit), max_var, count)?;
    }
    Ok(count)
}

fn check_latch(latch: Latch, max_var: u32, before: u64) -> Result<u64, ReadError>
    requires variables { max_var ≤ 4194303 }
    requires few { before + 3 < 2 ^ 60 }
    ensures { GoesOn max_var before (latch_uses latch) result }
{
    let count = check_use(Use::Defines(latch.lit), max_var, before)?;
    let count = check_use(Use::Mentions(latch.next), max_var, count)?;
    check_use(Use::Resets(latch), max_var, count)
}

fn check_latches(latches: &[Latch], max_var: u32, before: u64) -> Result<u64, ReadError>
    requires variables { max_var ≤ 4194303 }
    requires few { before + length (flat_map latch_uses latches.now) < 2 ^ 60 }
    ensures { GoesOn max_var before (flat_map latch_uses latches.now) result }
{
    let mut count = before;
    for latch in latches {
        count = check_latch(*latch, max_var, count)?;
    }
    Ok(count)
}

fn check_justice(justice: &[Seq<Lit>], max_var: u32, before: u64) -> Result<u64, ReadError>
    requires variables { max_var ≤ 4194303 }
    requires few { before + length (map Mentions (justice_literals justice.now)) < 2 ^ 60 }
    ensures { GoesOn max_var before (map Mentions (justice_literals justice.now)) result }
{
    let mut count = before;
    for lits in justice {
        count = check_mentions(lits.as_slice(), max_var, count)?;
    }
    Ok(count)
}

fn check_gate(gate: Gate, max_var: u32, before: u64) -> Result<u64, ReadError>
    requires variables { max_var ≤ 4194303 }
    requires few { before + 3 < 2 ^ 60 }
    ensures { GoesOn max_var before (gate_uses gate) result }
{
    let count = check_use(Use::Defines(gate.lhs), max_var, before)?;
    let count = check_use(Use::Mentions(gate.rhs0), max_var, count)?;
    check_use(Use::Mentions(gate.rhs1), max_var, count)
}

fn check_gates(gates: &[Gate], max_var: u32, before: u64) -> Result<u64, ReadError>
    requires variables { max_var ≤ 4194303 }
    requires few { before + length (flat_map gate_uses gates.now) < 2 ^ 60 }
    ensures { GoesOn max_var before (flat_map gate_uses gates.now) result }
{
    let mut count = before;
    for gate in gates {
        count = check_gate(*gate, max_var, count)?;
    }
    Ok(count)
}

/// Looks at the literals of inputs, latches and outputs.
fn check_first(parts: &Parts) -> Result<u64, ReadError>
    requires { IsInLimits parts.now }
    ensures { GoesOn parts.now.max_var 0 (map Defines parts.now.inputs ++ flat_map latch_uses parts.now.latches ++ map Mentions parts.now.outputs) result }
{
    let max_var = parts.max_var;
    let count = check_inputs(parts.inputs.as_slice(), max_var, 0)?;
    let count = check_latches(parts.latches.as_slice(), max_var, count)?;
    check_mentions(parts.outputs.as_slice(), max_var, count)
}

/// Looks at these, and at the bad literals, the constraints and the justice literals.
fn check_up_to_justice(parts: &Parts) -> Result<u64, ReadError>
    requires { IsInLimits parts.now }
    ensures { GoesOn parts.now.max_var 0 (map Defines parts.now.inputs ++ flat_map latch_uses parts.now.latches ++ map Mentions parts.now.outputs ++ map Mentions parts.now.bad ++ map Mentions parts.now.constraints ++ map Mentions (justice_literals parts.now.justice)) result }
{
    let max_var = parts.max_var;
    let count = check_first(parts)?;
    let count = check_mentions(parts.bad.as_slice(), max_var, count)?;
    let count = check_mentions(parts.constraints.as_slice(), max_var, count)?;
    check_justice(parts.justice.as_slice(), max_var, count)
}

/// Looks at all literals, in the order of the lists, and answers how many there are.
pub fn check_literals(parts: &Parts) -> Result<u64, ReadError>
    requires { IsInLimits parts.now }
    ensures { GoesOn parts.now.max_var 0 (uses_of parts.now) result }
{
    let max_var = parts.max_var;
    let count = check_up_to_justice(parts)?;
    let count = check_mentions(parts.fairness.as_slice(), max_var, count)?;
    check_gates(parts.gates.as_slice(), max_var, count)
}
