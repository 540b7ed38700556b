//! Which variables are defined, and which are used: one table each, filled in one pass.

ghost use Rattle.std.specs.Prelude.{◌≡◌, ◌≢◌, ◌+◌, ◌∷◌, [], ◌<◌, ◌≤◌, ◌^◌, ℕ, List, length, map, All, AllPairs, IfOk, MatchOption};
ghost use Rattle.graph.specs.Circuits.{variable, defined, defining, justice_literals};
ghost use Rattle.graph.specs.WellFormed.{used};
ghost use Rattle.graph.specs.Faults.{IsLeast, IsTwice, IsUndefined};
ghost use Rattle.graph.specs.Tables.{IsCounted, IsMarked, StaysCounted, StaysMarked};

use crate::circuit::{Gate, Latch, Lit};
use crate::parts::Parts;
use base::{Refused, Seq, filled};
use std::alloc::Global;

/// How often a variable is defined.
#[derive(Clone, Copy, PartialEq, Eq)]
pub enum Times {
    Never,
    Once,
    Again,
}

/// Counts one definition of the literal's variable.
fn define(table: &mut [Times], lit: Lit)
    requires { variable lit < length table.old }
    ensures { StaysCounted table.old table.new (variable lit ∷ []) }
{
    let times = &mut table[lit.variable() as usize];
    *times = match *times {
        Times::Never => Times::Once,
        Times::Once | Times::Again => Times::Again,
    };
}

fn define_inputs(table: &mut [Times], inputs: &[Lit])
    requires { All (λ a. variable a < length table.old) inputs.now }
    ensures { StaysCounted table.old table.new (map variable inputs.now) }
{
    for lit in inputs {
        define(table, *lit);
    }
}

fn define_latches(table: &mut [Times], latches: &[Latch])
    requires { All (λ l. variable l.lit < length table.old) latches.now }
    ensures { StaysCounted table.old table.new (map (λ l. variable l.lit) latches.now) }
{
    for latch in latches {
        define(table, latch.lit);
    }
}

fn define_gates(table: &mut [Times], gates: &[Gate])
    requires { All (λ g. variable g.lhs < length table.old) gates.now }
    ensures { StaysCounted table.old table.new (map (λ g. variable g.lhs) gates.now) }
{
    for gate in gates {
        define(table, gate.lhs);
    }
}

/// Counts all definitions.
fn define_all(table: &mut [Times], parts: &Parts)
    requires { All (λ a. variable a < length table.old) (defining parts.now) }
    ensures { StaysCounted table.old table.new (defined parts.now) }
{
    define_inputs(table, parts.inputs.as_slice());
    define_latches(table, parts.latches.as_slice());
    define_gates(table, parts.gates.as_slice());
}

/// How often each variable is defined.
pub fn definitions_of(alloc: Global, parts: &Parts) -> Result<Vec<Times>, Refused>
    requires small { parts.now.max_var ≤ 4194303 }
    requires in_range { All (λ a. variable a ≤ parts.now.max_var) (defining parts.now) }
    ensures places { IfOk result (λ table. length table.items ≡ parts.now.max_var + 1) }
    ensures counted { IfOk result (λ table. IsCounted table.items (defined parts.now)) }
{
    let mut table = filled(alloc, Times::Never, parts.max_var as usize + 1)?;
    define_all(&mut table, parts);
    Ok(table)
}

/// Notes that the literals' variables are used.
fn mention(table: &mut [bool], lits: &[Lit])
    requires { All (λ a. variable a < length table.old) lits.now }
    ensures { StaysMarked table.old table.new (map variable lits.now) }
{
    for lit in lits {
        table[lit.variable() as usize] = true;
    }
}

fn mention_next(table: &mut [bool], latches: &[Latch])
    requires { All (λ l. variable l.next < length table.old) latches.now }
    ensures { StaysMarked table.old table.new (map variable (map (λ l. l.next) latches.now)) }
{
    for latch in latches {
        table[latch.next.variable() as usize] = true;
    }
}

fn mention_justice(table: &mut [bool], justice: &[Seq<Lit>])
    requires { All (λ a. variable a < length table.old) (justice_literals justice.now) }
    ensures { StaysMarked table.old table.new (map variable (justice_literals justice.now)) }
{
    for lits in justice {
        mention(table, lits.as_slice());
    }
}

fn mention_left(table: &mut [bool], gates: &[Gate])
    requires { All (λ g. variable g.rhs0 < length table.old) gates.now }
    ensures { StaysMarked table.old table.new (map variable (map (λ g. g.rhs0) gates.now)) }
{
    for gate in gates {
        table[gate.rhs0.variable() as usize] = true;
    }
}

fn mention_right(table: &mut [bool], gates: &[Gate])
    requires { All (λ g. variable g.rhs1 < length table.old) gates.now }
    ensures { StaysMarked table.old table.new (map variable (map (λ g. g.rhs1) gates.now)) }
{
    for gate in gates {
        table[gate.rhs1.variable() as usize] = true;
    }
}

/// Notes that the variables of all used literals are used.
fn mention_all(table: &mut [bool], parts: &Parts)
    requires { All (λ a. variable a < length table.old) (used parts.now) }
    ensures { StaysMarked table.old table.new (map variable (used parts.now)) }
{
    mention_next(table, parts.latches.as_slice());
    mention(table, parts.outputs.as_slice());
    mention(table, parts.bad.as_slice());
    mention(table, parts.constraints.as_slice());
    mention_justice(table, parts.justice.as_slice());
    mention(table, parts.fairness.as_slice());
    mention_left(table, parts.gates.as_slice());
    mention_right(table, parts.gates.as_slice());
}

/// Which variables are used.
pub fn mentions_of(alloc: Global, parts: &Parts) -> Result<Vec<bool>, Refused>
    requires small { parts.now.max_var ≤ 4194303 }
    requires in_range { All (λ a. variable a ≤ parts.now.max_var) (used parts.now) }
    ensures places { IfOk result (λ table. length table.items ≡ parts.now.max_var + 1) }
    ensures marked { IfOk result (λ table. IsMarked table.items (map variable (used parts.now))) }
{
    let mut table = filled(alloc, false, parts.max_var as usize + 1)?;
    mention_all(&mut table, parts);
    Ok(table)
}

/// The smallest variable that is defined twice.
pub fn first_twice(table: &[Times]) -> Option<u32>
    requires { length table.now ≤ 2 ^ 32 }
    ensures { (vs : List ℕ) → IsCounted table.now vs → MatchOption result (AllPairs (λ u v. u ≢ v) vs) (IsLeast (IsTwice vs)) }
{
    for (v, times) in table.iter().enumerate() {
        if *times == Times::Again {
            return Some(v as u32);
        }
    }
    None
}

/// The smallest variable but the constant that is used and not defined.
pub fn first_undefined(table: &[Times], used: &[bool]) -> Option<u32>
    requires short { length table.now ≤ 2 ^ 32 }
    requires same_length { length used.now ≡ length table.now }
    ensures { (lits : List Lit) (vs : List ℕ) → IsCounted table.now vs → IsMarked used.now (map variable lits) → MatchOption result ((v : ℕ) → IsUndefined lits vs v → ⊥) (IsLeast (IsUndefined lits vs)) }
{
    for (v, times) in table.iter().enumerate() {
        if v > 0 && used[v] && *times == Times::Never {
            return Some(v as u32);
        }
    }
    None
}
