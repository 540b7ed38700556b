//! What a cut costs.

ghost use Rattle.std.specs.Prelude.{◌≡◌, ◌+◌, ◌<◌, All, IfOk, length};
ghost use Rattle.graph.specs.Circuits.{variable};
ghost use Rattle.cuts.specs.Joining.{IsInside};

use crate::cut::Cut;
use base::{Refused, filled};
use graph::{Gate, Latch, Lit, Model};
use std::alloc::Global;

/// What a variable of its own costs.
const UNIT: u32 = 64;

/// What a leaf costs: a function has some two clauses for each.
const LEAF: u32 = 2 * UNIT;

/// What a leaf adds to the cost of a cut: its clauses, and the share of what the leaf's own cut costs.
fn leaf_cost(flows: &[u32], leaf: u32) -> u32
    requires { leaf < length flows.now }
{
    if leaf == 0 {
        0
    } else {
        LEAF.saturating_add(flows[leaf as usize])
    }
}

/// What a cut costs, its leaves' cuts included (the flow of area).
pub(crate) fn cost(flows: &[u32], cut: Cut) -> u32
    requires { IsInside (length flows.now) cut }
{
    let (first, second, third, fourth) = cut.leaves;
    UNIT.saturating_add(leaf_cost(flows, first))
        .saturating_add(leaf_cost(flows, second))
        .saturating_add(leaf_cost(flows, third))
        .saturating_add(leaf_cost(flows, fourth))
}

/// Counts one more use of the literal's variable.
fn count(uses: &mut [u32], literal: Lit)
    requires { variable literal < length uses.old }
    ensures { length uses.new ≡ length uses.old }
{
    let place = literal.variable() as usize;
    uses[place] = uses[place].saturating_add(1);
}

/// Counts a use of each literal's variable.
fn count_all(uses: &mut [u32], literals: &[Lit])
    requires { All (λ a. variable a < length uses.old) literals.now }
    ensures { length uses.new ≡ length uses.old }
{
    for literal in literals {
        count(uses, *literal);
    }
}

/// Counts the uses by latches.
fn count_nexts(uses: &mut [u32], latches: &[Latch])
    requires { All (λ l. variable l.next < length uses.old) latches.now }
    ensures { length uses.new ≡ length uses.old }
{
    for latch in latches {
        count(uses, latch.next);
    }
}

/// Counts the uses by gates.
fn count_rights(uses: &mut [u32], gates: &[Gate])
    requires first { All (λ g. variable g.rhs0 < length uses.old) gates.now }
    requires second { All (λ g. variable g.rhs1 < length uses.old) gates.now }
    ensures { length uses.new ≡ length uses.old }
{
    for gate in gates {
        count(uses, gate.rhs0);
        count(uses, gate.rhs1);
    }
}

/// Counts the uses by gates, latches, bad literals and constraints.
fn count_uses(uses: &mut [u32], circuit: &Model)
    requires { length uses.old ≡ circuit.now.max_var + 1 }
    ensures { length uses.new ≡ length uses.old }
{
    circuit.well_formed();
    count_rights(uses, circuit.gates());
    count_nexts(uses, circuit.latches());
    count_all(uses, circuit.bad());
    count_all(uses, circuit.constraints());
}

/// How often each variable is used by gates, latches, bad literals and constraints.
pub(crate) fn uses_of(alloc: Global, circuit: &Model) -> Result<Vec<u32>, Refused>
    ensures { IfOk result (λ uses. length uses.items ≡ circuit.now.max_var + 1) }
{
    circuit.well_formed();
    let mut uses = filled(alloc, 0, circuit.max_var() as usize + 1)?;
    count_uses(uses.as_mut_slice(), circuit);
    Ok(uses)
}
