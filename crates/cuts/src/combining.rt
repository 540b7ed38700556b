//! A gate's cut, of cuts of its right sides.

ghost use Rattle.std.specs.Prelude.{IfSome};
ghost use Rattle.graph.specs.Circuits.{variable};
ghost use Rattle.cuts.specs.Joining.{Adds, IsUnion, IsJoined, trivial};

use crate::cut::{Cut, Leaves};
use graph::Gate;
use truth_tables::conjunction;

/// The variables with one more, unless there are four others.
fn with(leaves: Leaves, variable: u32) -> Option<Leaves>
    ensures { IfSome result (Adds leaves variable) }
{
    let (first, second, third, fourth) = leaves;
    if variable == 0
        || variable == first
        || variable == second
        || variable == third
        || variable == fourth
    {
        Some(leaves)
    } else if first == 0 {
        Some((variable, second, third, fourth))
    } else if second == 0 {
        Some((first, variable, third, fourth))
    } else if third == 0 {
        Some((first, second, variable, fourth))
    } else if fourth == 0 {
        Some((first, second, third, variable))
    } else {
        None
    }
}

/// The variables of both, unless there are more than four.
fn united(one: Leaves, other: Leaves) -> Option<Leaves>
    ensures { IfSome result (IsUnion one other) }
{
    let (first, second, third, fourth) = other;
    let leaves = with(one, first)?;
    let leaves = with(leaves, second)?;
    let leaves = with(leaves, third)?;
    with(leaves, fourth)
}

/// The gate's cut with these leaves, among which the leaves of its right sides' cuts are.
fn conjoined(gate: Gate, one: Cut, other: Cut, leaves: Leaves) -> Cut
    requires { IsUnion one.leaves other.leaves leaves }
    ensures { IsJoined gate one other result }
{
    let table = conjunction(
        one.side_over(leaves, gate.rhs0),
        other.side_over(leaves, gate.rhs1),
    );
    Cut { table, leaves }
}

/// The gate's cut, of cuts of its right sides, unless it has more than four leaves.
pub(crate) fn joined(gate: Gate, one: Cut, other: Cut) -> Option<Cut>
    ensures { IfSome result (IsJoined gate one other) }
{
    let leaves = united(one.leaves, other.leaves)?;
    Some(conjoined(gate, one, other, leaves))
}

/// The gate's cut that has its right sides as leaves.
pub(crate) fn plain(gate: Gate) -> Cut
    ensures { IsJoined gate (trivial (variable gate.rhs0)) (trivial (variable gate.rhs1)) result }
{
    let first = gate.rhs0.variable();
    let second = gate.rhs1.variable();
    let leaves = (first, if second == first { 0 } else { second }, 0, 0);
    conjoined(gate, Cut::itself(first), Cut::itself(second), leaves)
}
