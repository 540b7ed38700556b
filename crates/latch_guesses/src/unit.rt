//! The literal of clauses for a literal of the circuit.

ghost use Rattle.std.specs.Prelude.{◌<◌, ◌≤◌};
ghost use Rattle.lrat.specs.Literals.{IsLiteral};

use graph::Lit;

/// The literal of clauses for a literal of the circuit, where the variable `truth` is true. What is out of range is taken as a
/// constant.
pub(crate) fn unit(truth: u32, lit: Lit) -> i32
    ensures { 0 < truth → truth ≤ 2147483647 → IsLiteral truth result }
{
    let (variable, truth) = (lit.variable(), truth.min(2_147_483_647));
    let is_signal = 0 < variable && variable < truth;
    let positive = if is_signal { variable } else { truth } as i32;
    if lit.is_negated() == is_signal {
        positive.wrapping_neg()
    } else {
        positive
    }
}
