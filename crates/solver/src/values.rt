//! What is true under values of variables, each at its variable's index.

ghost use Rattle.std.specs.Prelude.{◌≡◌, false, IsTrue, ◌↔◌, All, slice_index_or};
ghost use Rattle.solver.specs.Values.{true_by, AreTrueBy, IsAndBy};

use crate::part::AndGate;

/// The value at an index: past the end it is false.
#[inline]
fn value_at(values: &[bool], index: usize) -> bool
    ensures { result ≡ slice_index_or values.now index false }
{
    match values.get(index) {
        Some(value) => *value,
        None => false,
    }
}

/// Whether the literal is true.
#[inline]
pub fn is_true(values: &[bool], literal: i32) -> bool
    ensures { result ≡ true_by values.now literal }
{
    let value = value_at(values, literal.unsigned_abs() as usize);
    if literal > 0 {
        return value;
    }
    literal < 0 && !value
}

/// Whether all of the literals are true.
pub fn are_true(values: &[bool], literals: &[i32]) -> bool
    ensures { IsTrue result ↔ AreTrueBy values.now literals.now }
{
    for literal in literals {
        if !is_true(values, *literal) {
            return false;
        }
    }
    true
}

/// Whether the gate's literal is true exactly where both right sides are.
fn fits_gate(values: &[bool], gate: AndGate) -> bool
    ensures { IsTrue result ↔ IsAndBy values.now gate }
{
    let both = is_true(values, gate.rhs0) && is_true(values, gate.rhs1);
    is_true(values, gate.lhs) == both
}

/// Whether the literal of each gate is true exactly where both its right sides are.
pub fn fits_gates(values: &[bool], gates: &[AndGate]) -> bool
    ensures { IsTrue result ↔ All (IsAndBy values.now) gates.now }
{
    for gate in gates {
        if !fits_gate(values, *gate) {
            return false;
        }
    }
    true
}
