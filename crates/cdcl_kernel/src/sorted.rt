//! Sorted lists, in which a number is found in time of the list's logarithm.

ghost use Rattle.std.specs.Prelude.{IsTrue, ◌↔◌, Contains, IfOk};
ghost use Rattle.std.specs.List.Sorted.{IsPermutation, IsSorted};
ghost use Rattle.std.specs.Ordering.{int_cmp};

use base::{Refused, copied};
use std::alloc::Global;

/// Whether the literal is among these, which ascend.
pub fn has_literal(literals: &[i32], literal: i32) -> bool
    requires { IsSorted int_cmp literals.now }
    ensures { IsTrue result ↔ Contains literals.now literal }
{
    literals.binary_search(&literal).is_ok()
}

/// The literals, ascending.
pub fn sorted_literals(alloc: Global, literals: &[i32]) -> Result<Vec<i32>, Refused>
    ensures same { IfOk result (λ s. IsPermutation literals.now s.items) }
    ensures sorted { IfOk result (λ s. IsSorted int_cmp s.items) }
{
    let mut sorted = copied(alloc, literals)?;
    sorted.sort_unstable();
    Ok(sorted)
}
