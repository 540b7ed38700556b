//! Literals to be looked up.

ghost use Rattle.std.specs.Prelude.{◌≡◌, ◌↔◌, IsTrue, ℕ, length, map, Contains, IfOk};
ghost use Rattle.std.specs.List.Sorted.{IsNonDecreasing};
ghost use Rattle.graph.specs.declared.circuit.Lit.{Lit as Literal};

use base::{Refused, push};
use graph::Lit;
use std::alloc::Global;

/// The numbers of the literals.
fn numbers(alloc: Global, lits: &[Lit]) -> Result<Vec<u32>, Refused>
    ensures { IfOk result (λ v. v.items ≡ map (λ a. a.0) lits.now) }
{
    let mut numbers = Vec::new(alloc);
    for lit in lits {
        push(&mut numbers, lit.0)?;
    }
    Ok(numbers)
}

/// Puts numbers in order.
fn sort(numbers: &mut [u32])
    ensures len { length numbers.new ≡ length numbers.old }
    ensures rising { IsNonDecreasing numbers.new }
    ensures same { (n : ℕ) → Contains numbers.new n ↔ Contains numbers.old n }
{
    numbers.sort_unstable();
}

/// The numbers of the literals in order.
pub(crate) fn in_order(alloc: Global, lits: &[Lit]) -> Result<Vec<u32>, Refused>
    ensures rising { IfOk result (λ v. IsNonDecreasing v.items) }
    ensures same { IfOk result (λ v. (a : Literal) → Contains v.items a.0 ↔ Contains lits.now a) }
{
    let mut numbers = numbers(alloc, lits)?;
    sort(numbers.as_mut_slice());
    Ok(numbers)
}

/// Whether the number is one of these, which are in order. It takes logarithmic time.
pub(crate) fn contains(numbers: &[u32], number: u32) -> bool
    requires { IsNonDecreasing numbers.now }
    ensures { IsTrue result ↔ Contains numbers.now number }
{
    numbers.binary_search(&number).is_ok()
}
