//! Some of a clause's literals, in their order.

ghost use Rattle.std.specs.Prelude.{◌≡◌, ◌==◌, ◌↔◌, IsTrue, ℕ, not, filter, length, Contains, IfOk};
ghost use Rattle.std.specs.List.Sorted.{IsNonDecreasing};
ghost use Rattle.states.specs.declared.state_lit.StateLit.{StateLit as Literal};
ghost use Rattle.states.specs.States.{IsPartOf};
ghost use Rattle.ic3_blocking.specs.Answers.{IsPicked};

use base::{Refused, Seq, push};
use states::StateLit;
use std::alloc::Global;

/// The latches of the literals, and of one more.
fn latches_of(alloc: Global, part: &[StateLit], more: StateLit) -> Result<Vec<u32>, Refused>
    ensures part { IfOk result (λ v. (a : Literal) → Contains part.now a → Contains v.items a.latch) }
    ensures more { IfOk result (λ v. Contains v.items more.latch) }
{
    let mut latches = Vec::new(alloc);
    'listing: for lit in part {
        push(&mut latches, lit.latch)?;
    }
    push(&mut latches, more.latch)?;
    Ok(latches)
}

/// Puts numbers in order.
fn sort(numbers: &mut [u32])
    ensures len { length numbers.new ≡ length numbers.old }
    ensures rising { IsNonDecreasing numbers.new }
    ensures same { (n : ℕ) → Contains numbers.new n ↔ Contains numbers.old n }
{
    numbers.sort_unstable();
}

/// The latches in order.
fn in_order(alloc: Global, part: &[StateLit], more: StateLit) -> Result<Vec<u32>, Refused>
    ensures rising { IfOk result (λ v. IsNonDecreasing v.items) }
    ensures part { IfOk result (λ v. (a : Literal) → Contains part.now a → Contains v.items a.latch) }
    ensures more { IfOk result (λ v. Contains v.items more.latch) }
{
    let mut latches = latches_of(alloc, part, more)?;
    sort(latches.as_mut_slice());
    Ok(latches)
}

/// Whether the number is one of these, which are in order. It takes logarithmic time.
fn contains(numbers: &[u32], number: u32) -> bool
    requires { IsNonDecreasing numbers.now }
    ensures { IsTrue result ↔ Contains numbers.now number }
{
    numbers.binary_search(&number).is_ok()
}

/// The literals of the clause whose latches are among these, which are in order.
fn among(alloc: Global, clause: &[StateLit], latches: &[u32]) -> Result<Seq<StateLit>, Refused>
    requires { IsNonDecreasing latches.now }
    ensures picked { IfOk result (λ c. IsPicked c clause.now) }
    ensures each { IfOk result (λ c. (a : Literal) → Contains clause.now a → Contains latches.now a.latch → Contains c a) }
{
    let mut kept = Seq::new(alloc);
    'choosing: for lit in clause {
        if contains(latches, lit.latch) {
            kept.push(*lit)?;
        }
    }
    Ok(kept)
}

/// A part of the clause with one literal more, in the clause's order. It takes the time to sort the
/// part, and a look into it for each literal of the clause.
pub(crate) fn with_part(
    alloc: Global,
    clause: &[StateLit],
    part: &[StateLit],
    more: StateLit,
) -> Result<Seq<StateLit>, Refused>
    requires part { IsPartOf part.now clause.now }
    requires more { Contains clause.now more }
    ensures picked { IfOk result (λ c. IsPicked c clause.now) }
    ensures part { IfOk result (λ c. IsPartOf part.now c) }
    ensures more { IfOk result (λ c. Contains c more) }
{
    let latches = in_order(alloc, part, more)?;
    among(alloc, clause, latches.as_slice())
}

/// The clause without the literal of a latch.
pub(crate) fn without(
    alloc: Global,
    clause: &[StateLit],
    latch: u32,
) -> Result<Seq<StateLit>, Refused>
    ensures { IfOk result (λ c. c ≡ filter (λ a. not (a.latch == latch)) clause.now) }
{
    let mut kept = Seq::new(alloc);
    'choosing: for lit in clause {
        if lit.latch != latch {
            kept.push(*lit)?;
        }
    }
    Ok(kept)
}
