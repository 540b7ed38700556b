//! The tests that parts have to pass, in their order.

ghost use Rattle.std.specs.Prelude.{◌≡◌, ◌≤◌, ◌^◌, ◌-◌, IfOk, IfErr, MatchOption, All, length, sum_by, min};
ghost use Rattle.std.specs.List.{range_with_len};
ghost use Rattle.graph.specs.WellFormed.{IsInLimits, IsModel};
ghost use Rattle.graph.specs.Faults.{counts_of, IsFirstOver, HasCause};

use crate::bounds::MOST_VARIABLES;
use crate::circuit::Lit;
use crate::definitions::{definitions_of, first_twice, first_undefined, mentions_of};
use crate::error::ReadError;
use crate::literals::check_literals;
use crate::numbering::is_ordered;
use crate::ordering::find_order;
use crate::parts::Parts;
use base::{Refused, Seq, push};
use std::alloc::Global;

/// The greatest variable, and the greatest count of anything.
const LIMIT: u64 = MOST_VARIABLES as u64;

/// How many literals the justice properties have in all.
fn justice_sum(justice: &[Seq<Lit>]) -> u64
    ensures { result ≡ min (2 ^ 64 - 1) (sum_by length justice.now) }
{
    let mut sum: u64 = 0;
    for lits in justice {
        sum = sum.saturating_add(lits.len() as u64);
    }
    sum
}

/// The position of the first number that is over the limit.
fn first_above(counts: &[u64]) -> Option<usize>
    ensures { MatchOption result (All (λ n. n ≤ 4194303) counts.now) (IsFirstOver counts.now) }
{
    for (position, count) in counts.iter().enumerate() {
        if *count > LIMIT {
            return Some(position);
        }
    }
    None
}

/// The position of the first count that is over the limit.
fn first_over(parts: &Parts) -> Option<usize>
    ensures { MatchOption result (IsInLimits parts.now) (IsFirstOver (counts_of parts.now)) }
{
    let counts = [
        u64::from(parts.max_var),
        parts.inputs.len() as u64,
        parts.latches.len() as u64,
        parts.outputs.len() as u64,
        parts.gates.len() as u64,
        parts.bad.len() as u64,
        parts.constraints.len() as u64,
        parts.justice.len() as u64,
        parts.fairness.len() as u64,
    ];
    if let Some(position) = first_above(&counts) {
        return Some(position);
    }
    if justice_sum(parts.justice.as_slice()) > LIMIT {
        return Some(counts.len());
    }
    None
}

/// The places of this number of gates, in the order in which they stand.
fn places(alloc: Global, count: usize) -> Result<Vec<u32>, Refused>
    requires { count ≤ 4194303 }
    ensures { IfOk result (λ order. order.items ≡ range_with_len 0 count) }
{
    let mut order = Vec::new(alloc);
    for place in 0..count {
        push(&mut order, place as u32)?;
    }
    Ok(order)
}

/// The order in which the gates of well-formed parts can be evaluated, or the first thing that is
/// wrong with the parts. Gates that are ordered already stay so, which takes no tables.
pub fn check(alloc: Global, parts: &Parts) -> Result<Vec<u32>, ReadError>
    ensures found { IfOk result (λ order. IsModel parts.now order.items) }
    ensures refused { IfErr result (HasCause parts.now) }
{
    if let Some(position) = first_over(parts) {
        return Err(ReadError::Limit(position as u64));
    }
    check_literals(parts)?;
    if is_ordered(parts) {
        return Ok(places(alloc, parts.gates.len())?);
    }
    let definitions = definitions_of(alloc, parts)?;
    if let Some(variable) = first_twice(&definitions) {
        return Err(ReadError::DefinedTwice(variable));
    }
    let mentions = mentions_of(alloc, parts)?;
    if let Some(variable) = first_undefined(&definitions, &mentions) {
        return Err(ReadError::Undefined(variable));
    }
    match find_order(alloc, parts.gates.as_slice(), parts.max_var)? {
        Ok(order) => Ok(order),
        Err(variable) => Err(ReadError::Cyclic(variable)),
    }
}
