//! What is answered of assumptions, from lists alone.

ghost use Rattle.std.specs.Prelude.{◌≡◌, ◌<◌, ◌^◌, map, MatchOption, neg_ℤ, All, Contains, IfOk, unsigned_abs};
ghost use Rattle.cdcl_kernel.specs.Verdicts.{IsOpposed};

use crate::literals::negated;
use crate::sorted::{has_literal, sorted_literals};
use base::{Refused, push};
use std::alloc::Global;

/// The denials of the clause's literals, where all of them are assumed.
pub fn assumed_part(
    alloc: Global,
    clause: &[i32],
    assume: &[i32],
) -> Result<Option<Vec<i32>>, Refused>
    requires { All (λ l. unsigned_abs l < 2 ^ 31) clause.now }
    ensures denials { IfOk result (λ r. MatchOption r (All (Contains assume.now) (map neg_ℤ clause.now) → ⊥) (λ part. part.items ≡ map neg_ℤ clause.now)) }
    ensures assumed { IfOk result (λ r. MatchOption r (Unit {0}) (λ part. All (Contains assume.now) part.items)) }
{
    let sorted = sorted_literals(alloc, assume)?;
    let mut part = Vec::new(alloc);
    for literal in clause {
        let denial = negated(*literal);
        if !has_literal(sorted.as_slice(), denial) {
            return Ok(None);
        }
        push(&mut part, denial)?;
    }
    Ok(Some(part))
}

/// The first assumption whose negation is assumed too, with that.
pub fn opposed_pair(alloc: Global, assume: &[i32]) -> Result<Option<i32>, Refused>
    requires { All (λ l. unsigned_abs l < 2 ^ 31) assume.now }
    ensures { IfOk result (λ r. MatchOption r (All (λ l. IsOpposed assume.now l → ⊥) assume.now) (IsOpposed assume.now)) }
{
    let sorted = sorted_literals(alloc, assume)?;
    for literal in assume {
        if has_literal(sorted.as_slice(), negated(*literal)) {
            return Ok(Some(*literal));
        }
    }
    Ok(None)
}
