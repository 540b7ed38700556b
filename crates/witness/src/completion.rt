//! Values in place of those that don't matter.

ghost use Rattle.std.specs.Prelude.{◌≡◌, [], map, slice_get, IfOk};
ghost use Rattle.witness.specs.Completions.{Completes, CompleteFirst, completion, reset_at, value_or};

use base::{Refused, Seq};
use graph::Latch;
use std::alloc::Global;

/// The value that a latch is reset to, or that other one.
fn reset_or(latch: Option<Latch>, other: bool) -> bool
    ensures { result ≡ reset_at other latch }
{
    match latch {
        Some(latch) if latch.reset.0 == 0 => false,
        Some(latch) if latch.reset.0 == 1 => true,
        _ => other,
    }
}

/// The latch at a position, if there is one.
fn latch_at(latches: &[Latch], position: usize) -> Option<Latch>
    ensures { result ≡ slice_get latches.now position }
{
    latches.get(position).copied()
}

/// The value that is given, or that other one.
fn given_or(given: Option<bool>, other: bool) -> bool
    ensures { result ≡ value_or other given }
{
    match given {
        Some(value) => value,
        None => other,
    }
}

/// The row with a value in place of each that doesn't matter: a latch's reset, where there is one, and else that other one.
pub fn completed(
    alloc: Global,
    row: &[Option<bool>],
    latches: &[Latch],
    other: bool,
) -> Result<Seq<bool>, Refused>
    ensures is { IfOk result (λ values. values ≡ completion latches.now other row.now) }
    ensures completes { IfOk result (Completes row.now) }
{
    let mut values = Seq::new(alloc);
    for (position, given) in row.iter().enumerate() {
        let reset = reset_or(latch_at(latches, position), other);
        values.push(given_or(*given, reset))?;
    }
    Ok(values)
}

/// The rows with that value in place of each that doesn't matter.
pub fn completed_rows(
    alloc: Global,
    rows: &[Seq<Option<bool>>],
    other: bool,
) -> Result<Seq<Seq<bool>>, Refused>
    ensures is { IfOk result (λ lines. lines ≡ map (completion [] other) rows.now) }
    ensures complete { IfOk result (CompleteFirst rows.now) }
{
    let mut lines = Seq::new(alloc);
    for row in rows {
        lines.push(completed(alloc, row.as_slice(), &[], other)?)?;
    }
    Ok(lines)
}
