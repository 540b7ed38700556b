//! The lines of a log that one line rests on.
//!
//! A walk from the last line to the first takes the line of the greatest id that is wanted, and wants what
//! that one hints. So it costs the lines that it takes and their hints, whatever the length of the log.

ghost use Rattle.std.specs.Prelude.{◌≡◌, ◌==◌, ◌<◌, ◌≤◌, ◌+◌, ◌++◌, ◌∷◌, ◌||◌, [], ℕ, All, IfOk, OnOk, length, reverse, unsigned_abs};
ghost use Rattle.std.specs.List.{list_any};
ghost use Rattle.std.specs.BTreeSet.{contains};
ghost use Rattle.std.specs.Ordering.{nat_cmp};
ghost use Rattle.lrat.specs.Limits.{IsHint, IsLine};
ghost use Rattle.lrat.specs.Trimming.{hints_id, trimmed};
ghost use Rattle.cdcl_log.specs.Logged.{AreNumbered};
ghost use Rattle.cdcl_log.specs.Selected.{IsClosing, wanting};

use crate::lines::proof_of;
use base::{Refused, Seq, insert_key, push};
use lrat::{Clause, Line, Proof};
use std::alloc::Global;
use std::collections::BTreeSet;

/// The lines that the empty clause of `last` rests on through hints, in their order, and `last`
/// behind them. The lines have the ids from `first` on.
pub fn selected(alloc: Global, lines: &[Line], first: u64, last: Line) -> Result<Proof, Refused>
    requires in_limits { All IsLine lines.now }
    requires numbered { AreNumbered first lines.now }
    requires closing { IsClosing (first + length lines.now) last }
    ensures { IfOk result (λ p. p ≡ trimmed (lines.now ++ last ∷ [])) }
{
    let mut kept = walk_back(alloc, lines, first, last)?;
    kept.reverse();
    proof_of(alloc, kept)
}

/// The lines that these hints rest on, in their order. The lines have the ids from `first` on.
pub fn wanted_lines(
    alloc: Global,
    lines: &[Line],
    first: u64,
    hints: Vec<i64>,
) -> Result<Proof, Refused>
    requires in_limits { All IsLine lines.now }
    requires numbered { AreNumbered first lines.now }
    requires hints { All IsHint hints.items }
    requires below { All (λ h. unsigned_abs h < first + length lines.now) hints.items }
    ensures { IfOk result (λ p. p ++ wanting hints.items ∷ [] ≡ trimmed (lines.now ++ wanting hints.items ∷ [])) }
{
    let last = Line::Add {
        id: 1,
        clause: Clause::from_slice(alloc, &[])?,
        hints: Seq::from_vec(hints),
    };
    let mut kept = walk_back(alloc, lines, first, last)?;
    kept.reverse();
    kept.pop();
    proof_of(alloc, kept)
}

/// The lines that are kept, the last one first.
fn walk_back(alloc: Global, lines: &[Line], first: u64, last: Line) -> Result<Vec<Line>, Refused>
    requires in_limits { All IsLine lines.now }
    requires numbered { AreNumbered first lines.now }
    requires closing { IsClosing (first + length lines.now) last }
    ensures kept { IfOk result (λ v. reverse v.items ≡ trimmed (lines.now ++ last ∷ [])) }
    ensures in_limits { IfOk result (λ v. All IsLine (reverse v.items)) }
{
    let mut wanted = BTreeSet::new(alloc);
    want(&mut wanted, first, &last)?;
    let mut kept = Vec::new(alloc);
    push(&mut kept, last)?;
    while let Some(id) = wanted.pop_last() {
        let line = &lines[(id - first) as usize];
        want(&mut wanted, first, line)?;
        push(&mut kept, copy_of(alloc, line)?)?;
    }
    Ok(kept)
}

/// Wants the lines that this one hints.
fn want(wanted: &mut BTreeSet<u64>, first: u64, line: &Line) -> Result<(), Refused>
    ensures added { OnOk result ((q : ℕ) → first ≤ q → contains nat_cmp wanted.new q ≡ (hints_id q line.now || contains nat_cmp wanted.old q)) }
    ensures others { OnOk result ((q : ℕ) → q < first → contains nat_cmp wanted.new q ≡ contains nat_cmp wanted.old q) }
{
    if let Line::Add { hints, .. } = line {
        want_all(wanted, first, hints.as_slice())?;
    }
    Ok(())
}

/// Wants the lines with these ids, where they are lines'.
fn want_all(wanted: &mut BTreeSet<u64>, first: u64, hints: &[i64]) -> Result<(), Refused>
    ensures added { OnOk result ((q : ℕ) → first ≤ q → contains nat_cmp wanted.new q ≡ (list_any (λ h. unsigned_abs h == q) hints.now || contains nat_cmp wanted.old q)) }
    ensures others { OnOk result ((q : ℕ) → q < first → contains nat_cmp wanted.new q ≡ contains nat_cmp wanted.old q) }
{
    for hint in hints {
        let id = hint.unsigned_abs();
        if id >= first {
            insert_key(wanted, id)?;
        }
    }
    Ok(())
}

/// The line, in memory of its own.
fn copy_of(alloc: Global, line: &Line) -> Result<Line, Refused>
    ensures { IfOk result (λ l. l ≡ line.now) }
{
    match line {
        Line::Add { id, clause, hints } => Ok(Line::Add {
            id: *id,
            clause: Clause::from_slice(alloc, clause.as_slice())?,
            hints: Seq::from_slice(alloc, hints.as_slice())?,
        }),
        Line::Delete { id, ids } => Ok(Line::Delete {
            id: *id,
            ids: Seq::from_slice(alloc, ids.as_slice())?,
        }),
    }
}
