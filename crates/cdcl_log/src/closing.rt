//! The line that ends a proof, by units that are denied.

ghost use Rattle.std.specs.Prelude.{◌≡◌, ◌≤◌, ◌<◌, ◌++◌, ◌∷◌, [], ℕ, ℤ, pos, List, None, All, Contains, IfOk, IfSome, get_or, length, map, neg_ℤ, unsigned_abs};
ghost use Rattle.cdcl_kernel.specs.Verdicts.{IsOpposed};
ghost use Rattle.lrat.specs.Literals.{IsLiteral};
ghost use Rattle.lrat.specs.declared.line.Line.TheVariants.{Add};
ghost use Rattle.cdcl_log.specs.Closings.{IsClosingOf};
ghost use Rattle.cdcl_log.specs.Refuting.{Refuting};
ghost use Rattle.cdcl_log.specs.Units.{AreDenials, AreDeniedAt, IsUnitId, unit_id};

use crate::numbering::Numbering;
use crate::shown::Closing;
use base::{Refused, Seq, extend, push};
use lrat::{Clause, Line};
use std::alloc::Global;

/// The empty clause, by the units that deny the literals of a clause and then by what shows that.
pub fn closing_line(
    alloc: Global,
    numbering: Numbering,
    units: &[i32],
    id: u32,
    clause: &[i32],
    hints: &[i64],
) -> Result<Line, Refused>
    requires denied { All (Contains units.now) (map neg_ℤ clause.now) }
    requires in_range { All (IsLiteral 2147483647) clause.now }
    requires few { length units.now ≤ numbering.room }
    ensures { IfOk result (λ l. (ids : List ℤ) × (l ≡ Add id [] (ids ++ hints.now)) × AreDenials numbering.base units.now clause.now ids) }
{
    let indices = denied_indices(alloc, units, clause)?;
    let mut all = unit_ids(alloc, numbering, indices.as_slice())?;
    extend(&mut all, hints)?;
    Ok(Line::Add {
        id,
        clause: Clause::from_slice(alloc, &[])?,
        hints: Seq::from_vec(all),
    })
}

/// The ids of the units at these indices.
pub fn unit_ids(alloc: Global, numbering: Numbering, indices: &[u64]) -> Result<Vec<i64>, Refused>
    requires { All (λ p. p < numbering.room) indices.now }
    ensures { IfOk result (λ ids. ids.items ≡ map (unit_id numbering.base) indices.now) }
{
    let mut ids = Vec::new(alloc);
    for index in indices {
        push(&mut ids, numbering.unit_id(*index as usize))?;
    }
    Ok(ids)
}

/// The indices of the units that deny the literals of the clause. A core comes in falling order of the
/// assumptions, so that each unit is looked for to the left of the last one.
pub fn denied_indices(alloc: Global, units: &[i32], clause: &[i32]) -> Result<Vec<u64>, Refused>
    requires denied { All (Contains units.now) (map neg_ℤ clause.now) }
    requires in_range { All (IsLiteral 2147483647) clause.now }
    ensures { IfOk result (λ indices. AreDeniedAt units.now clause.now indices.items) }
{
    let mut indices = Vec::new(alloc);
    let mut index = units.len();
    for literal in clause {
        index = index_of(units, negated(*literal), index);
        push(&mut indices, index as u64)?;
    }
    Ok(indices)
}

/// The last index of the literal before `end`, or else its last index.
fn index_of(units: &[i32], literal: i32, end: usize) -> usize
    requires there { Contains units.now literal }
    requires end { end ≤ length units.now }
    ensures inside { result < length units.now }
    ensures there { get_or units.now result (pos 0) ≡ literal }
{
    if let Some(index) = index_before(units, literal, end) {
        return index;
    }
    match index_before(units, literal, units.len()) {
        Some(index) => index,
        None => unreachable!(),
    }
}

/// The last index of the literal before `end`.
fn index_before(units: &[i32], literal: i32, end: usize) -> Option<usize>
    requires { end ≤ length units.now }
    ensures found { IfSome result (λ k. (k < length units.now) × (get_or units.now k (pos 0) ≡ literal)) }
    ensures none { result ≡ None → (k : ℕ) → k < end → get_or units.now k (pos 0) ≡ literal → ⊥ }
{
    for index in (0..end).rev() {
        if units[index] == literal {
            return Some(index);
        }
    }
    None
}

/// The empty clause, by two units that are opposed.
pub fn opposed_line(
    alloc: Global,
    numbering: Numbering,
    units: &[i32],
    id: u32,
    literal: i32,
) -> Result<Line, Refused>
    requires opposed { IsOpposed units.now literal }
    requires in_range { unsigned_abs literal ≤ 2147483647 }
    requires few { length units.now ≤ numbering.room }
    ensures { IfOk result (λ l. (one : ℤ) × (other : ℤ) × (l ≡ Add id [] (one ∷ other ∷ [])) × IsUnitId numbering.base units.now literal one × IsUnitId numbering.base units.now (neg_ℤ literal) other) }
{
    let one = index_of(units, literal, units.len());
    let other = index_of(units, negated(literal), units.len());
    let mut hints = Vec::new(alloc);
    push(&mut hints, numbering.unit_id(one))?;
    push(&mut hints, numbering.unit_id(other))?;
    Ok(Line::Add {
        id,
        clause: Clause::from_slice(alloc, &[])?,
        hints: Seq::from_vec(hints),
    })
}

/// What two units that are opposed show. It rests on no line.
pub fn opposed_closing(alloc: Global, units: &[i32], literal: i32) -> Result<Closing, Refused>
    requires opposed { IsOpposed units.now literal }
    requires in_range { unsigned_abs literal ≤ 2147483647 }
    ensures { IfOk result (λ k. (r : Refuting) → IsClosingOf r units.now k) }
{
    let one = index_of(units, literal, units.len());
    let other = index_of(units, negated(literal), units.len());
    let mut denied = Vec::new(alloc);
    push(&mut denied, one as u64)?;
    push(&mut denied, other as u64)?;
    Ok(Closing {
        denied: Seq::from_vec(denied),
        hints: Seq::new(alloc),
    })
}

/// The other literal of a variable.
fn negated(literal: i32) -> i32
    requires { unsigned_abs literal ≤ 2147483647 }
    ensures { result ≡ neg_ℤ literal }
{
    -literal
}
