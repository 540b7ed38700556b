//! The rows of a PLA.

ghost use Rattle.std.specs.Prelude.{◌≡◌, ◌++◌, OnOk};
ghost use Rattle.scan.specs.Lists.{many_at};
ghost use Rattle.scan.specs.Reading.{Gives};
ghost use Rattle.invariant.specs.Plas.{literal_against, literals_against};
ghost use Rattle.invariant.specs.PlaReading.{begins_dot, row_at, value_at};

use crate::invariant_fault::{IN_LINE, InvariantFault};
use base::{Refused, Seq, push};
use graph::{Latch, Lit};
use scan::{Fault, tag};
use std::alloc::Global;

/// What a row says of a column: 0, 1, or nothing.
fn value(text: &[u8]) -> Result<(Option<bool>, &[u8]), Fault<InvariantFault>>
    ensures { Gives (λ x. (x.0, x.1.now)) result (value_at text.now) }
{
    match text {
        [] => Err(Fault::Text {
            kind: InvariantFault::Truncated,
            left: 0,
        }),
        [b'-', rest @ ..] => Ok((None, rest)),
        [b'0', rest @ ..] => Ok((Some(false), rest)),
        [b'1', rest @ ..] => Ok((Some(true), rest)),
        _ => Err(Fault::Text {
            kind: InvariantFault::Byte,
            left: text.len(),
        }),
    }
}

/// The literal that is false where the latch has the column's value. ABC turns a latch round that is reset to 1.
fn literal_against(latch: Latch, value: bool) -> Lit
    ensures { result ≡ literal_against latch value }
{
    let value = if latch.reset.0 == 1 { !value } else { value };
    let variable = latch.lit.variable();
    Lit(2 * variable + u32::from(value))
}

/// Adds the literal of a latch of which the row says something.
fn push_against(literals: &mut Vec<Lit>, latch: Latch, value: Option<bool>) -> Result<(), Refused>
    ensures { OnOk result (literals.new.items ≡ literals.old.items ++ literals_against latch value) }
{
    match value {
        None => Ok(()),
        Some(value) => push(literals, literal_against(latch, value)),
    }
}

/// The clause of a row, and what follows its line end.
fn row<'a>(
    alloc: Global,
    columns: &[Latch],
    text: &'a [u8],
) -> Result<(Vec<Lit>, &'a [u8]), Fault<InvariantFault>>
    ensures { Gives (λ x. (x.0.items, x.1.now)) result (row_at columns.now text.now) }
{
    let mut literals = Vec::new(alloc);
    let mut rest = text;
    for latch in columns {
        let (value, after) = value(rest)?;
        push_against(&mut literals, *latch, value)?;
        rest = after;
    }
    let rest = tag(rest, b" 1\n", IN_LINE)?;
    Ok((literals, rest))
}

/// Whether the next line is none of a cube.
fn begins_dot(text: &[u8]) -> bool
    ensures { result ≡ begins_dot text.now }
{
    match text {
        [] => false,
        [c, ..] => *c == b'.',
    }
}

/// The clause of a row, of which there has to be one more.
fn clause<'a>(
    alloc: Global,
    columns: &[Latch],
    text: &'a [u8],
) -> Result<(Seq<Lit>, &'a [u8]), Fault<InvariantFault>>
    ensures { Gives (λ x. (x.0, x.1.now)) result (row_at columns.now text.now) }
{
    if begins_dot(text) {
        return Err(Fault::Text {
            kind: InvariantFault::Truncated,
            left: text.len(),
        });
    }
    let (literals, rest) = row(alloc, columns, text)?;
    Ok((Seq::from_vec(literals), rest))
}

/// The clauses of as many rows as `count` says, and what follows them. The list grows row by row.
pub fn rows<'a>(
    alloc: Global,
    columns: &[Latch],
    count: u32,
    text: &'a [u8],
) -> Result<(Seq<Seq<Lit>>, &'a [u8]), Fault<InvariantFault>>
    ensures { Gives (λ x. (x.0, x.1.now)) result (many_at (row_at columns.now) count text.now) }
{
    let mut clauses = Seq::new(alloc);
    let mut rest = text;
    for _ in 0..count {
        let (clause, after) = clause(alloc, columns, rest)?;
        clauses.push(clause)?;
        rest = after;
    }
    Ok((clauses, rest))
}
