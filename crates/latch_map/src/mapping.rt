//! The map.

ghost use Rattle.std.specs.Prelude.{◌≡◌, ◌≤◌, All, IfOk, IfSome, map};
ghost use Rattle.graph.specs.declared.circuit.Lit.{Lit as ALit};
ghost use Rattle.checker2.specs.Accepted.{IsAcceptedFor};
ghost use Rattle.graph.specs.Circuits.{Valuation, value_of};
ghost use Rattle.latch_map.specs.Equal.{AreValues, IsLine, IsLineIn};

use crate::noting::table_of;
use crate::table::{first_latches, partner};
use base::{Refused, Seq};
use certificate::Certificate;
use graph::{Latch, Lit, Model};
use std::alloc::Global;

/// A latch, and what it is equal to: a latch of the other circuit, its negation or a constant. None where nothing is known.
#[derive(Clone, Copy)]
pub struct Line {
    /// the latch
    pub latch: Lit,
    /// what it is equal to
    pub same: Option<Lit>,
}

/// What a latch is equal to: one of the first circuit to one of the second, and one of this to one of the first.
fn same_as(
    table: &[Option<Lit>],
    ones: &[Option<Lit>],
    others: &[Option<Lit>],
    is_first: bool,
    latch: Lit,
) -> Option<Lit>
    ensures { (w : Valuation) → AreValues w table.now → AreValues w ones.now → AreValues w others.now → IfSome result (λ b. value_of w latch ≡ value_of w b) }
{
    if is_first {
        partner(table, others, latch)
    } else {
        partner(table, ones, latch)
    }
}

/// The line of a latch.
fn line_of(
    table: &[Option<Lit>],
    ones: &[Option<Lit>],
    others: &[Option<Lit>],
    is_first: bool,
    latch: Lit,
) -> Line
    ensures latch { result.latch ≡ latch }
    ensures line { (w : Valuation) → AreValues w table.now → AreValues w ones.now → AreValues w others.now → IsLineIn w result }
{
    Line {
        latch,
        same: same_as(table, ones, others, is_first, latch),
    }
}

/// The line of each latch, of which those before the position are the first circuit's.
#[tactic(auto, using(crate::proofs::Lines::lines_more, crate::proofs::Lines::latches_more))]
fn lines_of(
    alloc: Global,
    table: &[Option<Lit>],
    ones: &[Option<Lit>],
    others: &[Option<Lit>],
    latches: &[Latch],
    position: usize,
) -> Result<Seq<Line>, Refused>
    ensures latches { IfOk result (λ ls. map (λ l. l.latch) ls ≡ map (λ l. l.lit) latches.now) }
    ensures lines { IfOk result (λ ls. (w : Valuation) → AreValues w table.now → AreValues w ones.now → AreValues w others.now → All (IsLineIn w) ls) }
{
    let mut lines = Seq::new(alloc);
    for latch in latches {
        let is_first = lines.len() < position;
        lines.push(line_of(table, ones, others, is_first, latch.lit))?;
    }
    Ok(lines)
}

/// The lines by what the table says, of so many variables.
#[tactic(auto, using(crate::proofs::Lines::lines_by))]
fn mapped(
    alloc: Global,
    table: &[Option<Lit>],
    latches: &[Latch],
    position: usize,
    count: usize,
) -> Result<Seq<Line>, Refused>
    requires { count ≤ 4194304 }
    ensures latches { IfOk result (λ ls. map (λ l. l.latch) ls ≡ map (λ l. l.lit) latches.now) }
    ensures lines { IfOk result (λ ls. (w : Valuation) → AreValues w table.now → All (IsLineIn w) ls) }
{
    let position = position.min(latches.len());
    let ones = first_latches(alloc, table, &latches[..position], count)?;
    let others = first_latches(alloc, table, &latches[position..], count)?;
    lines_of(
        alloc,
        table,
        ones.as_slice(),
        others.as_slice(),
        latches,
        position,
    )
}

/// What the certificate's clauses say that each latch is equal to: each one before the position to one from there on, and
/// each of these to one before it, or to a constant. There is a line for each latch, in their order.
pub fn latch_map(
    alloc: Global,
    circuit: &Model,
    certificate: &Certificate,
    position: usize,
) -> Result<Seq<Line>, Refused>
    ensures latches { IfOk result (λ ls. map (λ l. l.latch) ls ≡ map (λ l. l.lit) circuit.now.latches) }
    ensures lines { IfOk result (λ ls. (a : ALit) → IsAcceptedFor circuit.now a certificate.now → All (IsLine circuit.now) ls) }
{
    circuit.well_formed();
    let count = circuit.max_var() as usize + 1;
    let table = table_of(alloc, certificate.invariant.as_slice(), count)?;
    let found = mapped(alloc, table.as_slice(), circuit.latches(), position, count)?;
    Ok(found)
}
