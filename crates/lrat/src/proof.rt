//! Proofs.

ghost use Rattle.base.specs.Witness.{witness};
ghost use Rattle.std.specs.Prelude.{◌≡◌, ◌++◌, ◌∷◌, [], All, OnOk, OnErr, IfErr, IsTrue, ◌↔◌, ◌⊎◌};
ghost use Rattle.lrat.specs.Limits.{IsHint, IsId, IsLine};
ghost use Rattle.lrat.specs.Literals.{IsLiteral};
ghost use Rattle.lrat.specs.declared.lrat_error.LratError.TheVariants.{Number, OutOfMemory};

use crate::line::Line;
use crate::lrat_error::LratError;
use base::{Refused, Seq};
use std::alloc::Global;
use std::marker::Model;

/// The greatest variable that a line may have: `-2^31` would be the negation of no `i32`.
const GREATEST_VARIABLE: u32 = 2_147_483_647;

/// A proof: lines without zeros and in the limits, in order.
#[derive(Drop)]
pub struct Proof {
    lines: Seq<Line>,
}

impl Model for Proof {
    ghost use Rattle.std.specs.Prelude.{List, All};
    ghost use Rattle.lrat.specs.declared.line.Line.{Line};
    ghost use Rattle.lrat.specs.Limits.{IsLine};

    ghost Value = { List Line };

    ghost view = { λ p. p.lines };

    ghost invariant = { λ p. All IsLine p.lines };
}

impl Proof {
    /// No lines, which take no memory.
    pub fn new(alloc: Global) -> Proof
        ensures { result ≡ [] }
    {
        Proof {
            lines: Seq::new(alloc),
        }
    }

    /// Adds a line without zeros and in the limits at the end.
    pub fn push_line(&mut self, line: Line) -> Result<(), Refused>
        requires { IsLine line }
        ensures ok { OnOk result (self.new ≡ self.old ++ line ∷ []) }
        ensures err { OnErr result (self.new ≡ self.old) }
    {
        self.lines.push(line)
    }

    /// Adds a line at the end. It is refused exactly where a number of it is 0 or over its limit,
    /// or when out of memory, and then the proof stays.
    pub fn push(&mut self, line: Line) -> Result<(), LratError>
        ensures ok { OnOk result (IsLine line × (self.new ≡ self.old ++ line ∷ [])) }
        ensures err { OnErr result (self.new ≡ self.old) }
        ensures refused { IfErr result (λ e. ((e ≡ Number 0) × (IsLine line → ⊥)) ⊎ ((e ≡ OutOfMemory witness) × IsLine line)) }
    {
        if !is_line(&line) {
            return Err(LratError::Number { place: 0 });
        }
        self.push_line(line)?;
        Ok(())
    }

    /// The lines in order.
    pub fn lines(&self) -> &[Line]
        ensures lines { result.now ≡ self.now }
        ensures are_lines { All IsLine self.now }
    {
        self.lines.as_slice()
    }
}

/// Whether the line has no zeros and is in the limits.
fn is_line(line: &Line) -> bool
    ensures { IsTrue result ↔ IsLine line.now }
{
    match line {
        Line::Add { id, clause, hints } => {
            *id > 0
                && are_literals(clause.as_slice(), GREATEST_VARIABLE)
                && are_hints(hints.as_slice())
        }
        Line::Delete { id, ids } => *id > 0 && are_ids(ids.as_slice()),
    }
}

/// Whether each number is a literal of one of the variables 1 to `vars`.
pub fn are_literals(literals: &[i32], vars: u32) -> bool
    ensures { IsTrue result ↔ All (IsLiteral vars) literals.now }
{
    for literal in literals {
        if *literal == 0 || literal.unsigned_abs() > vars {
            return false;
        }
    }
    true
}

/// Whether each number is an id or its negation.
fn are_hints(hints: &[i64]) -> bool
    ensures { IsTrue result ↔ All IsHint hints.now }
{
    for hint in hints {
        if *hint == 0 || hint.unsigned_abs() > 4_294_967_295 {
            return false;
        }
    }
    true
}

/// Whether each number is an id.
fn are_ids(ids: &[u32]) -> bool
    ensures { IsTrue result ↔ All IsId ids.now }
{
    for id in ids {
        if *id == 0 {
            return false;
        }
    }
    true
}
