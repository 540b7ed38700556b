//! Hints of clauses, in the order in which strict unit propagation takes them.
//!
//! A closing was found with some of a clause's literals denied. With all of them denied a hint may set
//! what is true already, and is left out.

ghost use Rattle.std.specs.Prelude.{◌≡◌, ◌↔◌, All, IsTrue};
ghost use Rattle.lrat.specs.Literals.{IsLiteral};

use crate::numbering::Numbering;
use base::{Refused, push};
use lrat::{Formula, Left, Line, Trail, look_at};
use std::alloc::Global;

/// Clauses by their ids: those of a formula, and behind them those of lines. What it answers is judged by `checker3` before
/// it is an answer.
#[derive(Clone, Copy)]
pub struct Known<'a> {
    /// the formula
    pub formula: &'a Formula,
    /// the lines, whose ids follow those of the formula's clauses
    pub lines: &'a [Line],
    /// the ids that the hints' ids have become
    pub numbering: &'a Numbering,
}

/// What a hint does.
#[derive(Clone, Copy, PartialEq, Eq)]
pub enum Effect {
    /// it sets a literal
    Sets,
    /// all literals of its clause are false
    Conflicts,
    /// it sets nothing
    Nothing,
}

/// Whether all are literals of the trail's variables.
fn are_literals(trail: &Trail, literals: &[i32]) -> bool
    ensures { IsTrue result ↔ All (IsLiteral trail.now.vars) literals.now }
{
    let vars = trail.vars();
    literals
        .iter()
        .all(|literal| *literal != 0 && literal.unsigned_abs() <= vars)
}

/// Goes on by the clause.
pub fn apply(trail: &mut Trail, clause: &[i32]) -> Result<Effect, Refused>
    ensures { trail.new.vars ≡ trail.old.vars }
{
    if !are_literals(trail, clause) {
        return Ok(Effect::Nothing);
    }
    match look_at(trail, clause) {
        Left::False => Ok(Effect::Conflicts),
        Left::One(literal) if !trail.has_value(literal) => {
            trail.set(literal)?;
            Ok(Effect::Sets)
        }
        _ => Ok(Effect::Nothing),
    }
}

impl<'a> Known<'a> {
    /// The clause with this id.
    fn clause(self, id: u32) -> Option<&'a [i32]> {
        let clauses = self.formula.clauses.as_slice();
        let place = (id as usize).checked_sub(1)?;
        if let Some(clause) = clauses.get(place) {
            return Some(clause.as_slice());
        }
        match self.lines.get(place.checked_sub(clauses.len())?)? {
            Line::Add { clause, .. } => Some(clause.as_slice()),
            Line::Delete { .. } => None,
        }
    }

    /// Those of the hints that do something where the literals are false, up to the first whose clause
    /// is false then.
    pub fn strict(
        self,
        alloc: Global,
        trail: &mut Trail,
        literals: &[i32],
        hints: &[i64],
    ) -> Result<Vec<u32>, Refused>
        ensures { trail.new.vars ≡ trail.old.vars }
    {
        suppose_false(trail, literals)?;
        let mut taken = Vec::new(alloc);
        for hint in hints {
            let id = self.numbering.new_id(hint.unsigned_abs());
            let effect = match self.clause(id) {
                Some(clause) => apply(trail, clause)?,
                None => Effect::Nothing,
            };
            if effect != Effect::Nothing {
                push(&mut taken, id)?;
            }
            if effect == Effect::Conflicts {
                return Ok(taken);
            }
        }
        Ok(taken)
    }
}

/// Holds nothing but that the literals are false.
pub fn suppose_false(trail: &mut Trail, literals: &[i32]) -> Result<(), Refused>
    ensures { trail.new.vars ≡ trail.old.vars }
{
    trail.clear();
    if !are_literals(trail, literals) {
        return Ok(());
    }
    for literal in literals {
        if !trail.has_value(*literal) {
            trail.deny(*literal)?;
        }
    }
    Ok(())
}
