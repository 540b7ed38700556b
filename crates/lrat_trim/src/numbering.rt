//! The ids of a proof's lines, one after the other.
//!
//! A solver's log has gaps where lines were left out. The smaller an id, the shorter the text.

use base::{Refused, Seq, push};
use lrat::{Clause, Line, LratError, Proof};
use std::alloc::Global;

/// How ids of lines become the ids behind a formula's clauses, in order. What it answers is judged by `checker3` before it is
/// an answer.
#[derive(Drop)]
pub struct Numbering {
    /// how many clauses the formula has
    base: u64,
    /// the ids of the lines, in order
    ids: Vec<u64>,
}

/// The ids of the lines that add clauses.
fn ids_of(alloc: Global, lines: &[Line]) -> Result<Vec<u64>, Refused> {
    let mut ids = Vec::new(alloc);
    for line in lines {
        match line {
            Line::Add { id, .. } | Line::Delete { id, .. } => push(&mut ids, u64::from(*id))?,
        }
    }
    Ok(ids)
}

impl Numbering {
    /// The numbering of the lines behind this number of clauses.
    pub fn new(alloc: Global, clauses: usize, lines: &[Line]) -> Result<Numbering, Refused> {
        Ok(Numbering {
            base: clauses as u64,
            ids: ids_of(alloc, lines)?,
        })
    }

    /// The id that the clause of this id has. An id that no line has stays.
    pub fn new_id(&self, id: u64) -> u32 {
        let new = match self.ids.as_slice().binary_search(&id) {
            Ok(place) => self.base.saturating_add(1).saturating_add(place as u64),
            Err(_) => id,
        };
        new.min(u64::from(u32::MAX)) as u32
    }

    /// The ids that the clauses of these hints have.
    fn new_hints(&self, alloc: Global, hints: &[i64]) -> Result<Vec<i64>, Refused> {
        let mut ids = Vec::new(alloc);
        for hint in hints {
            push(&mut ids, i64::from(self.new_id(hint.unsigned_abs())))?;
        }
        Ok(ids)
    }

    /// The line with its new id and hints.
    fn new_line(&self, alloc: Global, line: &Line) -> Result<Line, Refused> {
        match line {
            Line::Add { id, clause, hints } => Ok(Line::Add {
                id: self.new_id(u64::from(*id)),
                clause: Clause::from_slice(alloc, clause.as_slice())?,
                hints: Seq::from_vec(self.new_hints(alloc, hints.as_slice())?),
            }),
            Line::Delete { id, ids } => Ok(Line::Delete {
                id: *id,
                ids: ids.copy(alloc)?,
            }),
        }
    }

    /// The lines with their new ids and hints. A line that is over a limit is left out.
    pub fn renumbered(&self, alloc: Global, lines: &[Line]) -> Result<Proof, Refused> {
        let mut proof = Proof::new(alloc);
        for line in lines {
            match proof.push(self.new_line(alloc, line)?) {
                Ok(()) => {}
                Err(LratError::OutOfMemory(refused)) => return Err(refused),
                Err(_) => {}
            }
        }
        Ok(proof)
    }
}
