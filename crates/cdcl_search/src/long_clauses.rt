//! The clauses of more than three literals, as the search reads them.
//!
//! They lie in one list, one behind the other: of each its id, its length, and the codes of its literals, the
//! two watched ones first. So a visit of a clause reads one piece of memory, and none of the clauses that are
//! kept elsewhere. A clause is known by its place in the list, its clause reference. Where clauses were
//! forgotten, the others are copied to a list of their own.

ghost use Rattle.std.specs.Prelude.{◌<◌, IfSome, length};

use crate::table::Table;
use crate::values::{Value, Values, code_of};
use base::Refused;
use cdcl_kernel::Kernel;
use std::alloc::Global;

/// How many numbers stand before a clause's literals: its id and its length.
const HEAD: usize = 2;

/// The new clause reference of a clause that is gone.
const GONE: u32 = u32::MAX;

/// What a visit of a clause shows, of which a watched literal is false. The literals are codes.
#[derive(Clone, Copy)]
pub enum WatchVisit {
    /// this literal is true
    Satisfied(u32),
    /// a literal that is not false is watched in place of the false one
    Moved {
        /// the literal that is watched beside it
        other: u32,
        replacement: u32,
    },
    /// the other watched literal alone is left, and is unassigned
    Unit(u32),
    /// nothing is left; the other watched literal
    Conflict(u32),
    /// there is no such clause
    Missing,
}

/// The clauses, one behind the other.
#[derive(Drop)]
pub struct LongClauses {
    /// ids, lengths and codes
    items: Table<u32>,
    /// how many clauses there are
    count: u32,
}

/// The index of the first literal that is not false.
#[inline]
fn find_replacement(values: &Values, codes: &[u32]) -> Option<usize>
    ensures { IfSome result (λ at. at < length codes.now) }
{
    codes
        .iter()
        .position(|code| values.of(*code) != Value::False)
}

impl LongClauses {
    /// No clauses, which take no memory.
    pub fn new(alloc: Global) -> LongClauses {
        LongClauses {
            items: Table::new(alloc),
            count: 0,
        }
    }

    /// Adds a clause, of which these two literals are watched, and answers its reference. One whose reference
    /// would be no number of 32 bits is not added. After an `Err` the list is worth nothing.
    pub fn add(
        &mut self,
        id: u32,
        first: i32,
        second: i32,
        clause: &[i32],
    ) -> Result<Option<u32>, Refused> {
        let Ok(clause_ref) = u32::try_from(self.items.len()) else {
            return Ok(None);
        };
        self.items.push(id)?;
        self.items.push(0)?;
        self.items.push(code_of(first))?;
        self.items.push(code_of(second))?;
        let mut len = 2u32;
        for literal in clause {
            if *literal != first && *literal != second {
                self.items.push(code_of(*literal))?;
                len = len.saturating_add(1);
            }
        }
        self.items.put(clause_ref as usize + 1, len);
        self.count = self.count.saturating_add(1);
        Ok(Some(clause_ref))
    }

    /// The id of the clause.
    #[inline]
    pub fn id(&self, clause_ref: u32) -> u32 {
        self.items.at(clause_ref as usize, 0)
    }

    /// The literals of the clause.
    #[inline]
    fn literals(&self, clause_ref: u32) -> &[u32] {
        let start = clause_ref as usize + HEAD;
        let len = self.items.at(clause_ref as usize + 1, 0);
        self.items.part(start, start + len as usize)
    }

    /// Visits a clause of which a watched literal is false. One that is unassigned is watched in its place, where there
    /// is one.
    #[inline]
    pub fn visit(&mut self, values: &Values, clause_ref: u32, false_code: u32) -> WatchVisit {
        let [first, second, rest @ ..] = self.literals(clause_ref) else {
            return WatchVisit::Missing;
        };
        let (other, slot) = if *first == false_code {
            (*second, HEAD)
        } else {
            (*first, HEAD + 1)
        };
        let value = values.of(other);
        if value == Value::True {
            return WatchVisit::Satisfied(other);
        }
        let Some(at) = find_replacement(values, rest) else {
            return match value {
                Value::False => WatchVisit::Conflict(other),
                _ => WatchVisit::Unit(other),
            };
        };
        let replacement = rest[at];
        if values.of(replacement) == Value::True {
            return WatchVisit::Satisfied(replacement);
        }
        self.items.put(clause_ref as usize + slot, replacement);
        self.items
            .put(clause_ref as usize + HEAD + 2 + at, false_code);
        WatchVisit::Moved { other, replacement }
    }

    /// Copies the clauses that are not gone to a list of their own. Here each has its new reference in place
    /// of its id. After an `Err` the list is worth nothing.
    pub fn renew(&mut self, alloc: Global, kernel: &Kernel) -> Result<LongClauses, Refused> {
        let mut renewed = LongClauses::new(alloc);
        let mut clause_ref = 0;
        for _ in 0..self.count {
            clause_ref = self.move_to(&mut renewed, clause_ref, kernel)?;
        }
        Ok(renewed)
    }

    /// Copies the clause to another list, unless it is gone, and answers the reference behind it.
    fn move_to(
        &mut self,
        renewed: &mut LongClauses,
        clause_ref: usize,
        kernel: &Kernel,
    ) -> Result<usize, Refused> {
        let len = self.items.at(clause_ref.saturating_add(1), 0);
        let end = clause_ref.saturating_add(HEAD).saturating_add(len as usize);
        let mut moved = GONE;
        if kernel.clause(self.items.at(clause_ref, 0)).is_some() {
            moved = renewed.copy(self.items.part(clause_ref, end))?;
        }
        self.items.put(clause_ref, moved);
        Ok(end)
    }

    /// Adds a clause as it lies in another list, and answers its reference. One whose reference would be no
    /// number of 32 bits is gone.
    fn copy(&mut self, clause: &[u32]) -> Result<u32, Refused> {
        let Ok(clause_ref) = u32::try_from(self.items.len()) else {
            return Ok(GONE);
        };
        self.items.extend(clause)?;
        self.count = self.count.saturating_add(1);
        Ok(clause_ref)
    }

    /// The clause's reference in the list to which it was copied, where it is not gone.
    #[inline]
    pub fn new_ref(&self, clause_ref: u32) -> Option<u32> {
        match self.items.at(clause_ref as usize, GONE) {
            GONE => None,
            clause_ref => Some(clause_ref),
        }
    }
}
