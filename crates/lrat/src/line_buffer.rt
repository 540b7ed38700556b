//! A line that is read over and over.

ghost use Rattle.std.specs.Prelude.{◌≡◌, []};
ghost use Rattle.scan.specs.Reading.{Gives};
ghost use Rattle.lrat.specs.Buffered.{lent_line};
ghost use Rattle.lrat.specs.Reading.{added_at, deleted_at, line_at};
ghost use Rattle.lrat.specs.declared.line.Line.TheVariants.{Delete};

use crate::line_ref::LineRef;
use crate::reading::{Hints, Ids, Literals, line_id};
use scan::{Fault, Kinds, byte, items_into};
use std::alloc::Global;
use std::marker::Model;

/// A line of a proof whose lists keep their memory when the next line is read into it. A contract
/// sees the line.
#[derive(Drop)]
pub struct LineBuffer {
    id: u32,
    /// whether the line deletes clauses
    deletes: bool,
    /// the literals of the clause that is added
    literals: Vec<i32>,
    /// the hints of the clause that is added
    hints: Vec<i64>,
    /// the ids of the clauses that are taken out
    ids: Vec<u32>,
}

impl Model for LineBuffer {
    ghost use Rattle.lrat.specs.Buffered.{held_line};
    ghost use Rattle.lrat.specs.declared.line.Line.{Line};

    ghost Value = { Line };

    ghost view = { λ b. held_line b.deletes b.id b.literals.items b.hints.items b.ids.items };
}

impl LineBuffer {
    /// A deletion of nothing, which takes no memory.
    pub fn new(alloc: Global) -> LineBuffer
        ensures { result ≡ Delete 0 [] }
    {
        LineBuffer {
            id: 0,
            deletes: true,
            literals: Vec::new(alloc),
            hints: Vec::new(alloc),
            ids: Vec::new(alloc),
        }
    }

    /// The line that it holds, whose lists stay here.
    #[inline(always)]
    pub fn as_ref(&self) -> LineRef<'_>
        ensures { lent_line result ≡ self.now }
    {
        if self.deletes {
            LineRef::Delete {
                id: self.id,
                ids: self.ids.as_slice(),
            }
        } else {
            LineRef::Add {
                id: self.id,
                clause: self.literals.as_slice(),
                hints: self.hints.as_slice(),
            }
        }
    }

    /// What follows the id of an addition, and what follows its line.
    #[tactic(auto, unfolding(crate::specs::Reading::added_at))]
    fn added<'t, K: Copy>(
        &mut self,
        alloc: Global,
        id: u32,
        text: &'t [u8],
        kinds: Kinds<K>,
    ) -> Result<&'t [u8], Fault<K>>
        ensures { Gives (λ x. (self.new, x.now)) result (added_at id text.now) }
    {
        self.id = id;
        self.deletes = false;
        let rest = items_into::<Literals<K>>(alloc, &mut self.literals, text, kinds)?;
        let rest = items_into::<Hints<K>>(alloc, &mut self.hints, rest, kinds)?;
        Ok(rest)
    }

    /// What follows the `d` of a deletion, and what follows its line.
    #[tactic(auto, unfolding(crate::specs::Reading::deleted_at))]
    fn deleted<'t, K: Copy>(
        &mut self,
        alloc: Global,
        id: u32,
        text: &'t [u8],
        kinds: Kinds<K>,
    ) -> Result<&'t [u8], Fault<K>>
        ensures { Gives (λ x. (self.new, x.now)) result (deleted_at id text.now) }
    {
        self.id = id;
        self.deletes = true;
        let rest = byte(text, b' ', kinds)?;
        let rest = items_into::<Ids<K>>(alloc, &mut self.ids, rest, kinds)?;
        Ok(rest)
    }

    /// Reads the line that a text begins with, to its line end, and answers what follows it. It
    /// refuses what `next_line` refuses, and then nothing is said of the line that it holds. One
    /// pass; memory is asked for only where a list is longer than those before.
    #[tactic(auto, unfolding(crate::specs::Reading::line_at))]
    #[inline(always)]
    pub fn read<'t, K: Copy>(
        &mut self,
        alloc: Global,
        text: &'t [u8],
        kinds: Kinds<K>,
    ) -> Result<&'t [u8], Fault<K>>
        ensures { Gives (λ x. (self.new, x.now)) result (line_at text.now) }
    {
        let (id, rest) = line_id(text, kinds)?;
        match rest {
            [b'd', after @ ..] => self.deleted(alloc, id, after, kinds),
            _ => self.added(alloc, id, rest, kinds),
        }
    }
}
