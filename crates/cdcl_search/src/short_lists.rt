//! The clauses of two or three literals, by each of their literals.
//!
//! All of them lie in one list, and each literal has a span of it, with some room to grow. Where many clauses
//! come at once they are counted first, and a span without enough room for those that it is to get moves to
//! the end of the list, where it has just that room (`reserve`). Where they come one by one a span that is
//! full moves to the end, where it has twice the room. The part of the list that a span had is not used
//! again. A span keeps its room where clauses are taken out of it. Where a third of the list is room, all
//! spans are copied, without it, to a list of their own, one literal's behind the other's: the search waits
//! for memory more than for anything else.

use crate::table::Table;
use base::Refused;
use cdcl_kernel::Kernel;
use std::alloc::Global;

/// For how many clauses a span has room when its first one comes, and was not counted.
const FIRST_ROOM: u32 = 4;

/// How much room is no reason to copy the spans.
const FEWEST: usize = 1000;

/// A clause of two or three literals that has a literal, and its other ones. Of a clause of two the second is that of
/// variable 0, which does not exist and is always false.
#[derive(Clone, Copy)]
pub struct Short {
    pub id: u32,
    /// their codes
    pub first: u32,
    pub second: u32,
}

impl Short {
    /// Whether it is a binary clause: one of two literals.
    pub fn is_binary(self) -> bool {
        self.second / 2 == 0
    }
}

/// What stands in room that isn't used yet.
const NONE: Short = Short {
    id: 0,
    first: 0,
    second: 0,
};

/// Where the short clauses of a literal lie.
#[derive(Clone, Copy)]
pub struct Span {
    /// the offset of the first one in the list
    start: u32,
    /// how many there are
    pub len: u32,
    /// for how many there is room
    room: u32,
}

/// The span of a literal that is in no short clause.
pub const EMPTY: Span = Span {
    start: 0,
    len: 0,
    room: 0,
};

/// The short clauses of all literals, one span after the other.
#[derive(Drop)]
pub struct ShortLists {
    items: Table<Short>,
    /// how many of the items are used
    used: usize,
}

impl ShortLists {
    /// No clauses, which take no memory.
    pub fn new(alloc: Global) -> ShortLists {
        ShortLists {
            items: Table::new(alloc),
            used: 0,
        }
    }

    /// The clauses of a span.
    #[inline]
    pub fn of(&self, span: Span) -> &[Short] {
        let start = span.start as usize;
        self.items.part(start, start + span.len as usize)
    }

    /// The clause at an offset in a span, or none of any literal past the list's end.
    #[inline]
    pub fn at(&self, span: Span, at: u32) -> Short {
        self.items.at(span.start as usize + at as usize, NONE)
    }

    /// Adds a clause to a span, and answers the span with it. A full span whose new offset would be no number
    /// of 32 bits stays as it is.
    pub fn add(&mut self, span: Span, clause: Short) -> Result<Span, Refused> {
        let mut span = span;
        if span.len == span.room {
            span = self.enlarge(span, span.room.saturating_mul(2).max(FIRST_ROOM))?;
        }
        if span.len < span.room {
            self.items
                .put(span.start as usize + span.len as usize, clause);
            span.len += 1;
            self.used = self.used.saturating_add(1);
        }
        Ok(span)
    }

    /// Answers a span with room for this many clauses more: the same one, or its copy at the end of the list. One whose
    /// new offset would be no number of 32 bits stays as it is.
    pub fn reserve(&mut self, span: Span, more: u32) -> Result<Span, Refused> {
        let room = span.len.saturating_add(more);
        if room <= span.room {
            return Ok(span);
        }
        self.enlarge(span, room)
    }

    /// Copies a span to the end of the list, where it has this room.
    fn enlarge(&mut self, span: Span, room: u32) -> Result<Span, Refused> {
        let Ok(start) = u32::try_from(self.items.len()) else {
            return Ok(span);
        };
        for at in 0..room as usize {
            let clause = self.of(span).get(at).copied().unwrap_or(NONE);
            self.items.push(clause)?;
        }
        Ok(Span {
            start,
            len: span.len,
            room,
        })
    }

    /// Takes the clauses out of a span that are gone, and answers the span of the others, which stay in order.
    pub fn flush(&mut self, span: Span, kernel: &Kernel) -> Span {
        let mut kept = Span { len: 0, ..span };
        for at in 0..span.len {
            let clause = self.items.at(span.start as usize + at as usize, NONE);
            if kernel.clause(clause.id).is_some() {
                self.items
                    .put(span.start as usize + kept.len as usize, clause);
                kept.len = kept.len.saturating_add(1);
            }
        }
        self.used = self
            .used
            .saturating_sub(span.len.saturating_sub(kept.len) as usize);
        kept
    }

    /// Whether more than a third of a list that isn't short is room.
    pub fn is_sparse(&self) -> bool {
        self.items.len() / 3 * 2 > self.used.saturating_add(FEWEST)
    }

    /// Copies a span of another list behind all spans, without its room, and answers where it lies.
    pub fn copy(&mut self, others: &ShortLists, span: Span) -> Result<Span, Refused> {
        let start = self.items.len();
        let Ok(start) = u32::try_from(start) else {
            return Ok(EMPTY);
        };
        for clause in others.of(span) {
            self.items.push(*clause)?;
        }
        self.used = self.used.saturating_add(span.len as usize);
        Ok(Span {
            start,
            len: span.len,
            room: span.len,
        })
    }
}
