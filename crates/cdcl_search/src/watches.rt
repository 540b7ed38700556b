//! Which clauses to visit when a literal becomes false.
//!
//! Of each clause two literals are watched, and only where one of them becomes false the clause is visited
//! (Moskewicz, Madigan, Zhao, Zhang, Malik 2001). Beside the clause a watch has its blocker, another literal
//! of the clause: where that one is true the clause is left alone. The search has a copy of the clause, with
//! the two watched literals first (`long_clauses`), and the watch has its clause reference. Clauses of two or
//! three literals lie apart, under each of their literals (`short_lists`): a watch of one has its id and all
//! the others, and no more is read of it. Where both kinds are to be found stands side by side for each
//! literal, since they are visited one after the other.
//!
//! No proof rests on what is watched: a clause that is missed is found when a model is
//! checked.

use crate::counts::Counts;
use crate::long_clauses::{LongClauses, WatchVisit};
use crate::short_lists::{EMPTY, Short, ShortLists, Span};
use crate::values::{Values, code_of};
use base::{Refused, push};
use cdcl_kernel::Kernel;
use std::alloc::Global;
use std::mem;

/// A clause that watches a literal, and another literal of the clause.
#[derive(Clone, Copy)]
pub struct Watch {
    /// the clause's reference among the long ones
    pub clause_ref: u32,
    /// the other literal's code
    pub blocker: u32,
}

/// The clauses of a literal.
#[derive(Drop)]
struct Lists {
    /// where those of two or three literals lie
    short: Span,
    /// the longer ones that watch it
    long: Vec<Watch>,
}

impl Lists {
    /// Those of a literal of no clause, which take no memory of their own.
    fn new(alloc: Global) -> Lists {
        Lists {
            short: EMPTY,
            long: Vec::new(alloc),
        }
    }
}

/// The literal of variable 0, which does not exist and is always false.
const NO_LITERAL: i32 = 0;

/// The watches of each literal.
#[derive(Drop)]
pub struct Watches {
    alloc: Global,
    /// by literals
    lists: Vec<Lists>,
    /// the clauses of two or three literals
    shorts: ShortLists,
    /// in how many clauses to come of two or three literals each literal is
    counts: Counts,
    /// the longer ones
    clauses: LongClauses,
    /// the greatest id of a clause that was attached
    attached: usize,
}

/// The index of a literal's lists.
#[inline]
fn index_of(literal: i32) -> usize {
    code_of(literal) as usize
}

/// The first literal of the clause besides these two.
fn third_of(clause: &[i32], first: i32, second: i32) -> Option<i32> {
    for literal in clause {
        if *literal != first && *literal != second {
            return Some(*literal);
        }
    }
    None
}

/// Gives the watches the new references of their clauses, and takes those of clauses out that are gone.
fn move_watches(list: &mut Vec<Watch>, clauses: &LongClauses) {
    let mut kept = 0;
    for at in 0..list.len() {
        let watch = list[at];
        if let Some(clause_ref) = clauses.new_ref(watch.clause_ref)
            && kept < list.len()
        {
            list[kept] = Watch {
                clause_ref,
                ..watch
            };
            kept += 1;
        }
    }
    list.truncate(kept);
}

impl Watches {
    /// No lists, which take no memory.
    pub fn new(alloc: Global) -> Watches {
        Watches {
            alloc,
            lists: Vec::new(alloc),
            shorts: ShortLists::new(alloc),
            counts: Counts::new(alloc),
            clauses: LongClauses::new(alloc),
            attached: 0,
        }
    }

    /// Makes room for the literals of the next variable, from 0 on.
    pub fn grow(&mut self) -> Result<(), Refused> {
        self.grow_literal()?;
        self.grow_literal()
    }

    /// Makes room for the next literal.
    fn grow_literal(&mut self) -> Result<(), Refused> {
        push(&mut self.lists, Lists::new(self.alloc))?;
        self.counts.grow()
    }

    /// The greatest id of a clause that was attached. All below it were too, or need no watches.
    pub fn attached(&self) -> usize {
        self.attached
    }

    /// The clauses of two or three literals that have this one.
    #[inline]
    pub fn shorts(&self, literal: i32) -> &[Short] {
        self.shorts.of(self.short_span(literal))
    }

    /// Where the clauses of two or three literals lie that have this one.
    #[inline]
    pub fn short_span(&self, literal: i32) -> Span {
        match self.lists.get(index_of(literal)) {
            Some(lists) => lists.short,
            None => EMPTY,
        }
    }

    /// A clause of such a span.
    #[inline]
    pub fn short_at(&self, span: Span, at: u32) -> Short {
        self.shorts.at(span, at)
    }

    /// Takes the list of the longer clauses that watch the literal out, where there are any.
    #[inline]
    pub fn take(&mut self, literal: i32) -> Option<Vec<Watch>> {
        let lists = self.lists.get_mut(index_of(literal))?;
        if lists.long.is_empty() {
            return None;
        }
        Some(mem::replace(&mut lists.long, Vec::new(self.alloc)))
    }

    /// Puts the list of the longer clauses that watch the literal back.
    #[inline]
    pub fn put(&mut self, literal: i32, list: Vec<Watch>) {
        if let Some(lists) = self.lists.get_mut(index_of(literal)) {
            lists.long = list;
        }
    }

    /// Adds a longer clause to those that watch the literal with this code.
    #[inline]
    fn watch(&mut self, code: u32, watch: Watch) -> Result<(), Refused> {
        match self.lists.get_mut(code as usize) {
            Some(lists) => push(&mut lists.long, watch),
            None => Ok(()),
        }
    }

    /// Adds a short clause to those that have the literal.
    fn watch_short(&mut self, literal: i32, clause: Short) -> Result<(), Refused> {
        let index = index_of(literal);
        if index < self.lists.len() {
            let span = self.lists[index].short;
            self.lists[index].short = self.shorts.add(span, clause)?;
        }
        Ok(())
    }

    /// Counts a clause that is to be attached, where it is one of two or three literals.
    pub fn count(&mut self, clause: &[i32]) -> Result<(), Refused> {
        if clause.len() < 2 || clause.len() > 3 {
            return Ok(());
        }
        for literal in clause {
            self.counts.add(code_of(*literal))?;
        }
        Ok(())
    }

    /// Makes room for the clauses that were counted.
    pub fn reserve(&mut self) -> Result<(), Refused> {
        for code in self.counts.counted() {
            let index = *code as usize;
            if index < self.lists.len() {
                let span = self.lists[index].short;
                self.lists[index].short = self.shorts.reserve(span, self.counts.of(*code))?;
            }
        }
        self.counts.clear();
        Ok(())
    }

    /// Copies the short clauses to a list without room, where the one that they are in has much. After an `Err` the
    /// lists are worth nothing.
    pub fn compact(&mut self) -> Result<(), Refused> {
        if !self.shorts.is_sparse() {
            return Ok(());
        }
        let mut shorts = ShortLists::new(self.alloc);
        for index in 0..self.lists.len() {
            let span = shorts.copy(&self.shorts, self.lists[index].short)?;
            self.lists[index].short = span;
        }
        self.shorts = shorts;
        Ok(())
    }

    /// Watches two literals of a clause, or all three where it has no more.
    pub fn attach(
        &mut self,
        id: u32,
        first: i32,
        second: i32,
        clause: &[i32],
    ) -> Result<(), Refused> {
        if clause.len() > 3 {
            return self.attach_long(id, first, second, clause);
        }
        match third_of(clause, first, second) {
            Some(third) => {
                self.attach_short(id, first, second, third)?;
                self.attach_short(id, second, first, third)?;
                self.attach_short(id, third, first, second)
            }
            None => {
                self.attach_short(id, first, second, NO_LITERAL)?;
                self.attach_short(id, second, first, NO_LITERAL)
            }
        }
    }

    /// Watches a literal of a short clause, whose other ones these are. Of a clause of two the second is `NO_LITERAL`.
    fn attach_short(
        &mut self,
        id: u32,
        literal: i32,
        first: i32,
        second: i32,
    ) -> Result<(), Refused> {
        let clause = Short {
            id,
            first: code_of(first),
            second: code_of(second),
        };
        self.watch_short(literal, clause)
    }

    /// Watches two literals of a long clause, unless there is no reference for it.
    fn attach_long(
        &mut self,
        id: u32,
        first: i32,
        second: i32,
        clause: &[i32],
    ) -> Result<(), Refused> {
        let Some(clause_ref) = self.clauses.add(id, first, second, clause)? else {
            return Ok(());
        };
        let (first, second) = (code_of(first), code_of(second));
        self.watch(
            first,
            Watch {
                clause_ref,
                blocker: second,
            },
        )?;
        self.watch(
            second,
            Watch {
                clause_ref,
                blocker: first,
            },
        )
    }

    /// The clauses up to this id are attached from now on, or need no watches.
    pub fn reach(&mut self, id: usize) {
        self.attached = self.attached.max(id);
    }

    /// The id of the long clause.
    #[inline]
    pub fn id(&self, clause_ref: u32) -> u32 {
        self.clauses.id(clause_ref)
    }

    /// Visits the long clause, of which a watched literal is false. Where it watches another one from now on,
    /// it is added to those that watch that one.
    #[inline]
    pub fn visit(
        &mut self,
        values: &Values,
        clause_ref: u32,
        false_code: u32,
    ) -> Result<WatchVisit, Refused> {
        let visit = self.clauses.visit(values, clause_ref, false_code);
        if let WatchVisit::Moved { other, replacement } = visit {
            self.watch(
                replacement,
                Watch {
                    clause_ref,
                    blocker: other,
                },
            )?;
        }
        Ok(visit)
    }

    /// Flushes the watches of clauses that are gone. After an `Err` the watches are worth nothing.
    pub fn flush(&mut self, kernel: &Kernel) -> Result<(), Refused> {
        let renewed = self.clauses.renew(self.alloc, kernel)?;
        for lists in self.lists.iter_mut() {
            lists.short = self.shorts.flush(lists.short, kernel);
            move_watches(&mut lists.long, &self.clauses);
        }
        self.clauses = renewed;
        Ok(())
    }
}
