//! Clauses that could not be pushed to the next frame, each with a counterexample to induction: a state of the frame from which
//! a step leads to one where the clause is false. Nothing here can make an answer wrong.
//!
//! As long as such a state lies in the frame, the push fails again, so it need not be tried.

ghost use Rattle.std.specs.Prelude.{◌≡◌, ◌⊎◌, [], All, Contains, IsTrue};
ghost use Rattle.ic3_frames.specs.FailedPushes.{clauses_of};

use crate::frames::Entry;
use base::{Refused, Seq, push};
use states::StateLit;
use std::alloc::Global;

/// A clause that could not be pushed from the frame at a level, by this state.
#[derive(Drop)]
struct FailedPush {
    clause: Seq<StateLit>,
    level: u32,
    state: Seq<bool>,
}

impl FailedPush {
    /// Whether it is of this clause.
    fn is_of(&self, clause: &[StateLit]) -> bool
        ensures { IsTrue result → self.now.clause ≡ clause.now }
    {
        self.clause.as_slice() == clause
    }
}

/// The last failed push of each clause. They only save queries.
#[derive(Drop)]
pub(crate) struct FailedPushes {
    items: Vec<FailedPush>,
}

/// Whether each literal of the clause is unset in the state.
fn is_false(clause: &[StateLit], state: &[bool]) -> bool {
    clause
        .iter()
        .all(|lit| state.get(lit.latch as usize) != Some(&lit.value))
}

/// Whether a clause of the frame at `level` is false in the state. It costs the clauses of the frames.
fn is_excluded(entries: &[Entry], level: u32, state: &[bool]) -> bool {
    for entry in entries {
        if level <= entry.level && is_false(entry.clause.as_slice(), state) {
            return true;
        }
    }
    false
}

impl FailedPushes {
    /// No push has failed.
    pub(crate) fn new(alloc: Global) -> FailedPushes
        ensures { result.items.items ≡ [] }
    {
        FailedPushes {
            items: Vec::new(alloc),
        }
    }

    /// The place of the clause's failed push.
    fn find(&self, clause: &[StateLit]) -> Option<usize> {
        self.items.iter().position(|failed| failed.is_of(clause))
    }

    /// Whether the clause could not be pushed from this level, by a state that still lies in the frame. It costs the clauses
    /// of the frames and the failed pushes.
    pub(crate) fn fails_again(&self, entries: &[Entry], level: u32, clause: &[StateLit]) -> bool
        ensures { IsTrue result → Contains (clauses_of self.now.items.items) clause.now }
    {
        'looking: for failed in self.items.as_slice() {
            if failed.is_of(clause) {
                return failed.level == level
                    && !is_excluded(entries, level, failed.state.as_slice());
            }
        }
        false
    }

    /// The clause could not be pushed from this level, by this state. Its earlier failed push is forgotten.
    #[tactic(auto, using(crate::proofs::Failing::clauses_set, crate::proofs::Failing::clauses_push, crate::proofs::Failing::clauses_same))]
    pub(crate) fn add(
        &mut self,
        level: u32,
        clause: Seq<StateLit>,
        state: Seq<bool>,
    ) -> Result<(), Refused>
        ensures { All (λ c. Contains (clauses_of self.old.items.items) c ⊎ (c ≡ clause)) (clauses_of self.new.items.items) }
    {
        let place = self.find(clause.as_slice());
        let failed = FailedPush {
            clause,
            level,
            state,
        };
        match place {
            Some(place) if place < self.items.len() => self.items[place] = failed,
            _ => push(&mut self.items, failed)?,
        }
        Ok(())
    }

    /// Forgets all of them where they are many more than the clauses of the frames.
    #[tactic(auto, using(crate::proofs::Failing::clauses_none))]
    pub(crate) fn trim(&mut self, entries: &[Entry])
        ensures { All (Contains (clauses_of self.old.items.items)) (clauses_of self.new.items.items) }
    {
        if self.items.len() / 2 > entries.len() {
            self.items.clear();
        }
    }
}
