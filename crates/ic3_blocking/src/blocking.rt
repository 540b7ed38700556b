//! States that the frames are to exclude.

ghost use Rattle.std.specs.Prelude.{◌≡◌, ◌+◌, ◌<◌, ◌≤◌, Bool, List, IfOk, OnOk};
ghost use Rattle.base.specs.Budget.{Spends};
ghost use Rattle.states.specs.States.{Holds, IsPartOf};
ghost use Rattle.ic3_frames.specs.Frames.{InFrame, IsStateClause};
ghost use Rattle.ic3_blocking.specs.Sound.{IsSound};
ghost use Rattle.ic3_blocking.specs.Answers.{IsBefore, IsBlocking, IsInductiveFrom, IsLearned};

use crate::frame_solver::FrameSolver;
use crate::reset::reset_literal;
use base::{Budget, Refused, Seq};
use engine::EngineError;
use graph::Model;
use ic3_frames::Frames;
use ic3_step::{Assignment, Consecution, Counted};
use solver::PartSat;
use states::StateLit;

/// What became of states that were to be blocked.
#[derive(Drop)]
pub(crate) enum Blocking {
    /// The frames exclude them.
    Blocked,
    /// No reset of the circuit excludes them all.
    Initial,
    /// This time is a predecessor of one of them.
    Predecessor(Assignment),
    /// The budget is exhausted.
    Spent,
}

/// Of the clauses that end at the level and are part of this one, the longest; or no literals where there is none.
fn longest_before<'a>(
    frames: &'a Frames,
    level: u32,
    whole: &[StateLit],
) -> Result<&'a [StateLit], Refused>
    ensures { IfOk result (λ c. IsBefore frames.now.entries level whole.now c.now) }
{
    match frames.longest_part(frames.allocator(), level, whole)? {
        Some(place) => Ok(frames.entries()[place].clause.as_slice()),
        None => Ok(&[]),
    }
}

impl<S: PartSat> FrameSolver<S> {
    /// Adds a clause that is inductive from a frame, as short as it gets and as far on as it holds. It is part of `whole`, which is
    /// false in the states that are blocked and in no others. Of the clauses that end at the frame and are part of that too, the
    /// longest was needed there, so its latches are not left out.
    fn learn(
        &mut self,
        circuit: &Model,
        frames: &mut Frames,
        level: u32,
        whole: &[StateLit],
        clause: Seq<StateLit>,
        budget: &mut Budget,
    ) -> Result<(), EngineError>
        requires sound { IsSound circuit.now self.old frames.old }
        requires below { level < frames.old.top }
        requires inductive { IsInductiveFrom circuit.now frames.old.entries level clause }
        requires part { IsPartOf clause whole.now }
        ensures top { frames.new.top ≡ frames.old.top }
        ensures spends { Spends budget.old budget.new }
        ensures sound { OnOk result (IsSound circuit.now self.new frames.new) }
        ensures held { OnOk result ((s : List Bool) → InFrame frames.new.entries (level + 1) s → Holds s whole.now) }
        ensures learned { OnOk result (IsLearned circuit.now frames.old frames.new level whole.now budget.new) }
    {
        let needed = longest_before(frames, level, whole)?;
        let before = clause.as_slice().len();
        let shorter = self.generalize(circuit, frames, level, clause, needed, budget)?;
        self.transition
            .count_dropped(before, shorter.as_slice().len());
        let last = self.furthest(circuit, frames, level, shorter.as_slice(), budget)?;
        self.add_to_frames(circuit, frames, last, shorter)
    }

    /// Blocks the states in which the clause is false in the frame at `level`, or finds a predecessor of
    /// one of them. They are blocked only where the frame excludes them, but in the first one.
    pub(crate) fn block(
        &mut self,
        circuit: &Model,
        frames: &mut Frames,
        level: u32,
        clause: &[StateLit],
        budget: &mut Budget,
    ) -> Result<Blocking, EngineError>
        requires sound { IsSound circuit.now self.old frames.old }
        requires below { level ≤ frames.old.top }
        requires clause { IsStateClause circuit.now clause.now }
        ensures top { frames.new.top ≡ frames.old.top }
        ensures spends { Spends budget.old budget.new }
        ensures sound { OnOk result (IsSound circuit.now self.new frames.new) }
        ensures lawful { IfOk result (IsBlocking circuit.now frames.new.entries level clause.now budget.new) }
    {
        let Some(first) = reset_literal(circuit.latches(), clause) else {
            return Ok(Blocking::Initial);
        };
        if level == 0 {
            return Ok(Blocking::Blocked);
        }
        if frames.implies(frames.allocator(), level, clause)? {
            return Ok(Blocking::Blocked);
        }
        let before = level - 1;
        self.transition.count(Counted::BlockQuery);
        self.transition.count_obligation(clause.len());
        match self.inductive(circuit, frames, before, clause, first, budget)? {
            Consecution::Held(part) => {
                self.learn(circuit, frames, before, clause, part, budget)?;
                Ok(Blocking::Blocked)
            }
            Consecution::Broken(time) => Ok(Blocking::Predecessor(time)),
            Consecution::Spent => Ok(Blocking::Spent),
        }
    }
}
