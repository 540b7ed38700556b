//! Clauses that join the frames.

ghost use Rattle.std.specs.Prelude.{◌≡◌, ◌+◌, ◌<◌, Bool, List, Contains, OnOk};
ghost use Rattle.states.specs.States.{Holds};
ghost use Rattle.ic3_frames.specs.Frames.{InFrame};
ghost use Rattle.ic3_blocking.specs.Sound.{IsSound};
ghost use Rattle.ic3_blocking.specs.Answers.{IsInductiveFrom};

use crate::frame_solver::FrameSolver;
use base::Seq;
use engine::EngineError;
use graph::Model;
use ic3_frames::Frames;
use ic3_step::Counted;
use solver::PartSat;
use states::StateLit;

impl<S: PartSat> FrameSolver<S> {
    /// Adds a clause that is inductive from a frame to the frames up to the next one.
    pub(crate) fn add_to_frames(
        &mut self,
        circuit: &Model,
        frames: &mut Frames,
        level: u32,
        clause: Seq<StateLit>,
    ) -> Result<(), EngineError>
        requires sound { IsSound circuit.now self.old frames.old }
        requires below { level < frames.old.top }
        requires inductive { IsInductiveFrom circuit.now frames.old.entries level clause }
        ensures top { frames.new.top ≡ frames.old.top }
        ensures sound { OnOk result (IsSound circuit.now self.new frames.new) }
        ensures joined { OnOk result (Contains frames.new.entries (record { clause = clause; level = level + 1 })) }
        ensures held { OnOk result ((s : List Bool) → InFrame frames.new.entries (level + 1) s → Holds s clause) }
    {
        let alloc = frames.allocator();
        self.add_clause(alloc, circuit, level + 1, clause.as_slice())?;
        let before = frames.entries().len();
        frames.add(clause, level + 1)?;
        self.transition.count(Counted::LearnedClause);
        self.transition
            .count_subsumed(before.saturating_add(1), frames.entries().len());
        Ok(())
    }
}
