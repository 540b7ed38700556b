//! The bad literal in the last frame.

ghost use Rattle.std.specs.Prelude.{IfOk, OnOk};
ghost use Rattle.base.specs.Budget.{Spends};
ghost use Rattle.engine.specs.Findings.{IsForBad};
ghost use Rattle.ic3_blocking.specs.Sound.{IsSound};
ghost use Rattle.ic3_blocking.specs.Answers.{IsAtBad};

use crate::frame_solver::{FrameSolver, guards_from};
use base::Budget;
use engine::EngineError;
use graph::Model;
use ic3_frames::Frames;
use ic3_step::{Assignment, Reply};
use solver::PartSat;

/// What is known of the bad literal in a frame.
#[derive(Drop)]
pub enum AtBad {
    /// It is true at this time.
    Set(Assignment),
    /// It is false at every time that keeps the constraints.
    Excluded,
    /// The budget is exhausted.
    Spent,
}

impl<S: PartSat> FrameSolver<S> {
    /// Asks for a time of the last frame at which the bad literal is true.
    pub fn at_bad(
        &mut self,
        circuit: &Model,
        frames: &Frames,
        budget: &mut Budget,
    ) -> Result<AtBad, EngineError>
        requires for_bad { IsForBad circuit.now }
        requires sound { IsSound circuit.now self.old frames.now }
        ensures spends { Spends budget.old budget.new }
        ensures sound { OnOk result (IsSound circuit.now self.new frames.now) }
        ensures lawful { IfOk result (IsAtBad circuit.now frames.now.entries frames.now.top budget.new) }
    {
        circuit.well_formed();
        let alloc = frames.allocator();
        let top = frames.top();
        let guards = guards_from(alloc, top, top + 1)?;
        let bad = circuit.bad()[0];
        match self
            .transition
            .ask(alloc, circuit, guards.as_slice(), &[bad], budget)?
        {
            Reply::Found(time) => Ok(AtBad::Set(time)),
            Reply::Core(_) => Ok(AtBad::Excluded),
            Reply::Spent => Ok(AtBad::Spent),
        }
    }
}
