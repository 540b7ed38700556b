//! Proof obligations, blocked those of the lowest frame first.

ghost use Rattle.std.specs.Prelude.{◌≡◌, ◌+◌, ◌<◌, ◌≤◌, ◌∷◌, [], true, length, slice_index_or, IfOk, IfSome, OnOk};
ghost use Rattle.base.specs.Budget.{Spends};
ghost use Rattle.engine.specs.Findings.{IsForBad};
ghost use Rattle.graph.specs.Circuits.{Valuation, value_of, next_state};
ghost use Rattle.cnf.specs.Formulas.{bad_literal};
ghost use Rattle.ic3_step.specs.States.{IsAt};
ghost use Rattle.states.specs.States.{Denies};
ghost use Rattle.ic3_step.specs.Steps.{denials_of};
ghost use Rattle.ic3_blocking.specs.declared.obligation.Obligation.{Obligation};
ghost use Rattle.ic3_blocking.specs.Sound.{IsSound};
ghost use Rattle.ic3_blocking.specs.Cubes.{IsReady};
ghost use Rattle.ic3_blocking.specs.Queue.{AreQueued};
ghost use Rattle.ic3_blocking.specs.Answers.{AreObligations, IsFound};

use crate::blocking::Blocking;
use crate::frame_solver::FrameSolver;
use crate::lift::Lifting;
use crate::obligation::{Obligation, obligation_at, obligation_before};
use crate::obligation_queue::ObligationQueue;
use crate::run::run_of;
use base::{Budget, Refused, push};
use engine::{EngineError, Finding, Progress, Reason};
use graph::Model;
use ic3_frames::Frames;
use ic3_step::Assignment;
use solver::PartSat;
use std::alloc::Global;

/// The obligations that were found, and those of them that are to be blocked.
#[derive(Drop)]
struct Obligations {
    found: Vec<Obligation>,
    queue: ObligationQueue,
}

impl Obligations {
    /// The states that set the bad literal as the time does, which are to be blocked in the top frame.
    fn first(
        alloc: Global,
        circuit: &Model,
        lifting: &mut Lifting,
        time: Assignment,
        top: u32,
    ) -> Result<Obligations, Refused>
        requires for_bad { IsForBad circuit.now }
        requires ready { IsReady circuit.now lifting.old }
        requires at { (w : Valuation) × IsAt circuit.now (bad_literal circuit.now 0 ∷ []) w time × (value_of w (bad_literal circuit.now 0) ≡ true) }
        ensures ready { OnOk result (IsReady circuit.now lifting.new) }
        ensures frames { IfOk result (λ o. length o.queue.frames.items ≡ top + 1) }
        ensures obligations { IfOk result (λ o. AreObligations circuit.now o.found.items) }
        ensures queued { IfOk result (λ o. AreQueued (length o.found.items) o.queue) }
    {
        let bad = obligation_at(alloc, circuit, lifting, time)?;
        let mut found = Vec::new(alloc);
        push(&mut found, bad)?;
        let mut queue = ObligationQueue::new(alloc, top)?;
        queue.add(top, 0)?;
        Ok(Obligations { found, queue })
    }

    /// Adds the states that are predecessors of those of an obligation, as the state of the time is. They are to be blocked in the
    /// frame before, and then that obligation again, which was taken from the queue of a frame.
    fn add_before(
        &mut self,
        alloc: Global,
        circuit: &Model,
        lifting: &mut Lifting,
        time: Assignment,
        queued: (u32, usize),
    ) -> Result<(), Refused>
        requires ready { IsReady circuit.now lifting.old }
        requires obligations { AreObligations circuit.now self.old.found.items }
        requires queued { AreQueued (length self.old.found.items) self.old.queue }
        requires level { queued.0 < length self.old.queue.frames.items }
        requires index { queued.1 < length self.old.found.items }
        requires at { (d : Obligation) → (w : Valuation) × IsAt circuit.now (denials_of circuit.now.latches (slice_index_or self.old.found.items queued.1 d).clause) w time ×
            Denies (next_state circuit.now w) (slice_index_or self.old.found.items queued.1 d).clause }
        ensures ready { OnOk result (IsReady circuit.now lifting.new) }
        ensures frames { length self.new.queue.frames.items ≡ length self.old.queue.frames.items }
        ensures obligations { OnOk result (AreObligations circuit.now self.new.found.items) }
        ensures queued { OnOk result (AreQueued (length self.new.found.items) self.new.queue) }
    {
        let (level, index) = queued;
        let after = &self.found[index];
        let before = obligation_before(alloc, circuit, lifting, time, after, index)?;
        let place = self.found.len();
        push(&mut self.found, before)?;
        self.queue.add(level, index)?;
        self.queue.add(level.saturating_sub(1), place)?;
        Ok(())
    }
}

impl<S: PartSat> FrameSolver<S> {
    /// Blocks an obligation that was taken from the queue of a frame, or finds a predecessor of its states, which is to be blocked
    /// before, or a run. What is blocked is an obligation of the next frame.
    fn block_queued(
        &mut self,
        circuit: &Model,
        frames: &mut Frames,
        lifting: &mut Lifting,
        obligations: &mut Obligations,
        queued: (u32, usize),
        budget: &mut Budget,
    ) -> Result<Option<Finding>, EngineError>
        requires for_bad { IsForBad circuit.now }
        requires sound { IsSound circuit.now self.old frames.old }
        requires ready { IsReady circuit.now lifting.old }
        requires obligations { AreObligations circuit.now obligations.old.found.items }
        requires frames { length obligations.old.queue.frames.items ≡ frames.old.top + 1 }
        requires queued { AreQueued (length obligations.old.found.items) obligations.old.queue }
        requires level { queued.0 ≤ frames.old.top }
        requires index { queued.1 < length obligations.old.found.items }
        ensures top { frames.new.top ≡ frames.old.top }
        ensures spends { Spends budget.old budget.new }
        ensures sound { OnOk result (IsSound circuit.now self.new frames.new) }
        ensures ready { OnOk result (IsReady circuit.now lifting.new) }
        ensures obligations { OnOk result (AreObligations circuit.now obligations.new.found.items) }
        ensures frames { OnOk result (length obligations.new.queue.frames.items ≡ frames.new.top + 1) }
        ensures queued { OnOk result (AreQueued (length obligations.new.found.items) obligations.new.queue) }
        ensures lawful { IfOk result (λ r. IfSome r (IsFound circuit.now frames.new budget.new)) }
    {
        let alloc = frames.allocator();
        let (level, index) = queued;
        let clause = obligations.found[index].clause.as_slice();
        match self.block(circuit, frames, level, clause, budget)? {
            Blocking::Initial => {
                let run = run_of(alloc, circuit, obligations.found.as_slice(), index)?;
                Ok(Some(run))
            }
            Blocking::Blocked if level < frames.top() => {
                obligations.queue.add(level + 1, index)?;
                Ok(None)
            }
            Blocking::Blocked => Ok(None),
            Blocking::Predecessor(time) => {
                obligations.add_before(alloc, circuit, lifting, time, queued)?;
                Ok(None)
            }
            Blocking::Spent => Ok(Some(Finding::Unknown(Reason::Budget))),
        }
    }

    /// Blocks the obligations of the lowest frame first, and of these the one that was added last, or finds a run. Each one that is
    /// popped costs a step of the budget.
    fn block_all<P: Progress>(
        &mut self,
        circuit: &Model,
        frames: &mut Frames,
        lifting: &mut Lifting,
        obligations: &mut Obligations,
        progress: &mut P,
        budget: &mut Budget,
    ) -> Result<Option<Finding>, EngineError>
        requires for_bad { IsForBad circuit.now }
        requires sound { IsSound circuit.now self.old frames.old }
        requires ready { IsReady circuit.now lifting.old }
        requires obligations { AreObligations circuit.now obligations.old.found.items }
        requires frames { length obligations.old.queue.frames.items ≡ frames.old.top + 1 }
        requires queued { AreQueued (length obligations.old.found.items) obligations.old.queue }
        ensures top { frames.new.top ≡ frames.old.top }
        ensures spends { Spends budget.old budget.new }
        ensures sound { OnOk result (IsSound circuit.now self.new frames.new) }
        ensures ready { OnOk result (IsReady circuit.now lifting.new) }
        ensures lawful { IfOk result (λ r. IfSome r (IsFound circuit.now frames.new budget.new)) }
    {
        'blocking: while budget.tick() {
            let Some(queued) = obligations.queue.pop_min() else {
                return Ok(None);
            };
            progress.query_asked(budget);
            match self.block_queued(circuit, frames, lifting, obligations, queued, budget)? {
                Some(finding) => return Ok(Some(finding)),
                None => {}
            }
        }
        Ok(Some(Finding::Unknown(Reason::Budget)))
    }

    /// Blocks a time of the last frame at which the bad literal is true, and before it its
    /// predecessors, or finds a run. Each time stands for all states that lead on as its own
    /// does. Those of the lowest frame go first, and of these the one that was added last. What is blocked is an obligation of the
    /// next frame, so that all of a long way to the bad literal is blocked at once (Een, Mishchenko, Brayton 2011). Each
    /// obligation that is popped costs a step of the budget.
    pub fn block_obligations<P: Progress>(
        &mut self,
        circuit: &Model,
        frames: &mut Frames,
        lifting: &mut Lifting,
        time: Assignment,
        progress: &mut P,
        budget: &mut Budget,
    ) -> Result<Option<Finding>, EngineError>
        requires for_bad { IsForBad circuit.now }
        requires sound { IsSound circuit.now self.old frames.old }
        requires ready { IsReady circuit.now lifting.old }
        requires at { (w : Valuation) × IsAt circuit.now (bad_literal circuit.now 0 ∷ []) w time × (value_of w (bad_literal circuit.now 0) ≡ true) }
        ensures top { frames.new.top ≡ frames.old.top }
        ensures spends { Spends budget.old budget.new }
        ensures sound { OnOk result (IsSound circuit.now self.new frames.new) }
        ensures ready { OnOk result (IsReady circuit.now lifting.new) }
        ensures lawful { IfOk result (λ r. IfSome r (IsFound circuit.now frames.new budget.new)) }
    {
        let alloc = frames.allocator();
        let mut obligations = Obligations::first(alloc, circuit, lifting, time, frames.top())?;
        self.block_all(circuit, frames, lifting, &mut obligations, progress, budget)
    }
}
