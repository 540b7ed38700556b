//! Clauses that hold at first, and after each step from a frame in which they hold.

ghost use Rattle.std.specs.Prelude.{◌≡◌, ◌<◌, ◌≤◌, true, None, Contains, IfOk, IfSome, OnOk};
ghost use Rattle.base.specs.Budget.{Spends};
ghost use Rattle.states.specs.States.{IsPartOf};
ghost use Rattle.ic3_frames.specs.Clauses.{IsResetLit};
ghost use Rattle.ic3_frames.specs.Frames.{IsStateClause, HoldsOnward};
ghost use Rattle.ic3_blocking.specs.Sound.{IsSound};
ghost use Rattle.ic3_blocking.specs.Answers.{HasLatch, IsFurthest, IsInductiveFrom, IsInductiveAnswer, IsShortened, IsTried};

use crate::frame_solver::FrameSolver;
use crate::order::{has_latch, rarest_first};
use crate::picked::{with_part, without};
use crate::reset::reset_literal;
use base::{Budget, Seq};
use engine::EngineError;
use graph::Model;
use ic3_frames::Frames;
use ic3_step::{Consecution, Counted};
use solver::PartSat;
use states::StateLit;

impl<S: PartSat> FrameSolver<S> {
    /// Asks whether the clause, which has a literal that every initial state sets, holds after each
    /// step from a state of the frame in which it holds. Where it does, what the solver needed of
    /// it is answered, with such a literal (Bradley 2011).
    pub(crate) fn inductive(
        &mut self,
        circuit: &Model,
        frames: &Frames,
        level: u32,
        clause: &[StateLit],
        first: StateLit,
        budget: &mut Budget,
    ) -> Result<Consecution, EngineError>
        requires sound { IsSound circuit.now self.old frames.now }
        requires clause { IsStateClause circuit.now clause.now }
        requires among { Contains clause.now first }
        requires reset { IsResetLit circuit.now.latches first }
        ensures spends { Spends budget.old budget.new }
        ensures sound { OnOk result (IsSound circuit.now self.new frames.now) }
        ensures lawful { IfOk result (IsInductiveAnswer circuit.now frames.now.entries level clause.now budget.new) }
    {
        self.make_room(circuit, frames)?;
        match self.relative(circuit, frames, level, clause, budget)? {
            Consecution::Held(part) => {
                let first = reset_literal(circuit.latches(), part.as_slice()).unwrap_or(first);
                let kept = with_part(frames.allocator(), clause, part.as_slice(), first)?;
                Ok(Consecution::Held(kept))
            }
            Consecution::Broken(time) => Ok(Consecution::Broken(time)),
            Consecution::Spent => Ok(Consecution::Spent),
        }
    }

    /// Asks for the clause without the literal of a latch, or for a part of that. It answers none only where the clause lacks the latch
    /// or needs it, or where the budget is exhausted.
    fn drop_literal(
        &mut self,
        circuit: &Model,
        frames: &Frames,
        level: u32,
        clause: &[StateLit],
        latch: u32,
        budget: &mut Budget,
    ) -> Result<Option<Seq<StateLit>>, EngineError>
        requires sound { IsSound circuit.now self.old frames.now }
        requires clause { IsStateClause circuit.now clause.now }
        ensures spends { Spends budget.old budget.new }
        ensures sound { OnOk result (IsSound circuit.now self.new frames.now) }
        ensures lawful { IfOk result (λ r. IfSome r (λ part. IsInductiveFrom circuit.now frames.now.entries level part × IsPartOf part clause.now)) }
        ensures without { IfOk result (λ r. IfSome r (λ part. HasLatch part latch → ⊥)) }
        ensures none { IfOk result (λ r. r ≡ None → IsTried circuit.now clause.now latch budget.new) }
    {
        if !has_latch(clause, latch) {
            return Ok(None);
        }
        let shorter = without(frames.allocator(), clause, latch)?;
        let Some(first) = reset_literal(circuit.latches(), shorter.as_slice()) else {
            return Ok(None);
        };
        let shorter = shorter.as_slice();
        self.transition.count(Counted::DropQuery);
        match self.inductive(circuit, frames, level, shorter, first, budget)? {
            Consecution::Held(part) => Ok(Some(part)),
            Consecution::Broken(_) => Ok(None),
            Consecution::Spent => Ok(None),
        }
    }

    /// Leaves out one literal after the other, the rarest latch first, wherever the clause stays
    /// inductive. It asks a query for each literal at most, and none for the latches of `needed`, a clause that was
    /// needed in the frame before: none of its literals could be left out there, so most likely it is needed as a whole.
    pub(crate) fn generalize(
        &mut self,
        circuit: &Model,
        frames: &Frames,
        level: u32,
        clause: Seq<StateLit>,
        needed: &[StateLit],
        budget: &mut Budget,
    ) -> Result<Seq<StateLit>, EngineError>
        requires sound { IsSound circuit.now self.old frames.now }
        requires inductive { IsInductiveFrom circuit.now frames.now.entries level clause }
        ensures spends { Spends budget.old budget.new }
        ensures sound { OnOk result (IsSound circuit.now self.new frames.now) }
        ensures inductive { IfOk result (IsInductiveFrom circuit.now frames.now.entries level) }
        ensures part { IfOk result (λ part. IsPartOf part clause) }
        ensures shortened { IfOk result (IsShortened circuit.now needed.now budget.new) }
    {
        let latches = rarest_first(frames.allocator(), frames.uses(), clause.as_slice(), needed)?;
        let mut kept = clause;
        'dropping: for latch in latches.as_slice() {
            if !budget.tick() {
                return Ok(kept);
            }
            let whole = kept.as_slice();
            match self.drop_literal(circuit, frames, level, whole, *latch, budget)? {
                Some(shorter) => kept = shorter,
                None => {}
            }
        }
        Ok(kept)
    }

    /// Whether the clause holds after each step from a state of the frame in which it holds, as far
    /// as the budget goes.
    pub(crate) fn is_onward(
        &mut self,
        circuit: &Model,
        frames: &Frames,
        level: u32,
        clause: &[StateLit],
        budget: &mut Budget,
    ) -> Result<bool, EngineError>
        requires sound { IsSound circuit.now self.old frames.now }
        requires clause { IsStateClause circuit.now clause.now }
        ensures spends { Spends budget.old budget.new }
        ensures sound { OnOk result (IsSound circuit.now self.new frames.now) }
        ensures onward { IfOk result (λ b. b ≡ true → HoldsOnward circuit.now frames.now.entries level clause.now) }
    {
        self.make_room(circuit, frames)?;
        self.transition.count(Counted::PushQuery);
        match self.relative(circuit, frames, level, clause, budget)? {
            Consecution::Held(_) => Ok(true),
            _ => Ok(false),
        }
    }

    /// The last frame below the top from which the clause is inductive, of those one after the
    /// other. Where it cannot be pushed on from the next one, that failed push is kept, so that propagation need not try it.
    pub(crate) fn furthest(
        &mut self,
        circuit: &Model,
        frames: &mut Frames,
        level: u32,
        clause: &[StateLit],
        budget: &mut Budget,
    ) -> Result<u32, EngineError>
        requires sound { IsSound circuit.now self.old frames.old }
        requires below { level < frames.old.top }
        requires inductive { IsInductiveFrom circuit.now frames.old.entries level clause.now }
        ensures entries { frames.new.entries ≡ frames.old.entries }
        ensures top { frames.new.top ≡ frames.old.top }
        ensures spends { Spends budget.old budget.new }
        ensures sound { OnOk result (IsSound circuit.now self.new frames.new) }
        ensures no_less { IfOk result (λ k. level ≤ k) }
        ensures below { IfOk result (λ k. k < frames.new.top) }
        ensures inductive { IfOk result (λ k. IsInductiveFrom circuit.now frames.new.entries k clause.now) }
        ensures furthest { IfOk result (IsFurthest circuit.now frames.new.top clause.now budget.new) }
    {
        let mut last = level;
        'pushing: for next in level + 1..frames.top() {
            if !budget.tick() {
                return Ok(last);
            }
            self.make_room(circuit, frames)?;
            self.transition.count(Counted::PushQuery);
            match self.relative(circuit, frames, next, clause, budget)? {
                Consecution::Held(_) => last = next,
                Consecution::Broken(time) => {
                    let pushed = Seq::from_slice(frames.allocator(), clause)?;
                    frames.add_failed_push(next, pushed, time.state)?;
                    return Ok(last);
                }
                Consecution::Spent => return Ok(last),
            }
        }
        Ok(last)
    }
}
