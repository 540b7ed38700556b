//! Clauses that are propagated to the next frame.

ghost use Rattle.std.specs.Prelude.{◌≡◌, ◌⊎◌, ◌<◌, length, take, None, All, Contains, IfOk, IfSome, OnOk};
ghost use Rattle.base.specs.Budget.{Spends};
ghost use Rattle.cnf.specs.Formulas.{bad_literal};
ghost use Rattle.cnf.specs.Invariants.{IsInvariant};
ghost use Rattle.ic3_frames.specs.Frames.{AreFrames};
ghost use Rattle.ic3_blocking.specs.Answers.{AreApart};
ghost use Rattle.ic3_propagation.specs.Answers.{CannotPropagate};
ghost use Rattle.ic3_blocking.specs.Sound.{IsSound};

use base::{Budget, Refused, Seq};
use engine::EngineError;
use graph::{Lit, Model};
use ic3_blocking::FrameSolver;
use ic3_frames::Frames;
use ic3_step::{Consecution, Counted};
use solver::PartSat;

/// The invariant that the first frame is, of those behind the initial states, that is the same as the next one.
pub fn repeated(circuit: &Model, frames: &Frames) -> Result<Option<Seq<Seq<Lit>>>, Refused>
    requires { AreFrames circuit.now (bad_literal circuit.now 0) frames.now }
    ensures invariant { IfOk result (λ r. IfSome r (IsInvariant circuit.now)) }
    ensures none { IfOk result (λ r. r ≡ None → AreApart frames.now) }
{
    'comparing: for level in 1..frames.top() {
        match frames.invariant_at(frames.allocator(), circuit, level)? {
            Some(clauses) => return Ok(Some(clauses)),
            None => {}
        }
    }
    Ok(None)
}

/// Propagates the clause at a place to the next frame, if it ends at the level and holds after
/// each step from there; those that it subsumes there are dropped. It answers the place of the clause that comes next: what is
/// in front of that was in front of the clause, or cannot be propagated.
fn propagate_clause<S: PartSat>(
    solver: &mut FrameSolver<S>,
    circuit: &Model,
    frames: &mut Frames,
    level: u32,
    place: usize,
    budget: &mut Budget,
) -> Result<usize, EngineError>
    requires sound { IsSound circuit.now solver.old frames.old }
    requires below { level < frames.old.top }
    requires place { place < length frames.old.entries }
    ensures top { frames.new.top ≡ frames.old.top }
    ensures spends { Spends budget.old budget.new }
    ensures sound { OnOk result (IsSound circuit.now solver.new frames.new) }
    ensures passed { IfOk result (λ next. All (λ e. Contains (take place frames.old.entries) e ⊎ CannotPropagate circuit.now level budget.new e) (take next frames.new.entries)) }
{
    let alloc = frames.allocator();
    let entry = &frames.entries()[place];
    if entry.level != level {
        return Ok(place + 1);
    }
    let clause = entry.clause.as_slice();
    if frames.push_fails_again(level, clause) {
        return Ok(place + 1);
    }
    solver.transition.count(Counted::PushQuery);
    match solver.after(circuit, frames, level, clause, budget)? {
        Consecution::Held(_) => {
            solver.add_clause(alloc, circuit, level + 1, clause)?;
            solver.count_propagated();
            let before = frames.entries().len();
            let kept = frames.propagate(alloc, place)?;
            solver.transition.count(Counted::PushedClause);
            solver
                .transition
                .count_subsumed(before, frames.entries().len());
            Ok(kept + 1)
        }
        Consecution::Broken(time) => {
            let pushed = Seq::from_slice(alloc, clause)?;
            frames.add_failed_push(level, pushed, time.state)?;
            Ok(place + 1)
        }
        Consecution::Spent => Ok(place + 1),
    }
}

/// Propagates the clauses that end at the level to the next frame, each that holds after each
/// step from there. Each clause of the frames costs a step of the budget. Those that still end at the level then cannot be
/// propagated, or the budget is exhausted.
fn propagate_level<S: PartSat>(
    solver: &mut FrameSolver<S>,
    circuit: &Model,
    frames: &mut Frames,
    level: u32,
    budget: &mut Budget,
) -> Result<(), EngineError>
    requires sound { IsSound circuit.now solver.old frames.old }
    requires below { level < frames.old.top }
    ensures top { frames.new.top ≡ frames.old.top }
    ensures spends { Spends budget.old budget.new }
    ensures sound { OnOk result (IsSound circuit.now solver.new frames.new) }
    ensures propagated { OnOk result (All (CannotPropagate circuit.now level budget.new) frames.new.entries) }
{
    let mut place = 0;
    'propagating: while place < frames.entries().len() {
        if !budget.tick() {
            return Ok(());
        }
        solver.make_room(circuit, frames)?;
        place = propagate_clause(solver, circuit, frames, level, place, budget)?;
    }
    Ok(())
}

/// Propagates clauses to the next frames, until one frame is the same as the next: that one is an
/// invariant. Where a clause that is propagated subsumes all that end at a level before, that frame is one too.
pub fn propagate<S: PartSat>(
    solver: &mut FrameSolver<S>,
    circuit: &Model,
    frames: &mut Frames,
    budget: &mut Budget,
) -> Result<Option<Seq<Seq<Lit>>>, EngineError>
    requires sound { IsSound circuit.now solver.old frames.old }
    ensures top { frames.new.top ≡ frames.old.top }
    ensures spends { Spends budget.old budget.new }
    ensures sound { OnOk result (IsSound circuit.now solver.new frames.new) }
    ensures invariant { IfOk result (λ r. IfSome r (IsInvariant circuit.now)) }
    ensures none { IfOk result (λ r. r ≡ None → AreApart frames.new) }
{
    'propagating: for level in 1..frames.top() {
        propagate_level(solver, circuit, frames, level, budget)?;
        match frames.invariant_at(frames.allocator(), circuit, level)? {
            Some(clauses) => return Ok(Some(clauses)),
            None => {}
        }
    }
    Ok(repeated(circuit, frames)?)
}
