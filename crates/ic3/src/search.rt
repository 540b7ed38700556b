//! The search through the frames.

ghost use Rattle.std.specs.Prelude.{◌≡◌, ◌⊎◌, ◌+◌, false, true, None, IfOk, IfSome, OnOk};
ghost use Rattle.base.specs.Budget.{Spends, Steps};
ghost use Rattle.cnf.specs.Formulas.{bad_literal};
ghost use Rattle.cnf.specs.Invariants.{IsInvariant};
ghost use Rattle.engine.specs.Findings.{IsForBad, IsSo};
ghost use Rattle.ic3_frames.specs.Frames.{AreFrames, Excludes};
ghost use Rattle.ic3_blocking.specs.Sound.{IsSound};
ghost use Rattle.ic3_blocking.specs.Cubes.{IsReady};
ghost use Rattle.ic3_blocking.specs.Answers.{AreApart, IsFound};
ghost use Rattle.ic3.specs.Answers.{IsDecided, IsDeep};

use base::{Budget, Refused, Seq};
use engine::{EngineError, Finding, Progress, Reason};
use graph::{Lit, Model};
use ic3_blocking::{AtBad, FrameSolver, Lifting};
use ic3_frames::Frames;
use ic3_propagation::{propagate, repeated};
use ic3_step::Counted;
use solver::PartSat;
use std::alloc::Global;

/// How many levels have guards at first.
const LEVELS: u32 = 32;

/// With more levels than this there are no guards for twice as many.
const MOST_DOUBLED: u32 = 1_000_000_000;

/// What frames come to of which no more can be opened: an invariant, where one is the same as the next, and else their number.
fn last_finding(circuit: &Model, frames: &Frames) -> Result<Finding, Refused>
    requires laws { AreFrames circuit.now (bad_literal circuit.now 0) frames.now }
    requires deep { IsDeep circuit.now frames.now.top }
    ensures { (after : Steps) → IfOk result (IsFound circuit.now frames.now after) }
{
    match repeated(circuit, frames)? {
        Some(clauses) => Ok(Finding::Invariant(clauses)),
        None => Ok(Finding::Unknown(Reason::Depth(frames.top()))),
    }
}

/// Opens the next frame. Where it has no guard, the circuit is loaded again, for twice as many
/// levels. With a thousand million frames there are no more: then it changes nothing and answers false.
fn open_next<S: PartSat>(
    solver: &mut FrameSolver<S>,
    circuit: &Model,
    frames: &mut Frames,
) -> Result<bool, EngineError>
    requires sound { IsSound circuit.now solver.old frames.old }
    requires excluded { Excludes circuit.now (bad_literal circuit.now 0) frames.old.entries frames.old.top }
    ensures sound { OnOk result (IsSound circuit.now solver.new frames.new) }
    ensures opened { IfOk result (λ opened. opened ≡ true → frames.new.top ≡ frames.old.top + 1) }
    ensures deep { IfOk result (λ opened. opened ≡ false → IsDeep circuit.now frames.new.top) }
{
    if frames.top() + 1 < solver.levels {
        frames.open();
        return Ok(true);
    }
    if solver.levels > MOST_DOUBLED {
        return Ok(false);
    }
    solver.load(circuit, frames, solver.levels * 2)?;
    frames.open();
    Ok(true)
}

/// Propagates clauses to the frame that was opened, the first time with the candidates, until one frame is the
/// same as the next: that one is an invariant.
fn propagation_phase<S: PartSat, P: Progress>(
    solver: &mut FrameSolver<S>,
    circuit: &Model,
    frames: &mut Frames,
    candidates: &[Seq<Lit>],
    progress: &mut P,
    budget: &mut Budget,
) -> Result<Option<Seq<Seq<Lit>>>, EngineError>
    requires sound { IsSound circuit.now solver.old frames.old }
    ensures top { frames.new.top ≡ frames.old.top }
    ensures spends { Spends budget.old budget.new }
    ensures sound { OnOk result (IsSound circuit.now solver.new frames.new) }
    ensures invariant { IfOk result (λ r. IfSome r (IsInvariant circuit.now)) }
    ensures none { IfOk result (λ r. r ≡ None → AreApart frames.new) }
{
    progress.frame_opened(frames.top(), frames.entries().len(), budget);
    solver.try_candidates(circuit, frames, candidates, budget)?;
    propagate(solver, circuit, frames, budget)
}

/// Opens the next frame, and propagates clauses to it. It answers the invariant that is found then, without the clauses that its
/// proof does not need, or what the frames come to where no more can be opened; and nothing only where no frame is the same as
/// the next.
fn deepen<S: PartSat, P: Progress>(
    solver: &mut FrameSolver<S>,
    circuit: &Model,
    frames: &mut Frames,
    candidates: &[Seq<Lit>],
    progress: &mut P,
    budget: &mut Budget,
) -> Result<Option<Finding>, EngineError>
    requires for_bad { IsForBad circuit.now }
    requires sound { IsSound circuit.now solver.old frames.old }
    requires excluded { Excludes circuit.now (bad_literal circuit.now 0) frames.old.entries frames.old.top }
    ensures spends { Spends budget.old budget.new }
    ensures sound { IfOk result (λ r. r ≡ None → IsSound circuit.now solver.new frames.new) }
    ensures found { IfOk result (λ r. IfSome r (IsFound circuit.now frames.new budget.new)) }
    ensures opened { IfOk result (λ r. r ≡ None → frames.new.top ≡ frames.old.top + 1) }
    ensures apart { IfOk result (λ r. r ≡ None → AreApart frames.new) }
{
    if !open_next(solver, circuit, frames)? {
        return Ok(Some(last_finding(circuit, frames)?));
    }
    match propagation_phase(solver, circuit, frames, candidates, progress, budget)? {
        Some(clauses) => {
            let needed = solver.reduced(frames.allocator(), circuit, clauses, budget)?;
            Ok(Some(Finding::Invariant(needed)))
        }
        None => Ok(None),
    }
}

/// Asks for the bad literal in the last frame, and then blocks what sets it, or opens the next frame. It answers what is found,
/// and nothing only where no frame was opened, or where none is the same as the next.
fn search_step<S: PartSat, P: Progress>(
    solver: &mut FrameSolver<S>,
    circuit: &Model,
    frames: &mut Frames,
    lifting: &mut Lifting,
    candidates: &[Seq<Lit>],
    progress: &mut P,
    budget: &mut Budget,
) -> Result<Option<Finding>, EngineError>
    requires for_bad { IsForBad circuit.now }
    requires sound { IsSound circuit.now solver.old frames.old }
    requires ready { IsReady circuit.now lifting.old }
    ensures spends { Spends budget.old budget.new }
    ensures sound { IfOk result (λ r. r ≡ None → IsSound circuit.now solver.new frames.new) }
    ensures ready { OnOk result (IsReady circuit.now lifting.new) }
    ensures found { IfOk result (λ r. IfSome r (IsFound circuit.now frames.new budget.new)) }
    ensures going { IfOk result (λ r. r ≡ None → (frames.new.top ≡ frames.old.top) ⊎ ((frames.new.top ≡ frames.old.top + 1) × AreApart frames.new)) }
{
    progress.query_asked(budget);
    solver.transition.count(Counted::BadQuery);
    match solver.at_bad(circuit, frames, budget)? {
        AtBad::Set(time) => {
            solver.block_obligations(circuit, frames, lifting, time, progress, budget)
        }
        AtBad::Excluded => deepen(solver, circuit, frames, candidates, progress, budget),
        AtBad::Spent => Ok(Some(Finding::Unknown(Reason::Budget))),
    }
}

/// Looks for an invariant that excludes the bad literal, or for a run that sets it, from frames
/// whose clauses the solver has.
fn search_from<S: PartSat, P: Progress>(
    solver: &mut FrameSolver<S>,
    circuit: &Model,
    frames: &mut Frames,
    lifting: &mut Lifting,
    candidates: &[Seq<Lit>],
    progress: &mut P,
    budget: &mut Budget,
) -> Result<Finding, EngineError>
    requires for_bad { IsForBad circuit.now }
    requires sound { IsSound circuit.now solver.old frames.old }
    requires ready { IsReady circuit.now lifting.old }
    ensures spends { Spends budget.old budget.new }
    ensures found { IfOk result (IsFound circuit.now frames.new budget.new) }
{
    'searching: while budget.tick() {
        match search_step(
            solver, circuit, frames, lifting, candidates, progress, budget,
        )? {
            Some(finding) => return Ok(finding),
            None => {}
        }
    }
    Ok(Finding::Unknown(Reason::Budget))
}

/// Looks for an invariant that excludes the bad literal, or for a run that sets it. The candidates are
/// tried first.
pub fn search<S: PartSat, P: Progress>(
    solver: &mut FrameSolver<S>,
    alloc: Global,
    circuit: &Model,
    candidates: &[Seq<Lit>],
    progress: &mut P,
    budget: &mut Budget,
) -> Result<Finding, EngineError>
    requires { IsForBad circuit.now }
    ensures spends { Spends budget.old budget.new }
    ensures so { IfOk result (IsSo circuit.now budget.new) }
    ensures decided { IfOk result (IsDecided circuit.now) }
{
    let mut frames = Frames::first(alloc, circuit)?;
    solver.load(circuit, &frames, LEVELS)?;
    let mut lifting = Lifting::new(alloc, circuit)?;
    progress.frame_opened(frames.top(), frames.entries().len(), budget);
    search_from(
        solver,
        circuit,
        &mut frames,
        &mut lifting,
        candidates,
        progress,
        budget,
    )
}
