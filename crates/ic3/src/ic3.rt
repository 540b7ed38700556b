//! The engine.

ghost use Rattle.std.specs.Prelude.{◌≡◌, IfOk};
ghost use Rattle.base.specs.Budget.{Spends};
ghost use Rattle.engine.specs.Findings.{IsForBad, IsSo};
ghost use Rattle.ic3.specs.Answers.{IsDecided};

use crate::search::search;
use base::{Budget, Refused, Seq};
use engine::{Counters, Engine, EngineError, Finding, Progress, Silent};
use graph::{Lit, Model};
use ic3_blocking::FrameSolver;
use solver::PartSat;
use std::alloc::Global;

/// IC3 (Bradley 2011) by any solver.
#[derive(Drop)]
pub struct Ic3<S: PartSat, P: Progress> {
    frame_solver: FrameSolver<S>,
    /// clauses that are tried first
    candidates: Option<Seq<Seq<Lit>>>,
    /// where each search reports its progress
    progress: P,
}

impl<S: PartSat> Ic3<S, Silent> {
    /// An engine that asks this solver.
    pub fn new(solver: S) -> Ic3<S, Silent> {
        Ic3 {
            frame_solver: FrameSolver::new(solver),
            candidates: None,
            progress: Silent,
        }
    }

    /// An engine that asks this solver, with clauses over a circuit's latches that are tried first. Each is a
    /// clause of the first frame if it has a literal that every initial state sets, and it holds after each step from
    /// such a state; from there it is propagated like any other. So an invariant of the circuit is found again at once. A
    /// clause that is over other variables, or has a latch twice, is passed over.
    pub fn with_candidates(solver: S, candidates: Seq<Seq<Lit>>) -> Ic3<S, Silent> {
        Ic3 {
            frame_solver: FrameSolver::new(solver),
            candidates: Some(candidates),
            progress: Silent,
        }
    }

    /// The same engine, whose searches report their progress here: each frame that is opened, and each query about the bad
    /// literal and about states that are to be blocked.
    pub fn with_progress<P: Progress>(self, progress: P) -> Ic3<S, P>
        ensures solver { result.frame_solver ≡ self.frame_solver }
        ensures candidates { result.candidates ≡ self.candidates }
        ensures progress { result.progress ≡ progress }
    {
        Ic3 {
            frame_solver: self.frame_solver,
            candidates: self.candidates,
            progress,
        }
    }
}

impl<S: PartSat, P: Progress> Ic3<S, P> {
    /// Where the searches reported their progress.
    pub fn into_progress(self) -> P
        ensures { result ≡ self.progress }
    {
        self.progress
    }
}

impl<S: PartSat, P: Progress> Engine for Ic3<S, P> {
    ghost honest = { λ _. Unit {0} };

    ghost answers = { λ _ m _ r after. IfOk r (IsSo m after) × IfOk r (IsDecided m) };

    /// Looks for an invariant that excludes the bad literal, or for a run that sets it. It knows
    /// nothing only where the budget is exhausted, or where there are a thousand million frames, of which none is the same as the
    /// next: then no run of as many steps sets it. Each candidate, each frame that is opened, each time
    /// that is blocked, each clause that is looked at and each query takes from the budget, besides
    /// what the solver spends.
    fn find(
        &mut self,
        alloc: Global,
        circuit: &Model,
        budget: &mut Budget,
    ) -> Result<Finding, EngineError>
        requires { IsForBad circuit.now }
        ensures spends { Spends budget.old budget.new }
        ensures so { IfOk result (IsSo circuit.now budget.new) }
        ensures known { IfOk result (IsDecided circuit.now) }
    {
        let candidates = match &self.candidates {
            Some(clauses) => clauses.as_slice(),
            None => &[],
        };
        search(
            &mut self.frame_solver,
            alloc,
            circuit,
            candidates,
            &mut self.progress,
            budget,
        )
    }

    fn count(&self, counters: &mut Counters) -> Result<(), Refused> {
        self.frame_solver.transition.add_counters(counters)
    }
}
