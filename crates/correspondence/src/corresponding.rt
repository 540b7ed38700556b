//! The engine.

ghost use Rattle.std.specs.Prelude.{◌≡◌, IfOk};
ghost use Rattle.base.specs.Budget.{Spends};
ghost use Rattle.engine.specs.Findings.{IsForBad, IsSo};
ghost use Rattle.correspondence.specs.Answered.{IsAnswered};

use crate::equal_latches::Correspondence;
use crate::finding::correspond;
use crate::merging::find_merged;
use base::{Budget, Refused};
use engine::{Counters, Engine, EngineError, Finding, Progress, Silent};
use graph::Model;
use solver::PartSat;
use std::alloc::Global;

/// Which part of the budget it may take to look for equal latches.
const PARTS: u64 = 2;

/// Looks for an invariant of equal latches first. Where there is none, another engine is asked about the circuit in which
/// equal latches are merged.
#[derive(Drop)]
pub struct Corresponding<S: PartSat, E: Engine, P: Progress> {
    solver: S,
    inner: E,
    /// where each search reports its rounds
    progress: P,
    /// how many rounds of induction there were
    rounds: u64,
    /// how many clauses were found that say which latches are equal
    clauses: u64,
}

impl<S: PartSat, E: Engine> Corresponding<S, E, Silent> {
    /// An engine that asks this solver, and then that engine.
    pub fn new(solver: S, inner: E) -> Corresponding<S, E, Silent>
        ensures solver { result.solver ≡ solver }
        ensures inner { result.inner ≡ inner }
    {
        Corresponding {
            solver,
            inner,
            progress: Silent,
            rounds: 0,
            clauses: 0,
        }
    }

    /// The same engine, whose searches report their rounds of induction here.
    pub fn with_progress<P: Progress>(self, progress: P) -> Corresponding<S, E, P>
        ensures solver { result.solver ≡ self.solver }
        ensures inner { result.inner ≡ self.inner }
    {
        Corresponding {
            solver: self.solver,
            inner: self.inner,
            progress,
            rounds: self.rounds,
            clauses: self.clauses,
        }
    }
}

impl<S: PartSat, E: Engine, P: Progress> Engine for Corresponding<S, E, P> {
    ghost honest = { λ c. E.honest c.inner };

    ghost answers = { λ c m before r after. IsAnswered (E.answers c.inner) m before r after };

    /// Looks for an invariant of equal latches. Where there is none, asks the other engine with what is left of the budget: about
    /// the circuit in which equal latches are merged, and about the circuit as it is where none are known.
    fn find(
        &mut self,
        alloc: Global,
        circuit: &Model,
        budget: &mut Budget,
    ) -> Result<Finding, EngineError>
        requires { IsForBad circuit.now }
        ensures spends { Spends budget.old budget.new }
        ensures stays { E.honest self.old.inner → E.honest self.new.inner }
        ensures so { E.honest self.old.inner → IfOk result (IsSo circuit.now budget.new) }
        ensures answered { IsAnswered (E.answers self.old.inner) circuit.now budget.old result budget.new }
    {
        let mut piece = Budget::new(budget.left() / PARTS);
        let (solver, progress) = (&mut self.solver, &mut self.progress);
        let found = correspond(
            solver,
            alloc,
            circuit,
            &mut self.rounds,
            progress,
            &mut piece,
        )?;
        budget.spend(piece.spent());
        match found {
            Some(Correspondence::Invariant(invariant)) => {
                self.clauses = self.clauses.saturating_add(invariant.len() as u64);
                Ok(Finding::Invariant(invariant))
            }
            Some(Correspondence::Inductive(clauses)) => {
                self.clauses = self.clauses.saturating_add(clauses.len() as u64);
                find_merged(&mut self.inner, alloc, circuit, clauses, budget)
            }
            None => self.inner.find(alloc, circuit, budget),
        }
    }

    fn count(&self, counters: &mut Counters) -> Result<(), Refused> {
        counters.add("corr", "rounds", self.rounds)?;
        counters.add("corr", "clauses of equal latches", self.clauses)?;
        counters.add_statistics("corr", &self.solver.statistics())?;
        self.inner.count(counters)
    }
}
