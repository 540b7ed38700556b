//! The engine.

ghost use Rattle.base.specs.Budget.{Spends};
ghost use Rattle.engine.specs.Findings.{IsForBad};

use crate::clauses::clauses_of;
use crate::rounds::Guesses;
use base::{Budget, Refused};
use engine::{Counters, Engine, EngineError, Finding, Progress, Reason};
use graph::{MOST_VARIABLES, Model};
use latch_classes::{Classes, Search};
use random_runs::opened;
use solver::{PartSat, SatError};
use std::alloc::Global;

/// The greatest number of clauses of an invariant.
const GREATEST: usize = MOST_VARIABLES as usize;

/// Guesses which latches are equal, where the circuit seems to be two copies of one. What it answers need not be so.
#[derive(Drop)]
pub struct Guessing<S: PartSat, P: Progress> {
    solver: S,
    /// where each search reports its rounds
    progress: P,
    /// how many rounds there were
    rounds: u64,
}

/// Of the latch at a place whether it may be equal to an earlier one; none where it may be constant.
fn equality_of(classes: &Classes, place: usize) -> Option<bool> {
    let Some(class) = classes.class_of(place) else {
        return Some(false);
    };
    match classes.lead_of(class) {
        Some(lead) => Some(lead != place),
        None => None,
    }
}

/// Whether latches that may be equal to others are three quarters of the other ones that are not constant, or more, as where two
/// circuits are compared.
fn is_double(circuit: &Model, classes: &Classes) -> bool {
    let (mut others, mut equal) = (0_usize, 0_usize);
    for place in 0..circuit.latches().len() {
        match equality_of(classes, place) {
            Some(true) => equal = equal.saturating_add(1),
            Some(false) => others = others.saturating_add(1),
            None => {}
        }
    }
    0 < equal && others.saturating_sub(others / 4) <= equal
}

/// Splits the classes by simulation. Whether they are those of two copies.
fn simulate(
    alloc: Global,
    circuit: &Model,
    search: &mut Search,
    budget: &mut Budget,
) -> Result<bool, Refused>
    ensures { Spends budget.old budget.new }
{
    search.simulate(alloc, budget)?;
    if !is_double(circuit, &search.classes) {
        return Ok(false);
    }
    search.shake(alloc, budget)?;
    Ok(is_double(circuit, &search.classes))
}

impl<S: PartSat, P: Progress> Guessing<S, P> {
    /// An engine that asks this solver, and reports its rounds here.
    pub fn new(solver: S, progress: P) -> Guessing<S, P> {
        Guessing {
            solver,
            progress,
            rounds: 0,
        }
    }

    /// What is found, where the second circuit is the same, but that it begins in any state.
    fn guess(
        &mut self,
        alloc: Global,
        circuit: &Model,
        opened: &Model,
        budget: &mut Budget,
    ) -> Result<Finding, SatError>
        ensures { Spends budget.old budget.new }
    {
        let mut search = Search::new(alloc, circuit, opened)?;
        if !simulate(alloc, circuit, &mut search, budget)? {
            return Ok(Finding::Unknown(Reason::NoEvidence));
        }
        let mut guesses = Guesses { search, count: 0 };
        let (solver, progress) = (&mut self.solver, &mut self.progress);
        let are_settled = guesses.settle(solver, alloc, circuit, progress, budget)?;
        self.rounds = self.rounds.saturating_add(guesses.count);
        if are_settled {
            let clauses = clauses_of(alloc, circuit, &guesses.search.classes)?;
            if clauses.len() <= GREATEST {
                return Ok(Finding::Invariant(clauses));
            }
        }
        Ok(Finding::Unknown(Reason::NoEvidence))
    }
}

impl<S: PartSat, P: Progress> Engine for Guessing<S, P> {
    ghost honest = { λ _. ⊥ };

    ghost answers = { λ _ _ _ _ _. Unit {0} };

    /// Clauses that say which latches are equal, where rounds of guesses end in some. Nothing is proved of them.
    fn find(
        &mut self,
        alloc: Global,
        circuit: &Model,
        budget: &mut Budget,
    ) -> Result<Finding, EngineError>
        requires { IsForBad circuit.now }
        ensures spends { Spends budget.old budget.new }
    {
        let opened = opened(alloc, circuit)?;
        let opened = opened.as_ref().unwrap_or(circuit);
        Ok(self.guess(alloc, circuit, opened, budget)?)
    }

    fn count(&self, counters: &mut Counters) -> Result<(), Refused> {
        counters.add("corr", "rounds", self.rounds)?;
        counters.add_statistics("corr", &self.solver.statistics())
    }
}
