//! Two engines that share a budget.

ghost use Rattle.std.specs.Prelude.{◌≡◌, ◌≤◌, IfOk};
ghost use Rattle.std.specs.Mem.{type_size};
ghost use Rattle.base.specs.Sizes.{IsItemSize};
ghost use Rattle.base.specs.Budget.{Spends};
ghost use Rattle.engine.specs.Findings.{IsForBad, IsSo};
ghost use Rattle.strategies.specs.Shares.{AreInShares, IsOfPart, IsOfRest, IsShown};

use crate::timed::exhaust;
use base::{Budget, Refused, boxed};
use engine::{Counters, Engine, EngineError, Finding, Reason};
use graph::Model;
use std::alloc::Global;

/// Asks the engine with so many steps of the budget. That these are spent says nothing of the others.
fn ask_with<E: Engine>(
    engine: &mut E,
    alloc: Global,
    circuit: &Model,
    steps: u64,
    budget: &mut Budget,
) -> Result<Finding, EngineError>
    requires for_bad { IsForBad circuit.now }
    requires few { steps ≤ budget.old.left }
    ensures spends { Spends budget.old budget.new }
    ensures stays { E.honest engine.old → E.honest engine.new }
    ensures shown { E.honest engine.old → IfOk result (IsShown circuit.now) }
    ensures answered { IsOfPart (E.answers engine.old) circuit.now budget.old result }
{
    let mut part = Budget::new(steps);
    let answer = engine.find(alloc, circuit, &mut part);
    budget.spend(part.spent());
    answer
}

/// Asks the engine with what is left of the budget. Where nothing is known then, what it left is spent.
fn ask_last<E: Engine>(
    engine: &mut E,
    alloc: Global,
    circuit: &Model,
    budget: &mut Budget,
) -> Result<Finding, EngineError>
    requires { IsForBad circuit.now }
    ensures spends { Spends budget.old budget.new }
    ensures stays { E.honest engine.old → E.honest engine.new }
    ensures so { E.honest engine.old → IfOk result (IsSo circuit.now budget.new) }
    ensures answered { IsOfRest (E.answers engine.old) circuit.now budget.old result budget.new }
{
    match engine.find(alloc, circuit, budget)? {
        Finding::Unknown(_) => {
            exhaust(budget);
            Ok(Finding::Unknown(Reason::Budget))
        }
        found => Ok(found),
    }
}

/// Asks an engine with a part of the budget, and where that finds no evidence another one with what is left. Where neither does,
/// the budget is spent: neither comes further with what the other left.
#[derive(Drop)]
pub struct InShares<A: Engine, B: Engine> {
    first: Box<A>,
    second: Box<B>,
    /// the second one has at least one of so many parts of the budget
    parts: u64,
}

impl<A: Engine, B: Engine> InShares<A, B> {
    /// The engine that asks these two, the second one with at least one of so many parts of the budget.
    pub fn new(alloc: Global, first: A, second: B, parts: u64) -> Result<InShares<A, B>, Refused>
        requires first { IsItemSize (type_size A.row) }
        requires second { IsItemSize (type_size B.row) }
        ensures { IfOk result (λ e. (e.first.value ≡ first) × (e.second.value ≡ second)) }
    {
        Ok(InShares {
            first: boxed(alloc, first)?,
            second: boxed(alloc, second)?,
            parts,
        })
    }
}

impl<A: Engine, B: Engine> Engine for InShares<A, B> {
    ghost honest = { λ e. A.honest e.first.value × B.honest e.second.value };

    ghost answers = { λ e m before r after. AreInShares (A.answers e.first.value) (B.answers e.second.value) m before r after };

    fn find(
        &mut self,
        alloc: Global,
        circuit: &Model,
        budget: &mut Budget,
    ) -> Result<Finding, EngineError>
        requires { IsForBad circuit.now }
        ensures spends { Spends budget.old budget.new }
        ensures stays { A.honest self.old.first.value × B.honest self.old.second.value → A.honest self.new.first.value × B.honest self.new.second.value }
        ensures so { A.honest self.old.first.value × B.honest self.old.second.value → IfOk result (IsSo circuit.now budget.new) }
        ensures answered { AreInShares (A.answers self.old.first.value) (B.answers self.old.second.value) circuit.now budget.old result budget.new }
    {
        let left = budget.left();
        let steps = left.saturating_sub(left / self.parts.max(1));
        match ask_with(&mut *self.first, alloc, circuit, steps, budget)? {
            Finding::Invariant(clauses) => Ok(Finding::Invariant(clauses)),
            Finding::Run { initial, inputs } => Ok(Finding::Run { initial, inputs }),
            Finding::Unknown(_) => ask_last(&mut *self.second, alloc, circuit, budget),
        }
    }

    fn count(&self, counters: &mut Counters) -> Result<(), Refused> {
        self.first.count(counters)?;
        self.second.count(counters)
    }
}
