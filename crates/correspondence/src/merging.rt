//! Asking an engine about a circuit with merged latches.

ghost use Rattle.std.specs.Prelude.{◌≡◌, ◌++◌, IfOk, OnOk};
ghost use Rattle.base.specs.Budget.{Spends};
ghost use Rattle.engine.specs.Findings.{IsForBad, IsSo};
ghost use Rattle.merged.specs.Laws.{AreInductive, AreLaws};
ghost use Rattle.merged.specs.Merged.{IsMerged};
ghost use Rattle.correspondence.specs.Answered.{IsAnswered, carried as carried_of};

use base::{Budget, Refused, Seq};
use engine::{Engine, EngineError, Finding};
use graph::{Lit, Model};
use merged::merge;
use std::alloc::Global;

/// Adds clauses behind others.
fn append(alloc: Global, to: &mut Seq<Seq<Lit>>, clauses: &[Seq<Lit>]) -> Result<(), Refused>
    ensures { OnOk result (to.new ≡ to.old ++ clauses.now) }
{
    for clause in clauses {
        to.push(clause.copy(alloc)?)?;
    }
    Ok(())
}

/// What is found of the merged circuit, as a finding of the circuit: an invariant comes behind the clauses.
fn carried(alloc: Global, clauses: Seq<Seq<Lit>>, finding: Finding) -> Result<Finding, Refused>
    ensures { IfOk result (λ f. f ≡ carried_of clauses finding) }
{
    match finding {
        Finding::Invariant(invariant) => {
            let mut all = clauses;
            append(alloc, &mut all, invariant.as_slice())?;
            Ok(Finding::Invariant(all))
        }
        other => Ok(other),
    }
}

/// What the engine finds of the merged circuit.
fn find_in<E: Engine>(
    inner: &mut E,
    alloc: Global,
    circuit: &Model,
    merged: &Model,
    clauses: Seq<Seq<Lit>>,
    budget: &mut Budget,
) -> Result<Finding, EngineError>
    requires for_bad { IsForBad circuit.now }
    requires inductive_in { AreInductive circuit.now clauses }
    requires merged { IsMerged circuit.now merged.now clauses }
    requires laws { AreLaws circuit.now merged.now clauses }
    ensures spends { Spends budget.old budget.new }
    ensures stays { E.honest inner.old → E.honest inner.new }
    ensures so { E.honest inner.old → IfOk result (IsSo circuit.now budget.new) }
    ensures answered { IsAnswered (E.answers inner.old) circuit.now budget.old result budget.new }
{
    match inner.find(alloc, merged, budget) {
        Ok(finding) => Ok(carried(alloc, clauses, finding)?),
        Err(error) => Err(error),
    }
}

/// What the engine finds of the circuit in which latches that the clauses say to be equal are merged; of the circuit as it is
/// where they say so of none.
pub(crate) fn find_merged<E: Engine>(
    inner: &mut E,
    alloc: Global,
    circuit: &Model,
    clauses: Seq<Seq<Lit>>,
    budget: &mut Budget,
) -> Result<Finding, EngineError>
    requires for_bad { IsForBad circuit.now }
    requires inductive_in { AreInductive circuit.now clauses }
    ensures spends { Spends budget.old budget.new }
    ensures stays { E.honest inner.old → E.honest inner.new }
    ensures so { E.honest inner.old → IfOk result (IsSo circuit.now budget.new) }
    ensures answered { IsAnswered (E.answers inner.old) circuit.now budget.old result budget.new }
{
    match merge(alloc, circuit, clauses.as_slice())? {
        Some(merged) => find_in(inner, alloc, circuit, &merged, clauses, budget),
        None => inner.find(alloc, circuit, budget),
    }
}
