//! Whether a clause holds after each step.

ghost use Rattle.std.specs.Prelude.{◌≡◌, ◌<◌, ℕ, List, length, All, IfOk, OnOk};
ghost use Rattle.base.specs.Budget.{Spends};
ghost use Rattle.cnf.specs.Clauses.{along as along_of};
ghost use Rattle.states.specs.States.{IsPartOf};
ghost use Rattle.ic3_step.specs.States.{Guarded};
ghost use Rattle.ic3_step.specs.Contents.{IsLoaded, HasGuards};
ghost use Rattle.ic3_step.specs.Steps.{IsConsecution, HasNeeded, denial, denials_of};

use crate::assignment::Assignment;
use crate::lookup::{contains, in_order};
use crate::order::by_activity;
use crate::reply::Reply;
use crate::transition::Transition;
use base::{Budget, Refused, Seq};
use engine::EngineError;
use graph::{Latch, Lit, Model};
use solver::PartSat;
use states::StateLit;
use std::alloc::Global;

/// What is known of a clause after each step.
#[derive(Drop)]
pub enum Consecution {
    /// This part of the clause holds after each.
    Held(Seq<StateLit>),
    /// The clause does not hold after the step from a time with this state and these inputs.
    Broken(Assignment),
    /// The budget is exhausted.
    Spent,
}

/// The literal, or its negation.
fn along(negated: bool, lit: Lit) -> Lit
    requires { lit.0 < 4294967295 }
    ensures { result ≡ along_of negated lit }
{
    if !negated {
        lit
    } else if lit.is_negated() {
        Lit(lit.0 - 1)
    } else {
        Lit(lit.0 + 1)
    }
}

/// The literal that is true where the latch's next value is another.
fn unset_after(latches: &[Latch], lit: StateLit) -> Lit
    requires latch { lit.latch < length latches.now }
    requires small { All (λ l. l.next.0 < 4294967295) latches.now }
    ensures { result ≡ denial latches.now lit }
{
    along(lit.value, latches[lit.latch as usize].next)
}

/// The literals that are true where the clause does not hold after the step: of each of its
/// latches the next literal or that one's negation. They are in the clause's order.
pub fn denials(alloc: Global, latches: &[Latch], clause: &[StateLit]) -> Result<Seq<Lit>, Refused>
    requires latches { All (λ a. a.latch < length latches.now) clause.now }
    requires small { All (λ l. l.next.0 < 4294967295) latches.now }
    ensures { IfOk result (λ lits. lits ≡ denials_of latches.now clause.now) }
{
    let mut lits = Seq::new(alloc);
    'denying: for lit in clause {
        lits.push(unset_after(latches, *lit))?;
    }
    Ok(lits)
}

/// The literals of a clause whose denials are in a core. It takes the time to sort the core, and a
/// look into it for each literal.
fn needed(
    alloc: Global,
    latches: &[Latch],
    clause: &[StateLit],
    core: &[Lit],
) -> Result<Seq<StateLit>, Refused>
    requires latches { All (λ a. a.latch < length latches.now) clause.now }
    requires small { All (λ l. l.next.0 < 4294967295) latches.now }
    ensures part { IfOk result (λ part. IsPartOf part clause.now) }
    ensures all { IfOk result (λ part. HasNeeded latches.now clause.now core.now part) }
{
    let numbers = in_order(alloc, core)?;
    let mut part = Seq::new(alloc);
    'choosing: for lit in clause {
        if contains(numbers.as_slice(), unset_after(latches, *lit).0) {
            part.push(*lit)?;
        }
    }
    Ok(part)
}

/// Asks for a time after which the clause does not hold, by its literals in their order.
fn ask_after<S: PartSat>(
    alloc: Global,
    transition: &mut Transition<S>,
    circuit: &Model,
    guards: &[u32],
    clause: &[StateLit],
    budget: &mut Budget,
) -> Result<Consecution, EngineError>
    requires loaded { HasGuards circuit.now guards.now transition.old }
    requires latches { All (λ a. a.latch < length circuit.now.latches) clause.now }
    ensures spends { Spends budget.old budget.new }
    ensures loaded { (n : ℕ) (gs : List Guarded) → IsLoaded circuit.now n gs transition.old → OnOk result (IsLoaded circuit.now n gs transition.new) }
    ensures lawful { (n : ℕ) (gs : List Guarded) → IsLoaded circuit.now n gs transition.old → IfOk result (IsConsecution circuit.now gs guards.now clause.now budget.new) }
{
    circuit.well_formed();
    let lits = denials(alloc, circuit.latches(), clause)?;
    match transition.ask(alloc, circuit, guards, lits.as_slice(), budget)? {
        Reply::Found(time) => Ok(Consecution::Broken(time)),
        Reply::Core(core) => {
            let part = needed(alloc, circuit.latches(), clause, core.as_slice())?;
            Ok(Consecution::Held(part))
        }
        Reply::Spent => Ok(Consecution::Spent),
    }
}

/// Asks whether the clause holds after each step from a time that keeps the constraints and in
/// whose state the clauses of these guards hold. Where it does, so does the part that is answered:
/// what the solver needed of it (Bradley 2011). Where it does not, they may be false in the state that is answered, by
/// latches that the step does not depend on. The literals of the most active latches, by their positions, are assumed first.
pub fn holds_after<S: PartSat>(
    alloc: Global,
    transition: &mut Transition<S>,
    circuit: &Model,
    guards: &[u32],
    clause: &[StateLit],
    activities: &[u64],
    budget: &mut Budget,
) -> Result<Consecution, EngineError>
    requires loaded { HasGuards circuit.now guards.now transition.old }
    requires latches { All (λ a. a.latch < length circuit.now.latches) clause.now }
    ensures spends { Spends budget.old budget.new }
    ensures loaded { (n : ℕ) (gs : List Guarded) → IsLoaded circuit.now n gs transition.old → OnOk result (IsLoaded circuit.now n gs transition.new) }
    ensures lawful { (n : ℕ) (gs : List Guarded) → IsLoaded circuit.now n gs transition.old → IfOk result (IsConsecution circuit.now gs guards.now clause.now budget.new) }
{
    let ordered = by_activity(alloc, clause, activities)?;
    ask_after(alloc, transition, circuit, guards, &ordered, budget)
}
