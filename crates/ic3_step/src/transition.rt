//! One time of a circuit in a solver.

ghost use Rattle.std.specs.Prelude.{◌≡◌, ◌<◌, ◌≤◌, ◌++◌, ◌∷◌, [], ℕ, List, None, length, All, Contains, IfOk, IfSome, OnOk, OnErr};
ghost use Rattle.base.specs.Budget.{Spends};
ghost use Rattle.graph.specs.WellFormed.{used};
ghost use Rattle.cnf.specs.Formulas.{IsOverLatches};
ghost use Rattle.cnf.specs.Invariants.{IsInductive};
ghost use Rattle.ic3_step.specs.States.{Guarded};
ghost use Rattle.ic3_step.specs.Replies.{IsReply, IsUsable};
ghost use Rattle.ic3_step.specs.Contents.{IsLoaded, HasGuards};

use crate::cone::Cone;
use crate::counts::{Counted, Counts};
use crate::reply::Reply;
use crate::{asking, encoding};
use base::{Budget, Refused, Seq};
use engine::{Counters, EngineError};
use graph::{Lit, Model};
use inductive_subset::safe_inductive_subset;
use solver::{PartSat, Sat};
use states::StateLit;
use std::alloc::Global;

/// One time of a circuit in an incremental solver, with clauses over its state, each under a
/// guard. The solver has the clauses of the gates that were asked about and of what these are made
/// of. A contract sees its variables, its clauses and that cone, and only through `IsLoaded`.
#[derive(Drop)]
pub struct Transition<S: Sat> {
    solver: S,
    cone: Option<Cone>,
    /// what was counted since it was made
    counts: Counts,
}

impl<S: Sat> std::marker::Model for Transition<S> {
    ghost use Rattle.ic3_step.specs.Contents.{Contents};

    ghost Value = { Contents };

    ghost view = { λ t. record { vars = S.vars t.solver; clauses = S.clauses t.solver; cone = t.cone } };
}

impl<S: Sat> Transition<S> {
    /// A solver that has no circuit yet.
    pub fn new(solver: S) -> Self
        ensures { result ≡ record { vars = S.vars solver; clauses = S.clauses solver; cone = None } }
    {
        Transition {
            solver,
            cone: None,
            counts: Counts::new(),
        }
    }

    /// Begins anew with the constraints of the circuit, what they are made of, and room for the
    /// guards below `guards`, which with any circuit's variables are no more than 2,147,483,647. It
    /// costs the circuit. After a refusal it is to be loaded again.
    pub fn load(&mut self, alloc: Global, circuit: &Model, guards: u32) -> Result<(), EngineError>
        requires { guards ≤ 2143289343 }
        ensures { OnOk result (IsLoaded circuit.now guards [] self.new) }
    {
        let cone = encoding::load(&mut self.solver, alloc, circuit, guards)?;
        self.cone = Some(cone);
        Ok(())
    }

    /// Adds a clause that holds where its guard is assumed. A refusal changes nothing.
    pub fn add(
        &mut self,
        alloc: Global,
        circuit: &Model,
        guard: u32,
        clause: &[StateLit],
    ) -> Result<(), EngineError>
        requires loaded { HasGuards circuit.now (guard ∷ []) self.old }
        requires latches { All (λ a. a.latch < length circuit.now.latches) clause.now }
        ensures added { (n : ℕ) (gs : List Guarded) → IsLoaded circuit.now n gs self.old →
            OnOk result (IsLoaded circuit.now n (gs ++ record { guard = guard; clause = clause.now } ∷ []) self.new) }
        ensures err { OnErr result (self.new ≡ self.old) }
    {
        encoding::add(&mut self.solver, alloc, circuit, guard, clause)
    }

    /// Clauses of an invariant, in their order, that are one by themselves (`safe_inductive_subset`), by this solver. It
    /// is to be loaded again after that.
    pub fn safe_subset(
        &mut self,
        alloc: Global,
        circuit: &Model,
        invariant: &[Seq<Lit>],
        bad: Lit,
        budget: &mut Budget,
    ) -> Result<Option<Seq<Seq<Lit>>>, EngineError>
        requires over { All (IsOverLatches circuit.now) invariant.now }
        requires bad { Contains (used circuit.now) bad }
        ensures spends { Spends budget.old budget.new }
        ensures among { IfOk result (λ r. IfSome r (λ cs. All (Contains invariant.now) cs)) }
        ensures inductive { IfOk result (λ r. IfSome r (λ cs. IsInductive circuit.now invariant.now bad → IsInductive circuit.now cs bad)) }
    {
        let solver = &mut self.solver;
        Ok(safe_inductive_subset(solver, alloc, circuit, invariant, bad, budget)?)
    }

    /// Counts one more.
    pub fn count(&mut self, counted: Counted)
        ensures { self.new ≡ self.old }
    {
        self.counts.count(counted);
    }

    /// Counts the literals of a clause that is to block states.
    pub fn count_obligation(&mut self, literals: usize)
        ensures { self.new ≡ self.old }
    {
        self.counts.count_obligation(literals);
    }

    /// Counts how many literals a clause lost.
    pub fn count_dropped(&mut self, before: usize, after: usize)
        ensures { self.new ≡ self.old }
    {
        self.counts.count_dropped(before, after);
    }

    /// Counts how many clauses the frames lost.
    pub fn count_subsumed(&mut self, before: usize, after: usize)
        ensures { self.new ≡ self.old }
    {
        self.counts.count_subsumed(before, after);
    }

    /// Adds what was counted, and what the solver counted. The only refusal is out of memory.
    pub fn add_counters(&self, counters: &mut Counters) -> Result<(), Refused> {
        self.counts.add_to(counters)?;
        counters.add_statistics("ic3", &self.solver.statistics())
    }
}

impl<S: PartSat> Transition<S> {
    /// Asks for a time that keeps the constraints and at which the literals are true, in a state
    /// where the clauses of these guards hold. In a state that it finds they may be false by latches that
    /// the literals and the constraints do not depend on. It costs the guards, what the literals and the constraints are
    /// made of, the state and the inputs of what it finds, and what the solver does. After a refusal it is to be loaded again.
    pub fn ask(
        &mut self,
        alloc: Global,
        circuit: &Model,
        guards: &[u32],
        lits: &[Lit],
        budget: &mut Budget,
    ) -> Result<Reply, EngineError>
        requires loaded { HasGuards circuit.now guards.now self.old }
        requires lits { All (IsUsable circuit.now) lits.now }
        ensures spends { Spends budget.old budget.new }
        ensures loaded { (n : ℕ) (gs : List Guarded) → IsLoaded circuit.now n gs self.old → OnOk result (IsLoaded circuit.now n gs self.new) }
        ensures lawful { (n : ℕ) (gs : List Guarded) → IsLoaded circuit.now n gs self.old → IfOk result (IsReply circuit.now gs guards.now lits.now budget.new) }
    {
        match &mut self.cone {
            Some(cone) => asking::ask(&mut self.solver, alloc, circuit, cone, guards, lits, budget),
            None => unreachable!(),
        }
    }
}
