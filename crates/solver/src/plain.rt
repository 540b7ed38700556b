//! A solver by backtracking.

ghost use Rattle.std.specs.Prelude.{◌≡◌, ◌≤◌, ◌++◌, ◌∷◌, [], ℕ, ℤ, List, length, All, IfOk, IfErr, OnOk, OnErr};
ghost use Rattle.base.specs.Budget.{Spends};
ghost use Rattle.base.specs.Witness.{witness};
ghost use Rattle.lrat.specs.Literals.{IsLiteral};
ghost use Rattle.solver.specs.Answers.{IsLawful};
ghost use Rattle.solver.specs.Parts.{IsLawfulPart};
ghost use Rattle.solver.specs.declared.sat_error.SatError.TheVariants.{Limit, OutOfMemory};
ghost use Rattle.solver.specs.Full.{full};

use crate::answer::Answer;
use crate::full::Taken;
use crate::part::Part;
use crate::part_sat::PartSat;
use crate::sat::Sat;
use crate::sat_error::SatError;
use crate::search::search;
use crate::statistics::Statistics;
use crate::values::{are_true, fits_gates};
use base::{Budget, Seq};
use lrat::{Clause, Formula};
use std::alloc::Global;
use std::marker::Model;

/// A solver that tries the values of the variables in order, and goes back where a clause or an
/// assumption is false. It is short, to check faster solvers by; it remembers nothing but the
/// clauses from one call to the next.
#[derive(Drop)]
pub struct Plain {
    formula: Formula,
}

impl Model for Plain {
    ghost use Rattle.lrat.specs.declared.formula.Formula.{Formula};
    ghost use Rattle.lrat.specs.Limits.{IsFormula};

    ghost Value = { Formula };

    ghost view = { λ s. s.formula };

    ghost invariant = { λ s. IsFormula s.formula };
}

impl Plain {
    /// A solver over no variables and without clauses, which takes no memory.
    pub fn new(alloc: Global) -> Plain
        ensures { result ≡ record { vars = 0; clauses = [] } }
    {
        Plain {
            formula: Formula {
                vars: 0,
                clauses: Seq::new(alloc),
            },
        }
    }
}

/// Spends all steps that are left.
fn exhaust(budget: &mut Budget)
    ensures spends { Spends budget.old budget.new }
    ensures none { budget.new.left ≡ 0 }
{
    let left = budget.left();
    budget.spend(left);
}

/// What an answer by all clauses says of a part: a model that doesn't fit it is none, and the budget is exhausted.
fn answer_of(answer: Answer, part: &Part, budget: &mut Budget) -> Answer
    ensures spends { Spends budget.old budget.new }
    ensures lawful { (n : ℕ) (cs : List (List ℤ)) (assume : List ℤ) → IsLawful n cs assume budget.old answer → IsLawfulPart n cs part.now assume budget.new result }
{
    let Answer::Model(values) = answer else {
        return answer;
    };
    let fits = fits_gates(values.as_slice(), part.gates.as_slice());
    if fits && are_true(values.as_slice(), part.literals.as_slice()) {
        return Answer::Model(values);
    }
    exhaust(budget);
    Answer::Spent
}

impl Sat for Plain {
    ghost vars = { λ s. s.vars };

    ghost clauses = { λ s. s.clauses };

    ghost is_full = { λ s. length s.clauses ≡ 4294967295 };

    fn reset(&mut self, alloc: Global, count: u32) -> Result<(), SatError> {
        self.formula = Formula {
            vars: count,
            clauses: Seq::new(alloc),
        };
        Ok(())
    }

    fn vars(&self) -> u32 {
        self.formula.vars
    }

    /// Adds a clause, and refuses one as over the limit only where there are 4,294,967,295.
    fn add(&mut self, alloc: Global, clause: &[i32]) -> Result<(), SatError>
        requires { All (IsLiteral self.old.vars) clause.now }
        ensures vars { self.new.vars ≡ self.old.vars }
        ensures ok { OnOk result (self.new.clauses ≡ self.old.clauses ++ clause.now ∷ []) }
        ensures few { OnOk result (length self.new.clauses ≤ 4294967295) }
        ensures err { OnErr result (self.new.clauses ≡ self.old.clauses) }
        ensures limit { IfErr result (λ e. e ≡ Limit full → (length self.old.clauses ≡ 4294967295) × (length self.new.clauses ≡ 4294967295)) }
    {
        Taken::by(self.formula.clauses.as_slice(), 0).next_id(&[])?;
        let clause = Clause::from_slice(alloc, clause)?;
        self.formula.clauses.push(clause)?;
        Ok(())
    }

    /// Finds a model or a core. The only refusal is out of memory.
    fn solve(
        &mut self,
        alloc: Global,
        assume: &[i32],
        budget: &mut Budget,
    ) -> Result<Answer, SatError>
        requires { All (IsLiteral self.old.vars) assume.now }
        ensures vars { self.new.vars ≡ self.old.vars }
        ensures clauses { self.new.clauses ≡ self.old.clauses }
        ensures spends { Spends budget.old budget.new }
        ensures lawful { IfOk result (IsLawful self.old.vars self.old.clauses assume.now budget.new) }
        ensures refused { IfErr result (λ e. e ≡ OutOfMemory witness) }
    {
        let formula = &self.formula;
        search(
            alloc,
            formula.vars,
            formula.clauses.as_slice(),
            assume,
            budget,
        )
    }

    /// It counts nothing.
    fn statistics(&self) -> Statistics {
        Statistics::new()
    }
}

impl PartSat for Plain {
    /// By all clauses. Where the values that satisfy them don't fit the part, the budget is exhausted.
    fn solve_part(
        &mut self,
        alloc: Global,
        part: &Part,
        assume: &[i32],
        budget: &mut Budget,
    ) -> Result<Answer, SatError>
        requires { All (IsLiteral self.old.vars) assume.now }
        ensures vars { self.new.vars ≡ self.old.vars }
        ensures clauses { self.new.clauses ≡ self.old.clauses }
        ensures spends { Spends budget.old budget.new }
        ensures lawful { IfOk result (IsLawfulPart self.old.vars self.old.clauses part.now assume.now budget.new) }
        ensures refused { IfErr result (λ e. e ≡ OutOfMemory witness) }
    {
        let answer = self.solve(alloc, assume, budget)?;
        Ok(answer_of(answer, part, budget))
    }
}
