//! What every solver keeps to.

ghost use Rattle.std.specs.Prelude.{◌≡◌, ◌≢◌, ◌≤◌, ◌++◌, ◌∷◌, [], ℕ, ℤ, List, length, All, IfOk, IfErr, OnOk, OnErr};
ghost use Rattle.base.specs.Budget.{Spends};
ghost use Rattle.lrat.specs.Literals.{IsLiteral};
ghost use Rattle.solver.specs.Answers.{IsLawful};
ghost use Rattle.solver.specs.declared.sat_error.SatError.TheVariants.{Limit};
ghost use Rattle.solver.specs.Full.{full};

use crate::answer::Answer;
use crate::sat_error::SatError;
use crate::statistics::Statistics;
use base::Budget;
use std::alloc::Global;

/// A solver of clauses over the variables 1 to `vars`, to which clauses are added and which is
/// asked under assumptions as often as one likes.
pub trait Sat: Drop {
    /// the greatest variable
    ghost vars: { Self → ℕ };

    /// the clauses that were added since the last `reset`, in order
    ghost clauses: { Self → List (List ℤ) };

    /// all ids of clauses are taken: by those that were added, and by those that it learned
    ghost is_full: { Self → Type 0 };

    /// Begins anew, with the variables 1 to `count` and no clauses. A refusal changes nothing, and
    /// is never `Limit`.
    fn reset(&mut self, alloc: Global, count: u32) -> Result<(), SatError>
        requires { count ≤ 2147483647 }
        ensures vars { OnOk result (vars self.new ≡ count) }
        ensures clauses { OnOk result (clauses self.new ≡ []) }
        ensures free { OnOk result (is_full self.new → ⊥) }
        ensures err_vars { OnErr result (vars self.new ≡ vars self.old) }
        ensures err_clauses { OnErr result (clauses self.new ≡ clauses self.old) }
        ensures unlimited { IfErr result (λ e. e ≢ Limit full) };

    /// The greatest variable.
    fn vars(&self) -> u32
        ensures value { result ≡ vars self.now }
        ensures fits { vars self.now ≤ 2147483647 };

    /// Adds a clause, whose id is the number of clauses then. A refusal changes nothing, and is
    /// `Limit` only where all ids are taken.
    fn add(&mut self, alloc: Global, clause: &[i32]) -> Result<(), SatError>
        requires { All (IsLiteral (vars self.old)) clause.now }
        ensures vars { vars self.new ≡ vars self.old }
        ensures ok { OnOk result (clauses self.new ≡ clauses self.old ++ clause.now ∷ []) }
        ensures few { OnOk result (length (clauses self.new) ≤ 4294967295) }
        ensures err { OnErr result (clauses self.new ≡ clauses self.old) }
        ensures limit { IfErr result (λ e. e ≡ Limit full → is_full self.old × is_full self.new) };

    /// Finds values that satisfy the clauses and the assumptions, or part of the assumptions that
    /// nothing satisfies together with the clauses. Each look at a clause for its values and each
    /// decision is a step of the budget. The clauses stay, whatever it answers. It is refused for
    /// `Limit` only where all ids are taken then.
    fn solve(
        &mut self,
        alloc: Global,
        assume: &[i32],
        budget: &mut Budget,
    ) -> Result<Answer, SatError>
        requires { All (IsLiteral (vars self.old)) assume.now }
        ensures vars { vars self.new ≡ vars self.old }
        ensures clauses { clauses self.new ≡ clauses self.old }
        ensures spends { Spends budget.old budget.new }
        ensures lawful { IfOk result (IsLawful (vars self.old) (clauses self.old) assume.now budget.new) }
        ensures limit { IfErr result (λ e. e ≡ Limit full → is_full self.new) };

    /// What it counted since it was made. No contract speaks of it.
    fn statistics(&self) -> Statistics;
}
