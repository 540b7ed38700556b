//! Questions about a part first.

ghost use Rattle.std.specs.Prelude.{◌≡◌, All, IfOk};
ghost use Rattle.base.specs.Budget.{Spends};
ghost use Rattle.lrat.specs.Literals.{IsLiteral};
ghost use Rattle.solver.specs.Answers.{IsLawful};

use base::Budget;
use solver::{Answer, Part, PartSat, SatError};
use std::alloc::Global;

/// As `Sat::solve`, but that the part is asked about first. Where nothing satisfies the assumptions, it mostly costs the part alone.
pub fn ask<S: PartSat>(
    solver: &mut S,
    alloc: Global,
    part: &Part,
    assume: &[i32],
    budget: &mut Budget,
) -> Result<Answer, SatError>
    requires { All (IsLiteral (S.vars solver.old)) assume.now }
    ensures vars { S.vars solver.new ≡ S.vars solver.old }
    ensures clauses { S.clauses solver.new ≡ S.clauses solver.old }
    ensures spends { Spends budget.old budget.new }
    ensures lawful { IfOk result (IsLawful (S.vars solver.old) (S.clauses solver.old) assume.now budget.new) }
{
    match solver.solve_part(alloc, part, assume, budget)? {
        Answer::Model(_) => solver.solve(alloc, assume, budget),
        Answer::Core(core) => Ok(Answer::Core(core)),
        Answer::Spent => Ok(Answer::Spent),
    }
}
