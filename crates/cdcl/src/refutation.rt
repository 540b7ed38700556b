//! Proofs that nothing satisfies a formula.

ghost use Rattle.std.specs.Prelude.{IfOk};
ghost use Rattle.base.specs.Budget.{Spends};
ghost use Rattle.cdcl.specs.Refutations.{IsProved};
ghost use Rattle.lrat.specs.Limits.{IsFormula};

use crate::refuted::Refuted;
use crate::refuter::Refuter;
use base::Budget;
use lrat::Formula;
use solver::SatError;
use std::alloc::Global;

/// Finds a proof that nothing satisfies the formula, or else a model: `Refuter::refute` without units.
pub fn refute(alloc: Global, formula: &Formula, budget: &mut Budget) -> Result<Refuted, SatError>
    requires { IsFormula formula.now }
    ensures spends { Spends budget.old budget.new }
    ensures lawful { IfOk result (IsProved formula.now budget.new) }
{
    let mut refuter = Refuter::new(alloc, formula, 0)?;
    refuter.refute(alloc, &[], budget)
}
