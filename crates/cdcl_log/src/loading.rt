//! The clauses of a formula in a kernel.

ghost use Rattle.std.specs.Prelude.{◌≡◌, ◌≢◌, IfErr, IfOk, map};
ghost use Rattle.cdcl_log.specs.Logged.{as_added};
ghost use Rattle.lrat.specs.Limits.{IsFormula};
ghost use Rattle.solver.specs.declared.sat_error.SatError.TheVariants.{Limit};
ghost use Rattle.solver.specs.Full.{full};

use cdcl_kernel::Kernel;
use lrat::Formula;
use solver::SatError;
use std::alloc::Global;

/// A kernel with the formula's clauses, under the ids 1, 2 and so on.
pub fn load(alloc: Global, formula: &Formula) -> Result<Kernel, SatError>
    requires { IsFormula formula.now }
    ensures vars { IfOk result (λ k. k.vars ≡ formula.now.vars) }
    ensures clauses { IfOk result (λ k. k.kept ≡ map as_added formula.now.clauses) }
    ensures unlimited { IfErr result (λ e. e ≢ Limit full) }
{
    let mut kernel = Kernel::new(alloc);
    kernel.reset(alloc, formula.vars)?;
    for clause in formula.clauses.as_slice() {
        kernel.add(clause.as_slice())?;
    }
    Ok(kernel)
}
