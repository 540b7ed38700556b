//! Literals, and clauses of one.

ghost use Rattle.std.specs.Prelude.{◌≡◌, ◌<◌, ◌^◌, ◌++◌, ◌∷◌, [], OnOk, neg_ℤ, pos, unsigned_abs, IfErr};
ghost use Rattle.lrat.specs.Literals.{IsLiteral};
ghost use Rattle.engine.specs.declared.engine_error.EngineError.TheVariants.{Limit};
ghost use Rattle.solver.specs.Full.{full};

use engine::EngineError;
use solver::Sat;
use std::alloc::Global;

/// The other literal of a variable.
pub fn negated(literal: i32) -> i32
    requires { unsigned_abs literal < 2 ^ 31 }
    ensures { result ≡ neg_ℤ literal }
{
    -literal
}

/// The literal that is true where its variable is.
pub fn positive(variable: u32) -> i32
    requires { variable < 2 ^ 31 }
    ensures { result ≡ pos variable }
{
    variable as i32
}

/// Adds a clause of one literal.
pub fn add_one<S: Sat>(solver: &mut S, alloc: Global, literal: i32) -> Result<(), EngineError>
    requires literal { IsLiteral (S.vars solver.old) literal }
    ensures vars { S.vars solver.new ≡ S.vars solver.old }
    ensures clauses { OnOk result (S.clauses solver.new ≡ S.clauses solver.old ++ (literal ∷ []) ∷ []) }
    ensures limit { IfErr result (λ e. e ≡ Limit full → S.is_full solver.new) }
{
    solver.add(alloc, &[literal])?;
    Ok(())
}
