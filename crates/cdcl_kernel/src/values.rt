//! Values of variables in a list, each at its variable's index, and which clauses they satisfy.

ghost use Rattle.std.specs.Prelude.{◌≡◌, ◌<◌, ◌^◌, IsTrue, ◌↔◌, IfOk};
ghost use Rattle.cdcl_kernel.specs.Valued.{AreLastValues, valued};
ghost use Rattle.cdcl_kernel.specs.Verdicts.{IsSatisfiedBy};

use base::{Refused, filled};
use solver::is_true;
use std::alloc::Global;

/// The values of the variables 1 to `vars` by which the literals are true, after an index 0 that
/// is false. Variables of which there is no literal are false, literals of other variables are
/// passed over, and of a variable's literals the last one counts.
pub fn values_of(alloc: Global, vars: u32, literals: &[i32]) -> Result<Vec<bool>, Refused>
    requires { vars < 2 ^ 31 }
    ensures value { IfOk result (λ b. b.items ≡ valued vars literals.now) }
    ensures last { IfOk result (λ b. AreLastValues vars literals.now b.items) }
{
    let mut values = filled(alloc, false, vars as usize + 1)?;
    for literal in literals {
        let index = literal.unsigned_abs() as usize;
        if index < values.len() {
            values[index] = *literal > 0;
        }
    }
    Ok(values)
}

/// Whether one of the clause's literals is true.
pub fn satisfies(values: &[bool], clause: &[i32]) -> bool
    ensures { IsTrue result ↔ IsSatisfiedBy values.now clause.now }
{
    for literal in clause {
        if is_true(values, *literal) {
            return true;
        }
    }
    false
}
