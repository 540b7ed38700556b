//! The search through all values, one variable after the other.

ghost use Rattle.std.specs.Prelude.{◌≡◌, ◌<◌, true, false, length, IfOk, IfErr, All};
ghost use Rattle.base.specs.Budget.{Spends};
ghost use Rattle.base.specs.Witness.{witness};
ghost use Rattle.lrat.specs.Literals.{IsLiteral};
ghost use Rattle.solver.specs.Answers.{IsLawful};
ghost use Rattle.solver.specs.declared.sat_error.SatError.TheVariants.{OutOfMemory};
ghost use Rattle.solver.specs.Branches.{IsNextBranch, IsLastBranch};

use crate::answer::Answer;
use crate::free::is_free;
use crate::look::{Seen, look};
use crate::sat_error::SatError;
use base::{Budget, copied, push};
use lrat::Clause;
use std::alloc::Global;

/// Goes on to the next branch: variables with no other value to try, as they are true or free, have
/// none any more, and the last of the others becomes true. Answers false where there is no other.
fn next_branch(values: &mut Vec<bool>, clauses: &[Clause], assume: &[i32]) -> bool
    requires { 0 < length values.old.items }
    ensures next { result ≡ true → IsNextBranch clauses.now assume.now values.old.items values.new.items }
    ensures last { result ≡ false → IsLastBranch clauses.now assume.now values.old.items }
{
    while values.len() > 1 {
        let last = values.len() - 1;
        if !values[last] && !is_free(clauses, assume, last) {
            values[last] = true;
            return true;
        }
        values.truncate(last);
    }
    false
}

/// Tries the values of the variables 1 to `vars` in order, false before true, and goes back where
/// a clause or an assumption is false whatever the other variables are. A variable that is in none
/// of them stays false. The core has the assumptions that were found false. Each look at a clause
/// for its values is a step, and so is each branch; a look for a variable is none.
pub fn search(
    alloc: Global,
    vars: u32,
    clauses: &[Clause],
    assume: &[i32],
    budget: &mut Budget,
) -> Result<Answer, SatError>
    requires clauses { All (λ c. All (IsLiteral vars) c) clauses.now }
    requires assumed { All (IsLiteral vars) assume.now }
    ensures spends { Spends budget.old budget.new }
    ensures lawful { IfOk result (IsLawful vars clauses.now assume.now budget.new) }
    ensures refused { IfErr result (λ e. e ≡ OutOfMemory witness) }
{
    let mut core = Vec::new(alloc);
    let mut values = copied(alloc, &[false])?;
    'searching: while budget.tick() {
        match look(values.as_slice(), clauses, assume, &mut core, budget)? {
            Seen::Spent => return Ok(Answer::Spent),
            Seen::Closed => {
                if !next_branch(&mut values, clauses, assume) {
                    return Ok(Answer::Core(core));
                }
            }
            Seen::Open => {
                if values.len() > vars as usize {
                    return Ok(Answer::Model(values));
                }
                push(&mut values, false)?;
            }
        }
    }
    Ok(Answer::Spent)
}
