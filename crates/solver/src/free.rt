//! Variables that nothing mentions.

ghost use Rattle.std.specs.Prelude.{◌↔◌, IsTrue};
ghost use Rattle.solver.specs.Branches.{Lacks, IsFree};

use lrat::Clause;

/// Whether none of the literals is of the variable.
fn lacks(literals: &[i32], variable: usize) -> bool
    ensures { IsTrue result ↔ Lacks variable literals.now }
{
    for literal in literals {
        if literal.unsigned_abs() as usize == variable {
            return false;
        }
    }
    true
}

/// Whether neither the clauses nor the assumptions have the variable, whose value then changes
/// nothing.
pub fn is_free(clauses: &[Clause], assume: &[i32], variable: usize) -> bool
    ensures { IsTrue result ↔ IsFree variable clauses.now assume.now }
{
    for clause in clauses {
        if !lacks(clause.as_slice(), variable) {
            return false;
        }
    }
    lacks(assume, variable)
}
