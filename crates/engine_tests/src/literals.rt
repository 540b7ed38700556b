//! Numbers that are literals.

ghost use Rattle.std.specs.Prelude.{◌↔◌, IsTrue, All};
ghost use Rattle.lrat.specs.Literals.{IsLiteral};

/// Whether each number is a literal of one of the variables 1 to `vars`.
pub fn are_literals(literals: &[i32], vars: u32) -> bool
    ensures { IsTrue result ↔ All (IsLiteral vars) literals.now }
{
    for literal in literals {
        if *literal == 0 || literal.unsigned_abs() > vars {
            return false;
        }
    }
    true
}
