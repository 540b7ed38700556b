//! Lists of literals.

ghost use Rattle.std.specs.Prelude.{◌≡◌, ◌≢◌, ◌<◌, ◌^◌, pos, neg_ℤ, IsTrue, ◌↔◌, All, unsigned_abs};

/// The other literal of a variable.
pub fn negated(literal: i32) -> i32
    requires { unsigned_abs literal < 2 ^ 31 }
    ensures { result ≡ neg_ℤ literal }
{
    -literal
}

/// Whether no literal is 0.
pub fn are_nonzero(clause: &[i32]) -> bool
    ensures { IsTrue result ↔ All (λ l. l ≢ pos 0) clause.now }
{
    for literal in clause {
        if *literal == 0 {
            return false;
        }
    }
    true
}
