//! Literals, gates and latches of new variables.

ghost use Rattle.std.specs.Prelude.{◌≡◌, ◌+◌, ◌^◌, ◌<◌};
ghost use Rattle.live_safe.specs.Shadow.{positive as positive_of, negative as negative_of, negation as negation_of, joins as joins_of, cleared as cleared_of};

use graph::{Gate, Latch, Lit};

/// The variable's literal.
pub fn positive(variable: u32) -> Lit
    requires { variable < 2 ^ 31 }
    ensures { result ≡ positive_of variable }
{
    Lit(2 * variable)
}

/// The variable's negation.
pub fn negative(variable: u32) -> Lit
    requires { variable < 2 ^ 31 }
    ensures { result ≡ negative_of variable }
{
    Lit(2 * variable + 1)
}

/// The literal's negation.
pub fn negation(lit: Lit) -> Lit
    requires { lit.0 + 1 < 2 ^ 32 }
    ensures { result ≡ negation_of lit }
{
    if lit.is_negated() {
        Lit(lit.0 - 1)
    } else {
        Lit(lit.0 + 1)
    }
}

/// The gate that makes the variable the conjunction of the two literals.
pub fn joins(variable: u32, left: Lit, right: Lit) -> Gate
    requires { variable < 2 ^ 31 }
    ensures { result ≡ joins_of variable left right }
{
    Gate {
        lhs: positive(variable),
        rhs0: left,
        rhs1: right,
    }
}

/// The latch of the variable that is reset to 0.
pub fn cleared(variable: u32, next: Lit) -> Latch
    requires { variable < 2 ^ 31 }
    ensures { result ≡ cleared_of variable next }
{
    Latch {
        lit: positive(variable),
        next,
        reset: Lit(0),
    }
}
