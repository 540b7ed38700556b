//! Where a proof's check finds the clauses that hints name.

ghost use Rattle.std.specs.Prelude.{◌≡◌, ℕ, ℤ, List, Option, All, IfSome, option_map};
ghost use Rattle.lrat.specs.Found.{found_literals};
ghost use Rattle.lrat.specs.Literals.{IsLiteral};

use crate::found_clause::FoundClause;

/// Clauses by their ids, over the variables 1 to `vars`.
pub trait Lookup {
    /// the greatest variable
    ghost vars: { Self → ℕ };

    /// which clause has an id
    ghost find: { Self → ℕ → Option (List ℤ) };

    /// The greatest variable.
    fn vars(&self) -> u32
        ensures { result ≡ vars self.now };

    /// The clause with this id, if there is one.
    fn get(&self, id: u32) -> Option<FoundClause<'_>>
        ensures value { option_map found_literals result ≡ find self.now id }
        ensures in_range { IfSome result (λ c. All (IsLiteral (vars self.now)) (found_literals c)) };
}
