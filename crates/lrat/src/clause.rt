//! Clauses.

ghost use Rattle.std.specs.Prelude.{◌≡◌, IfOk};

use base::{Refused, small};
use smallvec::SmallVec;
use std::alloc::Global;
use std::marker::Model;

/// A clause, which a contract sees as the list of its literals. Up to four take no memory of
/// their own.
#[derive(Drop)]
pub struct Clause {
    literals: SmallVec<i32, 4>,
}

impl Model for Clause {
    ghost use Rattle.std.specs.Prelude.{ℤ, List};

    ghost Value = { List ℤ };

    ghost view = { λ c. c.literals.items };
}

impl Clause {
    /// The clause of these literals.
    pub fn from_slice(alloc: Global, literals: &[i32]) -> Result<Clause, Refused>
        ensures { IfOk result (λ c. c ≡ literals.now) }
    {
        Ok(Clause {
            literals: small(alloc, literals)?,
        })
    }

    /// The literals in order.
    pub fn as_slice(&self) -> &[i32]
        ensures { result.now ≡ self.now }
    {
        self.literals.as_slice()
    }
}
