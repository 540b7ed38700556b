//! Clauses as a look-up finds them.

ghost use Rattle.std.specs.Prelude.{◌≡◌};
ghost use Rattle.lrat.specs.Found.{found_literals};

/// A clause that was found: where it is kept, or made for the look at it.
#[derive(Clone, Copy)]
pub enum FoundClause<'a> {
    /// kept as a list
    Slice(&'a [i32]),
    /// made, of two literals
    Pair([i32; 2]),
    /// made, of three literals
    Triple([i32; 3]),
}

impl<'a> FoundClause<'a> {
    /// The literals in order.
    #[inline(always)]
    pub fn as_slice(&self) -> &[i32]
        ensures { result.now ≡ found_literals self.now }
    {
        match self {
            FoundClause::Slice(clause) => clause,
            FoundClause::Pair(clause) => clause,
            FoundClause::Triple(clause) => clause,
        }
    }
}
