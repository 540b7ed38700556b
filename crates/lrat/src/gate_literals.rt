//! AND gates as literals.

ghost use Rattle.std.specs.Prelude.{◌≡◌, ◌+◌, ◌≤◌, ◌<◌, [], get_or, unsigned_abs};
ghost use Rattle.lrat.specs.Found.{found_literals};
ghost use Rattle.lrat.specs.Rows.{FitsMoved, HasNegations, and_clauses, moved_gate, moved_literal};

use crate::found_clause::FoundClause;

/// The literals of an AND gate: the output is true exactly where both sides are. Three clauses say
/// so, and it stands for them in 12 bytes.
#[derive(Clone, Copy)]
pub struct GateLiterals {
    pub output: i32,
    pub left: i32,
    pub right: i32,
}

/// The literal whose variable is greater by so much.
#[inline(always)]
fn moved_up(literal: i32, shift: u32) -> i32
    requires { unsigned_abs literal + shift ≤ 2147483647 }
    ensures { result ≡ moved_literal shift literal }
{
    if literal < 0 {
        literal - shift as i32
    } else {
        literal + shift as i32
    }
}

impl GateLiterals {
    /// The same gate over variables that are greater by so much.
    #[inline(always)]
    fn moved(self, shift: u32) -> GateLiterals
        requires { FitsMoved shift self }
        ensures { result ≡ moved_gate shift self }
    {
        GateLiterals {
            output: moved_up(self.output, shift),
            left: moved_up(self.left, shift),
            right: moved_up(self.right, shift),
        }
    }

    /// One of its three clauses.
    #[inline(always)]
    pub(crate) fn clause<'a>(self, index: usize) -> FoundClause<'a>
        requires within { index < 3 }
        requires negations { HasNegations self }
        ensures { found_literals result ≡ get_or (and_clauses self) index [] }
    {
        match index {
            0 => FoundClause::Pair([-self.output, self.left]),
            1 => FoundClause::Pair([-self.output, self.right]),
            _ => FoundClause::Triple([self.output, -self.left, -self.right]),
        }
    }

    /// One of its three clauses over variables that are greater by so much.
    #[inline(always)]
    pub(crate) fn moved_clause<'a>(self, shift: u32, index: usize) -> FoundClause<'a>
        requires within { index < 3 }
        requires fits { FitsMoved shift self }
        ensures { found_literals result ≡ get_or (and_clauses (moved_gate shift self)) index [] }
    {
        if shift == 0 {
            self.clause(index)
        } else {
            self.moved(shift).clause(index)
        }
    }
}
