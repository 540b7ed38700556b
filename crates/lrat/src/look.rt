//! What the literals held true leave of a clause.

ghost use Rattle.std.specs.Prelude.{All};
ghost use Rattle.lrat.specs.Found.{found_literals};
ghost use Rattle.lrat.specs.Literals.{IsLiteral};
ghost use Rattle.lrat.specs.Faults.{Finds};

use crate::found_clause::FoundClause;
use crate::trail::Trail;

/// What the literals held true leave of a clause.
#[derive(Clone, Copy)]
pub enum Left {
    /// each literal is denied
    False,
    /// this is the one literal that is not denied, maybe more than once
    One(i32),
    /// two or more distinct literals are not denied
    Several,
}

/// Looks at a clause, up to the second distinct literal that is not denied. By itself where it is called,
/// a clause of two or three literals is looked at without a loop.
#[inline(always)]
pub fn look(trail: &Trail, clause: &[i32]) -> Left
    requires { All (IsLiteral trail.now.vars) clause.now }
    ensures { Finds trail.now.literals clause.now result }
{
    let mut left: Option<i32> = None;
    for literal in clause {
        if !trail.denies(*literal) {
            match left {
                None => left = Some(*literal),
                Some(other) => {
                    if other != *literal {
                        return Left::Several;
                    }
                }
            }
        }
    }
    match left {
        None => Left::False,
        Some(literal) => Left::One(literal),
    }
}

/// The same of a clause that was found.
#[inline(always)]
pub fn look_found(trail: &Trail, clause: FoundClause<'_>) -> Left
    requires { All (IsLiteral trail.now.vars) (found_literals clause) }
    ensures { Finds trail.now.literals (found_literals clause.entry) result }
{
    match clause {
        FoundClause::Slice(clause) => look(trail, clause),
        FoundClause::Pair(clause) => look(trail, &clause),
        FoundClause::Triple(clause) => look(trail, &clause),
    }
}
