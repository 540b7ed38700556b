//! What two clauses say.

ghost use Rattle.std.specs.Prelude.{◌≡◌, IfSome, IsTrue, true};
ghost use Rattle.cnf.specs.Clauses.{along, is_negated};
ghost use Rattle.latch_map.specs.Equal.{AreDenials, Says};

use graph::Lit;

/// That two literals have the same value.
#[derive(Clone, Copy)]
pub(crate) struct Equality {
    pub one: Lit,
    pub other: Lit,
}

/// The literal's negation.
pub(crate) fn negated(lit: Lit) -> Lit
    ensures { result ≡ along true lit }
{
    if lit.is_negated() {
        Lit(lit.0 - 1)
    } else {
        Lit(lit.0 + 1)
    }
}

/// The literal, negated where the other one is.
pub(crate) fn negated_as(lit: Lit, other: Lit) -> Lit
    ensures { result ≡ along (is_negated other) lit }
{
    if other.is_negated() {
        negated(lit)
    } else {
        lit
    }
}

/// Whether a clause has the negations of these two literals alone.
fn denies(clause: &[Lit], one: Lit, other: Lit) -> bool
    ensures { IsTrue result → AreDenials clause.now one other }
{
    if clause.len() != 2 {
        return false;
    }
    let (first, second) = (clause[0], clause[1]);
    if first == negated(one) {
        second == negated(other)
    } else {
        first == negated(other) && second == negated(one)
    }
}

/// What two clauses say, which may be the same: of one literal that it is true, and of two that they are opposite.
pub(crate) fn said(clause: &[Lit], denial: &[Lit]) -> Option<Equality>
    ensures { IfSome result (λ e. Says clause.now denial.now e.one e.other) }
{
    if clause.len() == 1 {
        return Some(Equality {
            one: clause[0],
            other: Lit(1),
        });
    }
    if clause.len() != 2 || !denies(denial, clause[0], clause[1]) {
        return None;
    }
    Some(Equality {
        one: clause[0],
        other: negated(clause[1]),
    })
}
