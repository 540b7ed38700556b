//! One mark for each variable, which says whether one of its literals is held true.

ghost use Rattle.std.specs.Prelude.{◌≡◌, ◌<◌, All, length, neg_ℤ, unsigned_abs};
ghost use Rattle.lrat.specs.Marks.{mark_of, IsUnmarked};

/// Which literal of a variable is held true.
#[derive(Clone, Copy, PartialEq, Eq)]
pub enum Mark {
    Neither,
    Positive,
    Negative,
}

/// The mark of a literal's variable where the literal is held true.
pub fn mark_for(literal: i32) -> Mark
    ensures { result ≡ mark_of literal }
{
    if literal >= 0 {
        Mark::Positive
    } else {
        Mark::Negative
    }
}

/// The mark of a literal's variable where the literal's negation is held true.
pub fn mark_against(literal: i32) -> Mark
    ensures { result ≡ mark_of (neg_ℤ literal) }
{
    if literal > 0 {
        Mark::Negative
    } else {
        Mark::Positive
    }
}

/// Takes the marks of these literals' variables away, in time of the literals.
pub fn unmark(marks: &mut Vec<Mark>, literals: &[i32])
    requires { All (λ l. unsigned_abs l < length marks.old.items) literals.now }
    ensures { IsUnmarked marks.old.items marks.new.items literals.now }
{
    for literal in literals {
        marks[literal.unsigned_abs() as usize] = Mark::Neither;
    }
}
