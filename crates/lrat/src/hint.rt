//! What a line names clauses by.

ghost use Rattle.std.specs.Prelude.{◌≡◌, unsigned_abs};
ghost use Rattle.lrat.specs.Limits.{IsHint};
ghost use Rattle.lrat.specs.Stages.{IsPositive};

/// What a line names a clause by: an id, or a hint of a text, which may be negative there.
pub trait Hint: Copy {
    ghost use Rattle.std.specs.Prelude.{ℕ};

    /// whether it names a clause
    ghost allows: { Self → Type 0 };

    /// the id that it names
    ghost named: { Self → ℕ };

    /// The id that it names.
    fn id(self) -> u32
        requires { allows self }
        ensures { result ≡ named self };
}

impl Hint for u32 {
    ghost allows = { λ _. Unit {0} };

    ghost named = { λ id. id };

    #[inline(always)]
    fn id(self) -> u32 {
        self
    }
}

impl Hint for i64 {
    ghost allows = { λ hint. IsHint hint × IsPositive hint };

    ghost named = { unsigned_abs };

    #[inline(always)]
    fn id(self) -> u32 {
        self as u32
    }
}
