//! How much is done for a short certificate.

/// How much is done for a short certificate.
#[derive(Clone, Copy)]
pub enum Effort {
    /// The proofs stand as they are found.
    Quick,
    /// Shorter proofs are looked for, for as long as the budget lasts.
    Thorough,
}
