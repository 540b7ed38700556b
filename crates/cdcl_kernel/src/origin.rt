//! Where clauses come from.

/// Where a clause comes from.
#[derive(Clone, Copy)]
pub enum Origin {
    /// the user added it
    Added,
    /// it follows from the added ones
    Learned,
    /// it was taken out, or was never there
    Removed,
}
