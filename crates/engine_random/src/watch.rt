//! What may end a search before its budget is spent.

/// What is asked at each time that is played whether the search is to go on.
pub trait Watch: Drop {
    /// Whether the search is to end.
    fn is_over(&self) -> bool;
}

/// A watch that lets the search go on.
#[derive(Drop)]
pub struct Unwatched;

impl Watch for Unwatched {
    fn is_over(&self) -> bool {
        false
    }
}
