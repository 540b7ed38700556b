//! How far a log has come.

/// How far a log has come.
#[derive(Clone, Copy)]
pub enum Logging {
    /// no log is wanted
    Unwanted,
    /// its lines lead to the kernel's clauses
    Open,
    /// its last line is the empty clause
    Closed,
}
