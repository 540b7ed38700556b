//! Gates among clauses.

use crate::gate_literals::GateLiterals;

/// Gates that stand behind so many lists of clauses, with their variables moved up.
#[derive(Clone, Copy)]
pub struct Run<'a> {
    /// how many lists stand before them
    pub lists: usize,
    /// the gates as they are before they are moved
    pub gates: &'a [GateLiterals],
    /// by how much their variables are moved up
    pub shift: u32,
}
