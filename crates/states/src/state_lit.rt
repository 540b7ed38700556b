//! Literals of clauses over states.

/// A latch, by its position in the circuit's list, and a value. A literal of clauses over states:
/// it is set where the latch has the value.
#[derive(Clone, Copy, PartialEq, Eq)]
pub struct StateLit {
    pub latch: u32,
    pub value: bool,
}
