//! What clauses are about.

use graph::{Lit, Model};

/// A circuit, and its literal that no run is to set.
#[derive(Drop)]
pub struct Subject {
    /// the circuit
    pub circuit: Model,
    /// the literal
    pub bad: Lit,
}
