//! Part of a circuit, as a solver's literals.

/// A gate: its literal is true exactly where both right sides are (Tseitin 1968).
#[derive(Clone, Copy)]
pub struct AndGate {
    pub lhs: i32,
    pub rhs0: i32,
    pub rhs1: i32,
}

/// What values are wanted of: gates, and literals that are to be true.
#[derive(Drop)]
pub struct Part {
    pub gates: Vec<AndGate>,
    pub literals: Vec<i32>,
}
