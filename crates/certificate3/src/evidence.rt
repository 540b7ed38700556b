//! What shows a claim.

use base::{Lists, Seq};
use graph::{Gate, Latch, Lit};
use lrat::Proof;

/// Lines, and behind them for each clause the hints that show it.
#[derive(Drop)]
pub struct Shown {
    pub lines: Proof,
    pub hints: Lists<u32>,
}

/// What a certificate has beside its claim.
#[derive(Drop)]
pub struct Evidence {
    /// the latches behind those of the circuit
    pub latches: Seq<Latch>,
    /// the gates behind those of the circuit
    pub gates: Seq<Gate>,
    /// the invariant's clauses, over any literals of the circuit with these
    pub invariant: Lists<Lit>,
    /// that the clauses hold at a first time
    pub first: Shown,
    /// that they hold at a time behind one at which they hold
    pub step: Shown,
    /// that they exclude the literal
    pub last: Proof,
}
