//! Certificates.

use base::Seq;
use graph::{Lit, Property};
use lrat::Proof;

/// An invariant of a circuit, and a proof for each of its cases.
#[derive(Drop)]
pub struct Certificate {
    /// what the invariant excludes
    pub property: Property,
    /// the invariant's clauses, over literals of latches
    pub invariant: Seq<Seq<Lit>>,
    /// in version 2 the lemmas that the step cases and the bad case may use, with their proofs;
    /// `None` is version 1
    pub lemmas: Option<Proof>,
    /// for `n` clauses the proofs of the `n` initial cases, of the `n` step cases and of the bad case
    pub sections: Seq<Proof>,
}
