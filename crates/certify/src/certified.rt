//! What came of clauses.

use crate::counterexample::Counterexample;
use certificate::Certificate;

/// What came of the clauses.
#[derive(Drop)]
pub enum Certified {
    /// a certificate of the clauses, which the checker accepts
    Certificate(Certificate),
    /// what satisfies one of the cases: the clauses are not inductive, or do not exclude the bad
    /// literal
    NotInvariant(Counterexample),
    /// the budget is exhausted
    Spent,
}
