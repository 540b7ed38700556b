//! What came of clauses.

use base::Seq;
use inductive_proofs::Counterexample;

/// What came of the clauses.
#[derive(Drop)]
pub enum Certified {
    /// the text of a certificate of the clauses, which `checker3` accepts
    Certificate(Seq<u8>),
    /// what satisfies one of the cases: the clauses are not inductive, or do not exclude the literal
    NotInvariant(Counterexample),
    /// the budget is exhausted
    Spent,
    /// the proofs that were made are not accepted, or no text spells them: nothing is known
    Unaccepted,
}
