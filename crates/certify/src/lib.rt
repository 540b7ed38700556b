//! From the clauses of an invariant to a certificate that the checker accepts.
//!
//! `certify` asks for a proof of each case of the invariant, and puts the proofs together in the order of the
//! cases. The initial cases share the resets, which one `cdcl::Refuter` loads for all of them. The step cases
//! and the bad case share the circuit and the clauses, which another one loads; what it learns is written once, as
//! lemmas, and behind these most of the cases take a single line. Nothing is assumed of whoever wrote the clauses: a
//! certificate is answered only where `IsAcceptedCertificate` holds of it, and that the clauses are no
//! invariant only where something satisfies one of the cases, which is never so of an inductive invariant.
//!
//! What is wrong with the property or with a clause is refused at its first cause, before anything is
//! spent. For a justice property the clauses and the cases are those of its shadow circuit.
#![tactic(auto)]

mod certified;
mod certify_error;
mod certifying;
mod closed_cases;
mod counterexample;
mod examining;
mod prove_error;
mod proving;
mod sweeping;

pub use certified::Certified;
pub use certify_error::CertifyError;
pub use certifying::{certify, certify_shadow};
pub use counterexample::{Case, Counterexample};
