//! From clauses over any literals of a circuit that is extended to a certificate of version 3.
//!
//! `certify` has the clauses proved (`inductive_proofs`). Nothing is assumed of whoever wrote the clauses, nor of
//! the proofs: the text is answered only where `checker3` has accepted just this text, and that the
//! clauses are no invariant only with values that satisfy one of the cases.
#![tactic(auto)]

mod additions;
mod certified;
mod certify_error;
mod certifying;
mod examining;
mod judging;
mod subject;
mod text;

pub use additions::Extension;
pub use certified::Certified;
pub use certify_error::CertifyError;
pub use certifying::certify;
pub use inductive_proofs::{Case, Counterexample, Effort};
