//! The commands of `aigmc` that make certificates of clauses: of those that other engines found, and of a certificate's.
#![tactic(auto)]

mod adopting;
mod conditions;
mod counterexample;
mod extending;
mod recertifying;
mod third;
mod witness_file;
mod witnessed;

pub use adopting::{Adopted, certify_clauses};
pub use recertifying::recertify;
pub use third::NO_INVARIANT;
pub use witnessed::adopt_witness;
