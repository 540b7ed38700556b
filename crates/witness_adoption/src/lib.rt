//! `adopt` takes a witness circuit apart: into latches, gates and clauses of the model, of which a certificate can be made
//! (`IsAdopted`). Nothing is believed of the witness.
#![tactic(auto)]

mod adopting;

pub use adopting::{Adopted, adopt};
