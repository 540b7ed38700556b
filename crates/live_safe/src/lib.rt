//! Justice by safety (Biere, Artho, Schuppan 2002).
//!
//! - `to_safety` makes the shadow circuit of a justice property: it saves a copy of the latches at
//!   a guessed time, and its one bad literal is set where the latches equal their copy again and
//!   each wanted literal has been set since. The clauses say that the violations of the two
//!   circuits answer to each other (`specs/Laws`), and that a shadow circuit whose bad literal is
//!   never set bounds the rounds of the property (`IsBounded`).
//! - `lasso_of` takes a violation of the shadow circuit back to the lasso that it shows.
//! - `positive`, `negative`, `negation`, `joins`, `cleared`, `push_chain`, `wanted_count` and
//!   `wanted_literals` are for other circuits that are made of one.
//!
//! With `M` variables, `L` latches and `K` wanted literals the shadow circuit has `M + 4 + 8L + 4K`
//! variables. All is linear in what is made.
#![tactic(auto)]

mod error;
mod gates;
mod lasso;
mod latches;
mod literals;
mod numbers;
mod safety;
mod shadow;
mod wanted;

pub use error::LiveError;
pub use gates::push_chain;
pub use lasso::lasso_of;
pub use literals::{cleared, joins, negation, negative, positive};
pub use safety::to_safety;
pub use wanted::{wanted_count, wanted_literals};
