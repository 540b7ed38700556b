//! Sequential circuits (AIGER 1.9) and what they mean.
//!
//! - `Parts` is a circuit as plain lists. Every definition of what a circuit means, from the
//!   valuations of its variables to its runs and the rounds of a justice property, is stated
//!   over `Parts` (`specs/`).
//! - `Model` is a circuit whose parts are well formed. `Model::build` answers `Ok` exactly on
//!   those, whatever the order of the gates, and otherwise with the first cause and its place.
//! - `Model::eval` fills in the one valuation that agrees with the gates, a state and inputs,
//!   and touches each gate once.
//!
//! Nothing here recurses, and no pass is worse than linear: a chain of gates of any depth costs
//! neither stack nor time beyond its length.
#![tactic(auto)]

mod bounds;
mod check;
mod circuit;
mod definitions;
mod error;
mod file;
mod fill;
mod literals;
mod model;
mod numbering;
mod ordering;
mod parts;
mod symbol;

pub use bounds::{LONGEST_TEXT, MOST_VARIABLES};
pub use circuit::{Gate, Latch, Lit, Property};
pub use error::ReadError;
pub use file::AigerFile;
pub use fill::literal_value;
pub use model::Model;
pub use parts::Parts;
pub use symbol::{Symbol, SymbolKind, Symbols, is_name};
