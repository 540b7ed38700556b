//! The properties of a circuit, and their names.
//!
//! - `all_properties` lists which properties a circuit has, in the order of its file.
//! - `property_name` is the name of one: `b`, `j` or `o`, and its position.
//! - `evidence_name` is the name of the file with `Evidence` about one: `b0.cert`, `b1.stim`.
#![tactic(auto)]

mod listing;
mod naming;

pub use listing::all_properties;
pub use naming::{Evidence, evidence_name, property_name};
