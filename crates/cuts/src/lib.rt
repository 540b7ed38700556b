//! Cuts of a circuit's gates: at most four variables of which a gate is a function.
//!
//! `cuts_of` chooses one cut for each gate, by what it costs (the flow of area, as in technology mapping by cuts). A gate that lies between a
//! chosen gate and its cut need not be said in clauses.
#![tactic(auto)]

mod choosing;
mod combining;
mod costs;
mod cut;

pub use choosing::cuts_of;
pub use cut::Cut;
