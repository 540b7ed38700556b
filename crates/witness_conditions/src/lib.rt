//! The conditions under which a circuit is a witness that a literal of another one, the model, is never set: `Pair` asks
//! each one as a question about a circuit (`Asks`).
#![tactic(auto)]

mod conditions;
mod known;

pub use conditions::{Condition, Facts, Moment, Pair, Question, Times};
