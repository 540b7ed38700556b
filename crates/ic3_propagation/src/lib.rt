//! Propagation of IC3's clauses to the next frames (Bradley 2011): a frame that is the same as the next is an invariant.
#![tactic(auto)]

mod propagation;

pub use propagation::{propagate, repeated};
