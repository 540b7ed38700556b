//! The search of a conflict-driven solver: propagate, learn from a conflict, decide.
//!
//! It works on a `LoggedKernel`, which keeps the clauses, checks each clause before it is learned, looks
//! through a model and checks a core before either is answered. The trail and the techniques here, one a
//! file, only steer it, and no proof rests on them. What they get wrong costs time: a clause that the watches
//! missed is found when a model is checked, and a clause that the analysis got wrong is refused and not
//! learned.
#![tactic(auto)]

mod analysis;
mod assignment;
mod attaching;
mod clause_status;
mod counts;
mod decisions;
mod final_analysis;
mod guide;
mod heap;
mod justification;
mod learned;
mod learning;
mod levels;
mod long_clauses;
mod minimization;
mod parts;
mod propagation;
mod reduction;
mod restarts;
mod searching;
mod short_lists;
mod table;
mod trail;
mod trail_reuse;
mod units;
mod values;
mod watches;

pub use guide::Guide;
pub use searching::search;
