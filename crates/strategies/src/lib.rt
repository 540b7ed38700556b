//! Engines that are asked one after another, how the budget and the time are shared between them, and what is shown of a search.
//!
//! - `Timing` is a search with its end in time. A solver of it (`Timed`) spends the budget when the time is over.
//! - `Merging` is register correspondence, and bounded search, IC3 and deeper bounded search behind it. `Beginning` is what is
//!   asked with few steps first. `InShares` shares the budget between two engines.
//! - `Reporter` shows on standard error how far a search is.
#![tactic(auto)]

mod beginning;
mod merging;
mod reporter;
mod shares;
mod timed;
mod timing;

pub use beginning::Beginning;
pub use merging::{Merging, bounded_by};
pub use reporter::{Reported, Reporter, Shown};
pub use shares::InShares;
pub use timed::{Deadline, Timed};
pub use timing::Timing;
