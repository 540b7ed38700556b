//! Which engines are asked of a property, in which order, and how many steps and how much time each may take.
//!
//! - `Question` is a property of a circuit, and how the search is to go. `ask` asks the engines, and answers a
//!   `Conclusion` with what the search cost: a verdict, what counting rounds came to, or the text of a certificate.
//! - `is_shown_safe` asks IC3 of one bad literal.
#![tactic(auto)]

mod asking;
mod behind;
mod conclusion;
mod engines;

pub use asking::{Answered, Question, is_shown_safe};
pub use conclusion::Conclusion;
pub use strategies::{Deadline, Shown, Timing};
