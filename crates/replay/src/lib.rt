//! The judge of stimuli that are read line by line.
//!
//! `judge_source` reads a stimulus as a source gives its bytes, and replays it while it is read. What
//! it says is what `stimulus::read` and `stimulus::judge` say: a fault of the text, anywhere in it,
//! goes before every fault of the replay, and of the replay's faults it gives the first cause. So
//! after a fault of the replay the rest of the text is still read, and its lines' lengths are looked at where
//! they decide.
//!
//! For a bad literal or an output it holds two states, a valuation and one line, however long the
//! text is. For a justice property it holds the lines, since a lasso goes back to one of them.
#![tactic(auto)]

mod judging;
mod kinds;
mod lines;
mod numbers;
mod playing;
mod reader;
mod text_error;

pub use judging::{Outcome, judge_source};
pub use text_error::TextError;
