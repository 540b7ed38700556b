//! Counterexamples as other tools write them, and the strict stimuli to make of them.
//!
//! - `read` takes a loose text apart: its properties, and its rows of values, of which some don't matter.
//! - `strict` answers a `Stimulus` that shows the violation of one of the properties that are asked for, and that has each value that
//!   the rows give (`IsStrict`). It answers one only where `stimulus::judge` says yes.
//! - `clear` takes the values away that a violation does not rest on (`IsEnough`), and `text_of` is the text of what is left.
//!
//! Nothing is believed of the text. Reading it costs its length, and each try one replay.
#![tactic(auto)]

mod characters;
mod cleared;
mod clearing;
mod completion;
mod cutting;
mod lasso;
mod lines;
mod loose;
mod reading;
mod resting;
mod status;
mod strictness;
mod witness_error;
mod writing;

pub use cleared::Cleared;
pub use clearing::clear;
pub use loose::Loose;
pub use reading::read;
pub use strictness::{asked_of, strict};
pub use witness_error::WitnessError;
pub use writing::text_of;
