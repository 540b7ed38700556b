//! What the programs say of a fault beside its line, and of themselves.
//!
//! - `explained` is what a number means and what to do, and `meaning` its first part. `is_at_byte` says whether its
//!   place is a byte of the text, and `position_behind` which line and column that is.
//! - `word_of` is the word for what the system refused, and `other_format` that for a text of another format.
//! - `Printable` shows a name of the symbol table, and `Quoted` has it as a text of JSON.
//! - `VERSION` is what both programs print of `--version`.
#![tactic(auto)]

mod numbers;
mod system;
mod texts;
mod version;

pub use numbers::{Explanation, explained, is_at_byte, meaning};
pub use system::word_of;
pub use texts::{Position, Printable, Quoted, other_format, position_behind};
pub use version::VERSION;
