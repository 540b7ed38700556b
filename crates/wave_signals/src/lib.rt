//! The signals of a file, and what is known of their bits.
//!
//! - `sorted_bits` are the bits of a file that are shown, and `signals_of` puts them together (`AreSignals`).
//! - `put_signal_name` puts the name of a signal.
//! - `play` has the values of bits at each time of a replay, and `open_rows` what is known of them where only some values
//!   are given, which `check_open` refuses or not.
//! - `loop_start` is where the loop of a replay begins (`IsLoopStart`).
#![tactic(auto)]

mod bits;
mod columns;
mod loops;
mod names;
mod open_lines;
mod open_replay;
mod open_values;
mod signals;

pub use bits::{Bit, sorted_bits};
pub use columns::play;
pub use loops::loop_start;
pub use open_lines::check_open;
pub use open_replay::open_rows;
pub use signals::{Signal, letter, put_counted, put_signal_name, signal_name_length, signals_of};
