//! The signals of a file with their values at each time of a replay (`AreSignalValues`), or with what is known of them
//! (`AreOpenValues`).
#![tactic(auto)]

mod signal_values;

pub use signal_values::SignalValues;
