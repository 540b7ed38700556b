//! The texts of a waveform: its variables in their scopes (`variables_text`), and what changes at each time (`times_text`).
#![tactic(auto)]

mod changes;
mod scopes;
mod variables;

pub use changes::push_times;
pub use variables::{push_number, push_variables};
