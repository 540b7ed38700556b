//! Stimuli: violations of a circuit's properties, as texts and as what they show.
//!
//! - `read` answers the `Stimulus` that a text spells, and `Ok` exactly on the texts that spell
//!   one (`SpellsStimulus`); `write` puts that one text. No other text spells it.
//! - `judge` answers `Ok` exactly where the replay of the stimulus shows the violation: it keeps
//!   the constraints and sets the bad literal at its last time (`ShowsBad`), or closes a lasso in
//!   which each wanted literal is set (`ShowsLasso`). Otherwise the first cause is reported.
//! - `put_table` puts the values at each time of the replay (`table_text`), row by row.
//!
//! Replaying costs the gates times the input lines, and for a lasso at most twice that: after the
//! replay it goes to the first time of the closing state, and on until each wanted literal was set.
//! The memory is a state and a valuation, for a lasso two of each.
#![tactic(auto)]

mod judge_error;
mod judging;
mod lasso;
mod lines;
mod playing;
mod reading;
mod sim_error;
mod stim_error;
mod stim_write_error;
mod table;
mod value;
mod writing;

pub use judge_error::JudgeError;
pub use judging::judge;
pub use reading::{
    IN_LINES, IN_STATUS, StimFault, Values, begins_otherwise, property, read, text_error,
};
pub use sim_error::SimError;
pub use stim_error::StimError;
pub use stim_write_error::StimWriteError;
pub use table::{check_playable, put_table};
pub use value::Stimulus;
pub use writing::write;
