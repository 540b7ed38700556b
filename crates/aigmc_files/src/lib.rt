//! What the commands of `aigmc` read, print and make, and why one was not done.
//!
//! A file is made whole or not at all. A refusal keeps its number and its place, and which of the command's files
//! it is about.
#![tactic(auto)]

mod claimed;
mod command_error;
mod exit_error;
mod files;
mod fitted;
mod making;
mod missing;
mod naming;
mod terminal;
mod witnessing;

pub use claimed::{Claimed, claimed_in, listed, refused_text};
pub use command_error::CommandError;
pub use exit_error::{
    DEVICE, DONE, ExitError, FAULT, Has, NO_HEADER, NO_PROPERTY, Role, about, at, finished,
    read_of, tell,
};
pub use files::{
    Shown, UNKNOWN, VIOLATED, circuit, circuit_of, circuit_text, is_taken, keep, keep_and_print,
    make, make_bytes, make_map, make_stimulus, make_waveform, path_of, print_alone, print_status,
    print_stimulus, print_table, print_trace, read_text, shown_of, status_of, stimulus_of,
};
pub use fitted::{EvidenceFile, Fitted};
pub use making::{expect_folder, is_same};
pub use missing::fault_of;
pub use naming::{asked_for, property_in};
pub use terminal::is_terminal;
pub use witnessing::{expect_safety, expect_witness_file, fitted_witness, witness_in};
