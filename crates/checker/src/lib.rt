//! The judge of evidence, from bytes to bytes.
//!
//! - `run_safe` reads a circuit and a certificate, and puts one line, `yes safe b0` or `no 44`. It says
//!   yes exactly where the first bytes spell a circuit and the second, to their end, a certificate that
//!   is accepted for it; and then that property is upheld. It reads the first line of any version, and
//!   hands what is behind it to `checker2` or `checker3`.
//! - `run_stimulus` does the same for a circuit and a stimulus: `yes run b0` exactly where the
//!   stimulus's replay shows the violation of its property. It replays the stimulus while it is read
//!   (`replay`).
//!
//! - `run_safe_for` and `run_stimulus_for` do so for one property alone, and answer `no 30` of
//!   evidence of another one. `safe_of_readers` and `run_of_readers` are all four over readers of std:
//!   a yes is about just the bytes that these gave in the call.
//!
//! Nothing is assumed of whoever wrote the evidence.
#![tactic(auto)]

mod answer_error;
mod asked;
mod certificate_text;
mod certified;
mod line;
mod of_readers;
mod replayed;
mod run_error;

pub use certified::{run_safe, run_safe_for};
pub use of_readers::{run_of_readers, safe_of_readers};
pub use replayed::{run_stimulus, run_stimulus_for};
pub use run_error::RunError;
