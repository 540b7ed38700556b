//! Justice properties shown by counting rounds (k-liveness).
//!
//! - `decide_rounds` asks an engine whether a run holds more rounds than 0, 1, 2, 4 and so on, of the circuit that counts them, up
//!   to the first number beyond which no run goes. Whatever the engine answers, that a property holds is answered only with a
//!   certificate of version 3 that is accepted, and that a run holds more rounds only where its replay shows it (`IsBacked`).
//!   If the engine is honest, what is not known means what it says (`IsMeant`).
//! - Once there is a certificate, shorter ones are looked for with a part of the budget: by fewer clauses and by clauses with fewer
//!   literals (`round_clauses`). The shortest one that is accepted is answered.
//! - `RoundsProgress` is told which number of rounds is asked about.
#![tactic(auto)]

mod asking;
mod counted;
mod counting;
mod progress;
mod shortening;

pub use counted::{Cause, Counted};
pub use counting::decide_rounds;
pub use progress::RoundsProgress;
