//! A model and a circuit that is to be a witness of it.
//!
//! - `bad_of` is the literal that the witness is about, and `Shared` what it has of the model.
//! - `literal_of`, `latch_of` and `gate_of` take one circuit's literals to those of another one (`renamed`).
//! - `Draft` is a circuit of inputs and gates that is being made, and `frame_of` puts a circuit at one time into it.
#![tactic(auto)]

mod about;
mod drafting;
mod frames;
mod pair_error;
mod renaming;
mod shared;

pub use about::bad_of;
pub use drafting::{Draft, TRUE};
pub use frames::{add_literals, frame_of};
pub use pair_error::PairError;
pub use renaming::{denial_of, flipped, gate_of, latch_of, literal_of, name};
pub use shared::{Shared, given_at};
