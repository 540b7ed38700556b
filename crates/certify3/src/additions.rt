//! The latches and gates that a certificate adds.

use graph::{Gate, Latch};

/// The latches and gates of a certificate, behind those of the circuit that it speaks of.
#[derive(Clone, Copy)]
pub struct Extension<'a> {
    /// the latches, of the variables behind the circuit's
    pub latches: &'a [Latch],
    /// the gates, of the variables behind those
    pub gates: &'a [Gate],
}
