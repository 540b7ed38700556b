//! By what a finding of a reduced circuit is carried back.

use base::Seq;

/// The tables of a reduced circuit.
#[derive(Drop)]
pub struct Tables {
    /// its variables, each as that of the circuit
    pub kept: Seq<u32>,
    /// for each latch of the circuit what it begins with, where it is left out; none where it is kept
    pub latches: Seq<Option<bool>>,
    /// for each input of the circuit false, where it is left out; none where it is kept
    pub inputs: Seq<Option<bool>>,
}
