//! Times.

use base::Seq;

/// The state and the inputs of a time, in the order of the circuit's latches and inputs, and the
/// values of what was asked about.
#[derive(Drop)]
pub struct Assignment {
    pub state: Seq<bool>,
    pub inputs: Seq<bool>,
    /// the value of each variable of which the literals that were asked for and the constraints are
    /// made, at the variable's place; what stands at other places means nothing
    pub values: Seq<bool>,
}
