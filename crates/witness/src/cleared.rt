//! What is left of a stimulus.

use base::Seq;
use graph::Property;

/// The values of a stimulus on which its violation rests. Each other one is `None`.
#[derive(Drop)]
pub struct Cleared {
    /// The property that is violated.
    pub property: Property,
    /// The first values of the latches, in their order.
    pub initial: Seq<Option<bool>>,
    /// The values of the inputs, in their order, for each time.
    pub inputs: Seq<Seq<Option<bool>>>,
}
