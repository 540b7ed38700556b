//! What a loose text says.

use base::Seq;
use graph::Property;

/// A counterexample as another tool wrote it. A value that doesn't matter is `None`.
#[derive(Drop)]
pub struct Loose {
    /// The properties that it names, of which one at least is violated; none where it names none.
    pub properties: Seq<Property>,
    /// The rows of values, in their order.
    pub rows: Seq<Seq<Option<bool>>>,
    /// Whether the first row can be the first state, and the others the inputs at each time.
    pub has_state: bool,
    /// Whether all rows can be inputs, and no first state is given.
    pub has_inputs_alone: bool,
}
