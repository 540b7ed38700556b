//! What a stimulus says.

ghost use Rattle.std.specs.Prelude.{◌≡◌, IfOk};
ghost use Rattle.stimulus.specs.Texts.{property_of};

use base::{Refused, Seq};
use graph::Property;
use std::alloc::Global;

/// What is said of one property of a circuit.
#[derive(Drop)]
pub enum Stimulus {
    /// The property holds.
    Holds(Property),
    /// A run violates the property.
    Violated {
        property: Property,
        /// The first values of the latches, in their order.
        initial: Seq<bool>,
        /// The values of the inputs, in their order, for each time.
        inputs: Seq<Seq<bool>>,
    },
    /// Nothing is known of the property.
    Unknown(Property),
}

/// The same lines in memory of their own.
fn copy_lines(alloc: Global, lines: &[Seq<bool>]) -> Result<Seq<Seq<bool>>, Refused>
    ensures { IfOk result (λ copies. copies ≡ lines.now) }
{
    let mut copies = Seq::new(alloc);
    for line in lines {
        copies.push(line.copy(alloc)?)?;
    }
    Ok(copies)
}

impl Stimulus {
    /// The same stimulus in memory of its own.
    pub fn copy(&self, alloc: Global) -> Result<Stimulus, Refused>
        ensures { IfOk result (λ s. s ≡ self.now) }
    {
        match self {
            Stimulus::Holds(property) => Ok(Stimulus::Holds(*property)),
            Stimulus::Violated {
                property,
                initial,
                inputs,
            } => Ok(Stimulus::Violated {
                property: *property,
                initial: initial.copy(alloc)?,
                inputs: copy_lines(alloc, inputs.as_slice())?,
            }),
            Stimulus::Unknown(property) => Ok(Stimulus::Unknown(*property)),
        }
    }

    /// The property of which it speaks.
    pub fn property(&self) -> Property
        ensures { result ≡ property_of self.now }
    {
        match self {
            Stimulus::Holds(property) => *property,
            Stimulus::Violated { property, .. } => *property,
            Stimulus::Unknown(property) => *property,
        }
    }
}
