//! The property and the lines of a violation.

ghost use Rattle.std.specs.Prelude.{◌≡◌, Bool, List, IfOk, IfErr};
ghost use Rattle.graph.specs.declared.circuit.Property.{Property as AProperty};
ghost use Rattle.trace.specs.Lines.{HasLines};

use base::Seq;
use graph::Property;
use stimulus::{SimError, Stimulus};

/// The property, the first values of the latches and the lines of inputs of the violation that a stimulus shows.
pub fn lines_of(stimulus: &Stimulus) -> Result<(Property, &[bool], &[Seq<bool>]), SimError>
    ensures lines { IfOk result (λ x. HasLines stimulus.now x.0 x.1.now x.2.now) }
    ensures none { IfErr result (λ e. (e ≡ SimError.NotViolated) × ((p : AProperty) (initial : List Bool) (inputs : List (List Bool)) → HasLines stimulus.now p initial inputs → ⊥)) }
{
    match stimulus {
        Stimulus::Violated {
            property,
            initial,
            inputs,
        } => Ok((*property, initial.as_slice(), inputs.as_slice())),
        _ => Err(SimError::NotViolated),
    }
}
