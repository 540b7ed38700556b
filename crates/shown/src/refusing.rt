//! Refusals.

ghost use Rattle.std.specs.Prelude.{◌≡◌};
ghost use Rattle.graph.specs.Circuits.{HasProperty, position_of};
ghost use Rattle.graph.specs.declared.circuit.Property.{Property as AProperty};
ghost use Rattle.graph.specs.declared.parts.Parts.{Parts};
ghost use Rattle.verdict.specs.Causes.{HasCause};
ghost use Rattle.verdict.specs.declared.decide_error.DecideError.TheVariants.{NoProperty};

use graph::Property;
use solver::SatError;
use verdict::DecideError;

/// The refusal of a property that the circuit has not.
pub fn no_property(property: Property) -> DecideError
    ensures { result ≡ NoProperty (position_of property) }
{
    let (Property::Bad(n) | Property::Justice(n) | Property::Output(n)) = property;
    DecideError::NoProperty(n)
}

/// The refusal of a solver.
pub fn refusal(error: SatError) -> DecideError
    ensures { (m : Parts) → (p : AProperty) → HasProperty m p → HasCause m p result }
{
    match error {
        SatError::Limit(full) => DecideError::IdsTaken(full),
        SatError::OutOfMemory(refused) => DecideError::OutOfMemory(refused),
    }
}
