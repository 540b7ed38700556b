//! The fault of a property that a circuit does not have.

use crate::exit_error::{ExitError, Has, NO_PROPERTY};
use graph::{Model, Property};
use properties::all_properties;
use std::alloc::Global;

/// The properties that a circuit has.
fn properties_of(alloc: Global, circuit: &Model) -> Result<Has, ExitError> {
    let properties = all_properties(alloc, circuit)?;
    let mut has = Has {
        bad: 0,
        justice: 0,
        outputs: 0,
    };
    for property in properties {
        match property {
            Property::Bad(_) => has.bad = has.bad.saturating_add(1),
            Property::Justice(_) => has.justice = has.justice.saturating_add(1),
            Property::Output(_) => has.outputs = has.outputs.saturating_add(1),
        }
    }
    Ok(has)
}

/// The fault of a search, with the properties that the circuit has where there is no such one.
pub fn fault_of(alloc: Global, circuit: &Model, property: Property, stop: ExitError) -> ExitError {
    let ExitError::At { number, place, .. } = stop else {
        return stop;
    };
    if number != NO_PROPERTY {
        return stop;
    }
    match properties_of(alloc, circuit) {
        Ok(has) => ExitError::NoProperty {
            property,
            place,
            has,
        },
        Err(stop) => stop,
    }
}
