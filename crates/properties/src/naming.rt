//! Names of properties, and of files with evidence about them.

ghost use Rattle.std.specs.Prelude.{◌≡◌, IfOk, string_bytes};
ghost use Rattle.graph.specs.Circuits.{property_text};
ghost use Rattle.properties.specs.Names.{evidence_path};

use graph::Property;
use std::alloc::{AllocError, Global};

/// What shows something of a property.
#[derive(Clone, Copy, PartialEq, Eq)]
pub enum Evidence {
    /// A certificate that it holds.
    Certificate,
    /// A stimulus that violates it.
    Stimulus,
}

/// The name of a property: `b` for a bad literal, `j` for a justice property or `o` for an output, and
/// its position.
pub fn property_name(alloc: Global, property: Property) -> Result<String, AllocError>
    ensures { IfOk result (λ name. string_bytes name ≡ property_text property) }
{
    match property {
        Property::Bad(n) => format!(in alloc; "b{n}"),
        Property::Justice(n) => format!(in alloc; "j{n}"),
        Property::Output(n) => format!(in alloc; "o{n}"),
    }
}

/// The name of the file in a folder that has the evidence about a property: `b0.cert`, `b1.stim` and so on.
pub fn evidence_name(
    alloc: Global,
    folder: &str,
    property: Property,
    evidence: Evidence,
) -> Result<String, AllocError>
    ensures { IfOk result (λ name. string_bytes name ≡ evidence_path folder.now property evidence) }
{
    let property = property_name(alloc, property)?;
    match evidence {
        Evidence::Certificate => format!(in alloc; "{folder}/{property}.cert"),
        Evidence::Stimulus => format!(in alloc; "{folder}/{property}.stim"),
    }
}
