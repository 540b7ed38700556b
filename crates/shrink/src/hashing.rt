//! Structural hashing.

ghost use Rattle.std.specs.Prelude.{◌≡◌, IfOk};
ghost use Rattle.graph.specs.WellFormed.{IsWellFormed};
ghost use Rattle.shrink.specs.Shrunk.{IsShrunk};

use crate::carrying::carry_gates;
use crate::making::Making;
use crate::numbering::{bases, numbered_image};
use crate::renaming::rename_parts;
use crate::shrink_error::ShrinkError;
use base::Refused;
use graph::{Model, Parts, ReadError};
use std::alloc::Global;

/// The parts of the smaller circuit.
fn smaller(alloc: Global, circuit: &Model) -> Result<Parts, Refused>
    ensures shrunk { IfOk result (λ s. IsShrunk circuit.now s) }
    ensures well_formed { IfOk result (λ s. IsWellFormed s) }
{
    let parts = circuit.parts();
    let bases = bases(alloc, parts)?;
    let mut image = numbered_image(alloc, parts, bases.as_slice())?;
    let first = bases.len() as u32 + 1;
    let mut making = Making::new(alloc);
    carry_gates(
        parts,
        circuit.order(),
        first,
        image.as_mut_slice(),
        &mut making,
    )?;
    let smaller = rename_parts(alloc, parts, image.as_slice(), making.gates)?;
    Ok(smaller)
}

/// The circuit of parts that are well formed.
fn model_of(alloc: Global, parts: Parts) -> Result<Model, Refused>
    requires { IsWellFormed parts }
    ensures { IfOk result (λ m. m ≡ parts) }
{
    match Model::from_parts(alloc, parts) {
        Ok(model) => Ok(model),
        Err(ReadError::OutOfMemory(refused)) => Err(refused),
        // Well-formed parts have no other cause.
        Err(_) => unreachable!(),
    }
}

/// The circuit made smaller by structural hashing: a circuit in the numbering of the binary layout,
/// in which no gate has a constant or one variable twice on its right and no two gates have the
/// same right sides. Inputs, latches with what they begin with, outputs and properties stay by
/// position, and for equal states and inputs each has the same values. It has no more gates than
/// were given.
///
/// It costs the circuit's length, and a look-up by hash for each gate.
pub fn shrink(alloc: Global, circuit: &Model) -> Result<Model, ShrinkError>
    ensures shrunk { IfOk result (λ s. IsShrunk circuit.now s) }
{
    let parts = smaller(alloc, circuit)?;
    let smaller = model_of(alloc, parts)?;
    Ok(smaller)
}
