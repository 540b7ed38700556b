//! The circuit that a text begins with.

ghost use Rattle.std.specs.Prelude.{◌≤◌};
ghost use Rattle.scan.specs.Reading.{Gives};
ghost use Rattle.aag.specs.Sections.{lists_at, circuit_at};

use crate::header::{Header, read_header};
use crate::lines::{GREATEST, GateLine, InputLine, LatchLine, NotDefining};
use crate::read_fault::ReadFault;
use crate::uses::read_uses;
use graph::Parts;
use scan::{Fault, lines};
use std::alloc::Global;

/// The lists of a circuit with this header, and what follows the last gate's line.
#[tactic(auto, unfolding(crate::specs::Sections::lists_at))]
fn lists(
    alloc: Global,
    header: Header,
    text: &[u8],
) -> Result<(Parts, &[u8]), Fault<ReadFault<NotDefining>>>
    requires { header.max_var ≤ GREATEST }
    ensures { Gives (λ x. (x.0, x.1.now)) result (lists_at header text.now) }
{
    let max_var = header.max_var;
    let (inputs, rest) = lines::<InputLine>(alloc, header.inputs, text, max_var)?;
    let (latches, rest) = lines::<LatchLine>(alloc, header.latches, rest, max_var)?;
    let (uses, rest) = read_uses::<NotDefining>(alloc, header, rest)?;
    let (gates, rest) = lines::<GateLine>(alloc, header.gates, rest, max_var)?;
    let parts = uses.into_parts(max_var, inputs, latches, gates);
    Ok((parts, rest))
}

/// The circuit that the text begins with, and what follows the last gate's line. Nothing is asked
/// of it yet beyond what each line says by itself.
#[tactic(auto, unfolding(crate::specs::Sections::circuit_at))]
pub fn circuit(alloc: Global, text: &[u8]) -> Result<(Parts, &[u8]), Fault<ReadFault<NotDefining>>>
    ensures { Gives (λ x. (x.0, x.1.now)) result (circuit_at text.now) }
{
    let (header, rest) = read_header::<NotDefining>(text, b"aag ")?;
    let defined = u64::from(header.inputs) + u64::from(header.latches) + u64::from(header.gates);
    if defined > u64::from(header.max_var) {
        return Err(Fault::Text {
            kind: ReadFault::Counts,
            left: rest.len() + 1,
        });
    }
    lists(alloc, header, rest)
}
