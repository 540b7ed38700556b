//! The circuit that a text begins with.

ghost use Rattle.std.specs.Prelude.{◌≡◌, ◌+◌, ◌≤◌};
ghost use Rattle.scan.specs.Reading.{Gives};
ghost use Rattle.aig.specs.Sections.{lists_at, circuit_at};

use crate::delta::NoDelta;
use crate::lines::{GateDeltas, Input, LatchLine};
use crate::numbered::numbered;
use aag::{Header, ReadFault, read_header, read_uses};
use graph::Parts;
use scan::Fault;
use std::alloc::Global;

/// The lists of a circuit with this header, and what follows the last gate. The inputs, of which
/// nothing is written, are made last.
#[tactic(auto, unfolding(crate::specs::Sections::lists_at))]
fn lists(
    alloc: Global,
    header: Header,
    text: &[u8],
) -> Result<(Parts, &[u8]), Fault<ReadFault<NoDelta>>>
    requires most { header.max_var ≤ 4194303 }
    requires defined { header.inputs + header.latches + header.gates ≡ header.max_var }
    ensures { Gives (λ x. (x.0, x.1.now)) result (lists_at header text.now) }
{
    let max_var = header.max_var;
    let latch = 1 + header.inputs;
    let gate = latch + header.latches;
    let (latches, rest) = numbered::<LatchLine>(alloc, max_var, latch, header.latches, text)?;
    let (uses, rest) = read_uses::<NoDelta>(alloc, header, rest)?;
    let (gates, rest) = numbered::<GateDeltas>(alloc, max_var, gate, header.gates, rest)?;
    let (inputs, rest) = numbered::<Input>(alloc, max_var, 1, header.inputs, rest)?;
    let parts = uses.into_parts(max_var, inputs, latches, gates);
    Ok((parts, rest))
}

/// The circuit that the text begins with, and what follows the last gate.
#[tactic(auto, unfolding(crate::specs::Sections::circuit_at))]
pub fn circuit(alloc: Global, text: &[u8]) -> Result<(Parts, &[u8]), Fault<ReadFault<NoDelta>>>
    ensures { Gives (λ x. (x.0, x.1.now)) result (circuit_at text.now) }
{
    let (header, rest) = read_header::<NoDelta>(text, b"aig ")?;
    let defined = u64::from(header.inputs) + u64::from(header.latches) + u64::from(header.gates);
    if defined != u64::from(header.max_var) {
        return Err(Fault::Text {
            kind: ReadFault::Counts,
            left: rest.len() + 1,
        });
    }
    lists(alloc, header, rest)
}
