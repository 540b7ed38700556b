//! What a circuit says of its literals, between the latches and the gates.

ghost use Rattle.std.specs.Prelude.{◌≡◌, ◌≤◌};
ghost use Rattle.scan.specs.Reading.{Gives};
ghost use Rattle.aag.specs.Sections.{uses_at};

use crate::header::Header;
use crate::justice::justice;
use crate::lines::{GREATEST, UseLine};
use crate::read_fault::ReadFault;
use base::Seq;
use graph::{Gate, Latch, Lit, Parts};
use scan::{Fault, lines};
use std::alloc::Global;

/// The lists of literals that are only used.
#[derive(Drop)]
pub struct Uses {
    pub outputs: Seq<Lit>,
    pub bad: Seq<Lit>,
    pub constraints: Seq<Lit>,
    pub justice: Seq<Seq<Lit>>,
    pub fairness: Seq<Lit>,
}

impl Uses {
    /// The circuit that uses its literals so, with what it defines.
    pub fn into_parts(
        self,
        max_var: u32,
        inputs: Vec<Lit>,
        latches: Vec<Latch>,
        gates: Vec<Gate>,
    ) -> Parts
        ensures { result ≡ record { max_var = max_var; inputs = inputs.items; latches = latches.items; outputs = self.outputs; bad = self.bad; constraints = self.constraints; justice = self.justice; fairness = self.fairness; gates = gates.items } }
    {
        let Uses {
            outputs,
            bad,
            constraints,
            justice,
            fairness,
        } = self;
        Parts {
            max_var,
            inputs: Seq::from_vec(inputs),
            latches: Seq::from_vec(latches),
            outputs,
            bad,
            constraints,
            justice,
            fairness,
            gates: Seq::from_vec(gates),
        }
    }
}

/// As many outputs, bad literals, constraints, justice properties and fairness literals as the
/// header states, and what follows their lines.
#[tactic(auto, unfolding(crate::specs::Sections::uses_at))]
pub fn read_uses<L: Copy>(
    alloc: Global,
    header: Header,
    text: &[u8],
) -> Result<(Uses, &[u8]), Fault<ReadFault<L>>>
    requires { header.max_var ≤ GREATEST }
    ensures { Gives (λ x. (x.0, x.1.now)) result (uses_at header text.now) }
{
    let line = UseLine {
        max_var: header.max_var,
        kinds: ReadFault::<L>::IN_LITERAL,
    };
    let (outputs, rest) = lines::<UseLine<ReadFault<L>>>(alloc, header.outputs, text, line)?;
    let (bad, rest) = lines::<UseLine<ReadFault<L>>>(alloc, header.bad, rest, line)?;
    let (constraints, rest) = lines::<UseLine<ReadFault<L>>>(
        alloc,
        header.constraints,
        rest,
        line,
    )?;
    let (justice, rest) = justice(alloc, line, header.justice, rest)?;
    let (fairness, rest) = lines::<UseLine<ReadFault<L>>>(alloc, header.fairness, rest, line)?;
    let uses = Uses {
        outputs: Seq::from_vec(outputs),
        bad: Seq::from_vec(bad),
        constraints: Seq::from_vec(constraints),
        justice,
        fairness: Seq::from_vec(fairness),
    };
    Ok((uses, rest))
}
