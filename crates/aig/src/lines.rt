//! What defines a variable: inputs, latches and gates.

ghost use Rattle.aig.specs.Lines.{input_at, latch_at, gate_at};

use crate::delta::{NoDelta, delta};
use crate::numbered::DefinitionKind;
use aag::{ReadFault, next, reset};
use graph::{Gate, Latch, Lit};
use scan::Fault;

/// An input, of which nothing is written.
pub struct Input;

impl DefinitionKind for Input {
    type Item = Lit;

    ghost at = { λ _. input_at };

    fn item(
        text: &[u8],
        _max_var: u32,
        own: Lit,
    ) -> Result<(Lit, &[u8]), Fault<ReadFault<NoDelta>>> {
        Ok((own, text))
    }
}

/// A line of a latch.
pub struct LatchLine;

impl DefinitionKind for LatchLine {
    type Item = Latch;

    ghost at = { latch_at };

    #[tactic(auto, unfolding(crate::specs::Lines::latch_at, aag::specs::Lines::latch_end_at))]
    fn item(
        text: &[u8],
        max_var: u32,
        own: Lit,
    ) -> Result<(Latch, &[u8]), Fault<ReadFault<NoDelta>>> {
        let (next, end, rest) = next::<NoDelta>(text, max_var)?;
        if end == b'\n' {
            let reset = Lit(0);
            return Ok((
                Latch {
                    lit: own,
                    next,
                    reset,
                },
                rest,
            ));
        }
        let (reset, rest) = reset::<NoDelta>(rest, own)?;
        Ok((
            Latch {
                lit: own,
                next,
                reset,
            },
            rest,
        ))
    }
}

/// A gate, of which the differences of its literals are written.
pub struct GateDeltas;

impl DefinitionKind for GateDeltas {
    type Item = Gate;

    ghost at = { λ _. gate_at };

    #[tactic(auto, unfolding(crate::specs::Lines::gate_at))]
    fn item(
        text: &[u8],
        _max_var: u32,
        own: Lit,
    ) -> Result<(Gate, &[u8]), Fault<ReadFault<NoDelta>>> {
        let (first, rest) = delta(text, 1, own.0)?;
        let rhs0 = own.0 - first;
        let (second, rest) = delta(rest, 0, rhs0)?;
        let gate = Gate {
            lhs: own,
            rhs0: Lit(rhs0),
            rhs1: Lit(rhs0 - second),
        };
        Ok((gate, rest))
    }
}
