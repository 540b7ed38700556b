//! The header of a circuit.

ghost use Rattle.std.specs.Prelude.{◌≤◌, IfOk};
ghost use Rattle.scan.specs.Reading.{Gives};
ghost use Rattle.aag.specs.Sections.{header_at};

use crate::lines::GREATEST;
use crate::read_fault::ReadFault;
use scan::{Fault, counts, field, tag};

/// What a header states: the greatest variable, and how many there are of each kind.
#[derive(Clone, Copy)]
pub struct Header {
    pub max_var: u32,
    pub inputs: u32,
    pub latches: u32,
    pub outputs: u32,
    pub gates: u32,
    pub bad: u32,
    pub constraints: u32,
    pub justice: u32,
    pub fairness: u32,
}

/// The header that begins with this word, and what follows its line.
#[tactic(auto, unfolding(crate::specs::Sections::header_at))]
pub fn read_header<'a, L: Copy>(
    text: &'a [u8],
    word: &[u8],
) -> Result<(Header, &'a [u8]), Fault<ReadFault<L>>>
    ensures value { Gives (λ x. (x.0, x.1.now)) result (header_at word.now text.now) }
    ensures within { IfOk result (λ x. x.0.max_var ≤ GREATEST) }
{
    let kinds = ReadFault::<L>::IN_HEADER;
    let rest = tag(text, word, kinds)?;
    let (max_var, rest) = field(rest, GREATEST, b' ', kinds)?;
    let (counts, rest) = counts(rest, GREATEST, kinds)?;
    let header = Header {
        max_var,
        inputs: counts[0],
        latches: counts[1],
        outputs: counts[2],
        gates: counts[3],
        bad: counts[4],
        constraints: counts[5],
        justice: counts[6],
        fairness: counts[7],
    };
    Ok((header, rest))
}
