//! The kinds of lines in the text of a certificate of version 3, beside those of the earlier ones.

ghost use Rattle.scan.specs.Reading.{Gives};
ghost use Rattle.certificate3.specs.Reading.{claim_at, first_line_at, gate_at, hints_at, ids_at, latch_at, sizes_at, spaced_at};

use crate::claim::{Claim, read_claim};
use crate::sizes::Sizes;
use certificate::{CertFault, GREATEST, IN_LINE, IN_VERSION};
use graph::{Gate, Latch, Lit};
use pieces::BufferKind;
use scan::{Fault, LineKind, byte, field, lines_into, number, tag};
use std::alloc::Global;

/// The first line.
pub struct FirstLine;

impl LineKind for FirstLine {
    type Item = ();

    type Context = ();

    type Fault = CertFault;

    ghost allows = { λ _. Unit {0} };

    ghost at = { λ _ bytes. first_line_at bytes };

    #[tactic(auto, unfolding(crate::specs::Reading::first_line_at))]
    fn line(_alloc: Global, text: &[u8], _context: ()) -> Result<((), &[u8]), Fault<CertFault>> {
        let rest = tag(text, b"aigcert 3\n", IN_VERSION)?;
        Ok(((), rest))
    }
}

/// The line of the property.
pub struct ClaimLine;

impl LineKind for ClaimLine {
    type Item = Claim;

    type Context = ();

    type Fault = CertFault;

    ghost allows = { λ _. Unit {0} };

    ghost at = { λ _ bytes. claim_at bytes };

    fn line(_alloc: Global, text: &[u8], _context: ()) -> Result<(Claim, &[u8]), Fault<CertFault>> {
        read_claim(text)
    }
}

/// The line that says how many latches and gates there are.
pub struct SizesLine;

impl LineKind for SizesLine {
    type Item = Sizes;

    type Context = ();

    type Fault = CertFault;

    ghost allows = { λ _. Unit {0} };

    ghost at = { λ _ bytes. sizes_at bytes };

    #[tactic(auto, unfolding(crate::specs::Reading::sizes_at))]
    fn line(_alloc: Global, text: &[u8], _context: ()) -> Result<(Sizes, &[u8]), Fault<CertFault>> {
        let (latches, rest) = field(text, GREATEST, b' ', IN_LINE)?;
        let (gates, rest) = field(rest, GREATEST, b'\n', IN_LINE)?;
        Ok((Sizes { latches, gates }, rest))
    }
}

/// The line of a latch.
pub struct LatchLine;

impl LineKind for LatchLine {
    type Item = Latch;

    type Context = ();

    type Fault = CertFault;

    ghost allows = { λ _. Unit {0} };

    ghost at = { λ _ bytes. latch_at bytes };

    #[tactic(auto, unfolding(crate::specs::Reading::latch_at))]
    fn line(_alloc: Global, text: &[u8], _context: ()) -> Result<(Latch, &[u8]), Fault<CertFault>> {
        let (lit, rest) = field(text, u32::MAX, b' ', IN_LINE)?;
        let (next, rest) = field(rest, u32::MAX, b' ', IN_LINE)?;
        let (reset, rest) = field(rest, u32::MAX, b'\n', IN_LINE)?;
        let latch = Latch {
            lit: Lit(lit),
            next: Lit(next),
            reset: Lit(reset),
        };
        Ok((latch, rest))
    }
}

/// The line of a gate.
pub struct GateLine;

impl LineKind for GateLine {
    type Item = Gate;

    type Context = ();

    type Fault = CertFault;

    ghost allows = { λ _. Unit {0} };

    ghost at = { λ _ bytes. gate_at bytes };

    #[tactic(auto, unfolding(crate::specs::Reading::gate_at))]
    fn line(_alloc: Global, text: &[u8], _context: ()) -> Result<(Gate, &[u8]), Fault<CertFault>> {
        let (lhs, rest) = field(text, u32::MAX, b' ', IN_LINE)?;
        let (rhs0, rest) = field(rest, u32::MAX, b' ', IN_LINE)?;
        let (rhs1, rest) = field(rest, u32::MAX, b'\n', IN_LINE)?;
        let gate = Gate {
            lhs: Lit(lhs),
            rhs0: Lit(rhs0),
            rhs1: Lit(rhs1),
        };
        Ok((gate, rest))
    }
}

/// An id behind a space.
struct SpacedId;

impl LineKind for SpacedId {
    type Item = u32;

    type Context = ();

    type Fault = CertFault;

    ghost allows = { λ _. Unit {0} };

    ghost at = { λ _ bytes. spaced_at bytes };

    #[tactic(auto, unfolding(crate::specs::Reading::spaced_at))]
    fn line(_alloc: Global, text: &[u8], _context: ()) -> Result<(u32, &[u8]), Fault<CertFault>> {
        let rest = byte(text, b' ', IN_LINE)?;
        number(rest, u32::MAX, IN_LINE)
    }
}

/// As many ids as the count says, put into a list that is emptied first and keeps its memory, and what
/// follows the line end behind them.
#[tactic(auto, unfolding(crate::specs::Reading::ids_at))]
fn ids_into<'t>(
    alloc: Global,
    ids: &mut Vec<u32>,
    count: u32,
    text: &'t [u8],
) -> Result<&'t [u8], Fault<CertFault>>
    ensures { Gives (λ x. (ids.new.items, x.now)) result (ids_at count text.now) }
{
    let rest = lines_into::<SpacedId>(alloc, ids, count, text, ())?;
    let rest = byte(rest, b'\n', IN_LINE)?;
    Ok(rest)
}

/// The hints of a line, put into a list that is emptied first and keeps its memory, and what follows the
/// line.
#[tactic(auto, unfolding(crate::specs::Reading::hints_at))]
fn hints_into<'t>(
    alloc: Global,
    hints: &mut Vec<u32>,
    text: &'t [u8],
) -> Result<&'t [u8], Fault<CertFault>>
    ensures { Gives (λ x. (hints.new.items, x.now)) result (hints_at text.now) }
{
    let (count, rest) = number(text, GREATEST, IN_LINE)?;
    ids_into(alloc, hints, count, rest)
}

/// The line of a clause's hints.
pub struct HintsLine;

impl BufferKind for HintsLine {
    ghost use Rattle.std.specs.Prelude.{ℕ, List};

    type Buffer = Vec<u32>;

    type Item = ();

    type Context = ();

    type Fault = CertFault;

    ghost Value = { List ℕ };

    ghost allows = { λ _. Unit {0} };

    ghost at = { λ _ bytes. hints_at bytes };

    ghost seen = { λ _ hints. hints.items };

    fn line_into<'t>(
        alloc: Global,
        hints: &mut Vec<u32>,
        text: &'t [u8],
        _context: (),
    ) -> Result<((), &'t [u8]), Fault<CertFault>> {
        let rest = hints_into(alloc, hints, text)?;
        Ok(((), rest))
    }
}
