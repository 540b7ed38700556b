//! What a certificate of any version claims.

use crate::exit_error::{ExitError, Role, about, read_of};
use crate::files::read_text;
use base::{FromBytes, Lists, Refused, Seq};
use certificate::{Reader, ReaderError, read_clauses};
use certificate3::{
    AnyFirstLine, Claim, ClaimLine, Format, SizesLine, read_gates, read_latches, skip_proofs,
};
use graph::{Gate, Latch, Lit};
use std::alloc::Global;

/// What a certificate claims, and by which clauses.
#[derive(Drop)]
pub struct Claimed {
    /// its version
    pub format: Format,
    /// what it claims
    pub claim: Claim,
    /// its latches behind those of the circuit
    pub latches: Seq<Latch>,
    /// its gates behind those of the circuit
    pub gates: Seq<Gate>,
    /// its clauses
    pub invariant: Lists<Lit>,
}

/// The fault of a text that is refused.
pub fn refused_text(error: ReaderError) -> ExitError {
    ExitError::Fault {
        number: error.number(),
        place: error.place(),
    }
}

/// The clauses, in one list.
pub fn listed(alloc: Global, clauses: &[Seq<Lit>]) -> Result<Lists<Lit>, Refused> {
    let mut listed = Lists::new(alloc);
    for clause in clauses {
        listed.push(clause.as_slice())?;
    }
    Ok(listed)
}

/// What a certificate of version 1 or 2 claims. It adds no latches and no gates.
fn earlier(alloc: Global, format: Format, text: &[u8]) -> Result<Claimed, ExitError> {
    let found = match certificate::read(alloc, text) {
        Ok(certificate) => certificate,
        Err(error) => return Err(refused_text(ReaderError::from(error))),
    };
    Ok(Claimed {
        format,
        claim: Claim {
            property: found.property,
            rounds: 0,
        },
        latches: Seq::new(alloc),
        gates: Seq::new(alloc),
        invariant: listed(alloc, found.invariant.as_slice())?,
    })
}

/// What the text of a certificate of version 3 has behind its claim, with that. It is read to the end.
fn behind_claim(
    alloc: Global,
    claim: Claim,
    reader: &mut Reader,
    from: &mut FromBytes<'_>,
) -> Result<Claimed, ReaderError> {
    let sizes = reader.line::<SizesLine, FromBytes<'_>>(alloc, (), from)?;
    let latches = read_latches(alloc, sizes.latches, reader, from)?;
    let gates = read_gates(alloc, sizes.gates, reader, from)?;
    let count = reader.count(alloc, from)?;
    let invariant = read_clauses(alloc, count, reader, from)?;
    skip_proofs(alloc, count, reader, from)?;
    reader.end(from)?;
    Ok(Claimed {
        format: Format::Three,
        claim,
        latches,
        gates,
        invariant,
    })
}

/// What the text of a certificate of version 3 claims behind its first line.
fn third(
    alloc: Global,
    reader: &mut Reader,
    from: &mut FromBytes<'_>,
) -> Result<Claimed, ReaderError> {
    let claim = reader.line::<ClaimLine, FromBytes<'_>>(alloc, (), from)?;
    behind_claim(alloc, claim, reader, from)
}

/// What the text of a certificate claims.
fn read_claimed(alloc: Global, text: &[u8]) -> Result<Claimed, ExitError> {
    let mut reader = Reader::new(alloc)?;
    let mut from = FromBytes::new(text);
    match reader.line::<AnyFirstLine, FromBytes<'_>>(alloc, (), &mut from) {
        Ok(Format::Three) => third(alloc, &mut reader, &mut from).map_err(refused_text),
        Ok(format) => earlier(alloc, format, text),
        Err(error) => Err(refused_text(error)),
    }
}

/// The text of the certificate in the file of this name, and what it claims. That it is accepted for a circuit is another
/// question.
pub fn claimed_in(rt: &HostRuntime, name: &str) -> Result<(Vec<u8>, Claimed), ExitError> {
    let text = read_of(Role::Invariant, read_text(rt, name))?;
    let claimed = about(Role::Invariant, read_claimed(rt.alloc(), text.as_slice()))?;
    Ok((text, claimed))
}
