//! A certificate's text, checked while it is read.

ghost use Rattle.std.specs.Prelude.{◌≡◌, ◌-◌, ◌<◌, ◌≤◌, ◌^◌, ◌++◌, length, None, IfOk, IfNone, IfSome, MatchResult};
ghost use Rattle.base.specs.Devices.{IsAtEnd, Reads, FailsOnce};
ghost use Rattle.graph.specs.Circuits.{HasProperty, IsUpheld};
ghost use Rattle.graph.specs.declared.circuit.Property.TheVariants.{Justice};
ghost use Rattle.certificate.specs.Streams.{FindsWith, ForText};
ghost use Rattle.certificate.specs.declared.reader_error.ReaderError.TheVariants.{Device};
ghost use Rattle.extension.specs.Accepted.{IsAcceptedCertificate};
ghost use Rattle.certificate3.specs.Formats.{behind_at};
ghost use Rattle.certificate3.specs.Reading.{certificate_at, evidence_at};
ghost use Rattle.certificate3.specs.Texts.{Certificate as ACertificate, SpellsCertificate};
ghost use Rattle.checker3.specs.Judged.{IsJudged, IsUnshowable};

use crate::check_error::CheckError;
use crate::evidence::check_evidence;
use base::Source;
use certificate::{Reader, ReaderError};
use certificate3::{Claim, ClaimLine, FirstLine, skip_evidence};
use extension::{accepted_law, are_few_rounds, count_rounds};
use graph::{Model, Property};
use live_safe::LiveError;
use std::alloc::Global;

/// What was read and found.
#[derive(Clone, Copy)]
pub struct Outcome {
    /// what the certificate claims
    pub claim: Claim,
    /// the first cause, where the certificate is not accepted
    pub refusal: Option<CheckError>,
}

/// Why the claim cannot be shown, whatever follows; but for the size of what it speaks of.
fn unshowable(circuit: &Model, claim: Claim) -> Option<CheckError>
    ensures none { IfNone result (HasProperty circuit.now claim.property × (claim.rounds ≤ 2 ^ length circuit.now.latches)) }
    ensures some { IfSome result (IsUnshowable circuit.now claim.property claim.rounds) }
{
    if !circuit.parts().has_property(claim.property) {
        return Some(CheckError::NoProperty);
    }
    if !are_few_rounds(claim.rounds, circuit.latches().len()) {
        return Some(CheckError::TooManyRounds);
    }
    None
}

/// Reads all that is behind a claim about a justice property that is there, and checks it. After the
/// first fault it is only read.
fn check_justice<S: Source>(
    alloc: Global,
    circuit: &Model,
    claim: Claim,
    position: u32,
    reader: &mut Reader,
    from: &mut S,
) -> Result<Option<CheckError>, ReaderError>
    requires source { S.failed from.old < 2 ^ 64 - 1 }
    requires property { claim.property ≡ Justice position }
    requires there { HasProperty circuit.now claim.property }
    requires few { claim.rounds ≤ 2 ^ length circuit.now.latches }
    ensures says { Reads (S.leaves from.old) (S.leaves from.new) (λ ys zs. FindsWith (λ e found. IsJudged circuit.now (record { claim = claim; evidence = e }) found) (evidence_at (reader.old.held ++ ys)) result reader.new.held zs) }
    ensures device { FailsOnce result Device (S.failed from.old) (S.failed from.new) }
{
    match count_rounds(alloc, circuit, position, claim.rounds) {
        Ok(counter) => {
            counter.well_formed();
            check_evidence(alloc, &counter, counter.bad()[0], reader, from)
        }
        Err(LiveError::OutOfMemory(refused)) => Err(ReaderError::from(refused)),
        Err(LiveError::Limit) => {
            skip_evidence(alloc, reader, from)?;
            Ok(Some(CheckError::Limit))
        }
        // the property is there
        Err(LiveError::NoProperty(_)) => unreachable!(),
    }
}

/// Reads all that is behind a claim, and checks it. After the first fault it is only read.
fn check_claim<S: Source>(
    alloc: Global,
    circuit: &Model,
    claim: Claim,
    reader: &mut Reader,
    from: &mut S,
) -> Result<Option<CheckError>, ReaderError>
    requires source { S.failed from.old < 2 ^ 64 - 1 }
    ensures says { Reads (S.leaves from.old) (S.leaves from.new) (λ ys zs. FindsWith (λ e found. IsJudged circuit.now (record { claim = claim; evidence = e }) found) (evidence_at (reader.old.held ++ ys)) result reader.new.held zs) }
    ensures device { FailsOnce result Device (S.failed from.old) (S.failed from.new) }
{
    circuit.well_formed();
    if let Some(refusal) = unshowable(circuit, claim) {
        skip_evidence(alloc, reader, from)?;
        return Ok(Some(refusal));
    }
    match claim.property {
        Property::Bad(n) => check_evidence(alloc, circuit, circuit.bad()[n as usize], reader, from),
        Property::Justice(n) => check_justice(alloc, circuit, claim, n, reader, from),
        Property::Output(n) => {
            check_evidence(alloc, circuit, circuit.outputs()[n as usize], reader, from)
        }
    }
}

/// Reads what is behind the first line of a certificate, and checks it while it is read.
pub fn check_behind<S: Source>(
    alloc: Global,
    circuit: &Model,
    reader: &mut Reader,
    from: &mut S,
) -> Result<Outcome, ReaderError>
    requires source { S.failed from.old < 2 ^ 64 - 1 }
    ensures says { Reads (S.leaves from.old) (S.leaves from.new) (λ ys zs. FindsWith (λ c found. (found.claim ≡ c.claim) × IsJudged circuit.now c found.refusal) (behind_at (reader.old.held ++ ys)) result reader.new.held zs) }
    ensures device { FailsOnce result Device (S.failed from.old) (S.failed from.new) }
{
    let claim = reader.line::<ClaimLine, S>(alloc, (), from)?;
    let refusal = check_claim(alloc, circuit, claim, reader, from)?;
    Ok(Outcome { claim, refusal })
}

/// Reads a certificate, and checks it while it is read.
fn check_text<S: Source>(
    alloc: Global,
    circuit: &Model,
    reader: &mut Reader,
    from: &mut S,
) -> Result<Outcome, ReaderError>
    requires source { S.failed from.old < 2 ^ 64 - 1 }
    ensures says { Reads (S.leaves from.old) (S.leaves from.new) (λ ys zs. FindsWith (λ c found. (found.claim ≡ c.claim) × IsJudged circuit.now c found.refusal) (certificate_at (reader.old.held ++ ys)) result reader.new.held zs) }
    ensures device { FailsOnce result Device (S.failed from.old) (S.failed from.new) }
{
    reader.line::<FirstLine, S>(alloc, (), from)?;
    check_behind(alloc, circuit, reader, from)
}

/// Reads the certificate of version 3 that the source's bytes spell, and checks it while it is read.
/// It holds the extended circuit, the clauses, those of the section that is read, and one line; a
/// fault of the text, anywhere in it, goes before every fault of the check. After a fault of the text
/// nothing more is taken.
pub fn check_source<S: Source>(
    alloc: Global,
    circuit: &Model,
    from: &mut S,
) -> Result<Outcome, ReaderError>
    requires source { S.failed from.old < 2 ^ 64 - 1 }
    ensures says { Reads (S.leaves from.old) (S.leaves from.new) (λ ys zs. MatchResult result (λ found. (c : ACertificate) × SpellsCertificate ys c × (found.claim ≡ c.claim) × IsJudged circuit.now c found.refusal) (λ e. ForText e ((c : ACertificate) → SpellsCertificate ys c → ⊥))) }
    // Where nothing is refused, the property is upheld.
    ensures upheld { Reads (S.leaves from.old) (S.leaves from.new) (λ ys zs. IfOk result (λ found. found.refusal ≡ None → IsUpheld circuit.now found.claim.property)) }
    // Where something is, the bytes spell no certificate that is accepted.
    ensures refused { Reads (S.leaves from.old) (S.leaves from.new) (λ ys zs. IfOk result (λ found. IfSome found.refusal (λ _. (c : ACertificate) → SpellsCertificate ys c → IsAcceptedCertificate circuit.now c.claim.property c.claim.rounds c.evidence → ⊥))) }
    ensures ended { IfOk result (λ _. IsAtEnd (S.leaves from.new)) }
    ensures device { FailsOnce result Device (S.failed from.old) (S.failed from.new) }
{
    circuit.well_formed();
    accepted_law();
    let mut reader = Reader::new(alloc)?;
    let outcome = check_text(alloc, circuit, &mut reader, from)?;
    reader.end(from)?;
    Ok(outcome)
}
