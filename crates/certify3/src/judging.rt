//! The text of a certificate, and its judge.

ghost use Rattle.std.specs.Prelude.{◌≡◌, IfErr, IfOk, IsTrue};
ghost use Rattle.base.specs.Witness.{witness};
ghost use Rattle.certificate3.specs.Writing.{evidence_in};
ghost use Rattle.certify3.specs.Outcomes.{IsAcceptedText, IsOfEvidence};
ghost use Rattle.certify3.specs.declared.certified.Certified.TheVariants.{Unaccepted};
ghost use Rattle.certify3.specs.declared.certify_error.CertifyError.TheVariants.{OutOfMemory};

use crate::certified::Certified;
use crate::certify_error::CertifyError;
use crate::text::Text;
use base::FromBytes;
use certificate::{CertError, ReaderError};
use certificate3::{Claim, Evidence, WriteError, read_law, write};
use checker3::check_source;
use graph::Model;
use std::alloc::Global;

/// Whether the text is accepted for the circuit.
fn is_accepted(alloc: Global, circuit: &Model, text: &[u8]) -> Result<bool, CertifyError>
    ensures accepted { IfOk result (λ yes. IsTrue yes → IsAcceptedText circuit.now text.now) }
    ensures memory { IfErr result (λ e. e ≡ OutOfMemory witness) }
{
    match check_source(alloc, circuit, &mut FromBytes::new(text)) {
        Ok(outcome) => Ok(outcome.refusal.is_none()),
        Err(ReaderError::Refused(CertError::OutOfMemory(refused))) => {
            Err(CertifyError::OutOfMemory(refused))
        }
        Err(_) => Ok(false),
    }
}

/// The text of the claim with its evidence, where one spells them and is accepted for the circuit.
pub fn judge(
    alloc: Global,
    circuit: &Model,
    claim: Claim,
    evidence: &Evidence,
) -> Result<Certified, CertifyError>
    ensures evidence { IfOk result (IsOfEvidence circuit.now claim (evidence_in evidence.now)) }
    ensures memory { IfErr result (λ e. e ≡ OutOfMemory witness) }
{
    read_law();
    let mut out = Text::new(alloc);
    if let Err(error) = write(claim, evidence, &mut out) {
        return unwritten(error, &out);
    }
    let text = out.into_bytes();
    if is_accepted(alloc, circuit, text.as_slice())? {
        Ok(Certified::Certificate(text))
    } else {
        Ok(Certified::Unaccepted)
    }
}

/// What it comes to that no text was written: there is none, or no memory for it.
fn unwritten(error: WriteError, out: &Text) -> Result<Certified, CertifyError>
    ensures none { IfOk result (λ c. c ≡ Unaccepted) }
    ensures memory { IfErr result (λ e. e ≡ OutOfMemory witness) }
{
    match (error, out.refused()) {
        (WriteError::Device, Some(refused)) => Err(CertifyError::OutOfMemory(refused)),
        _ => Ok(Certified::Unaccepted),
    }
}
