//! Reading the texts of certificates.

ghost use Rattle.std.specs.Prelude.{IfOk};
ghost use Rattle.scan.specs.Reading.{Gives, ended};
ghost use Rattle.certificate.specs.Reading.{certificate_at};
ghost use Rattle.certificate.specs.Texts.{IsRead, SpellsCertificate};
ghost use Rattle.certificate.specs.declared.certificate.Certificate.{Certificate as Spelled};

use crate::cert_error::CertError;
use crate::cert_fault::{CertFault, IN_LINE, error};
use crate::certificate::Certificate;
use crate::head::{ClauseLine, GREATEST, first_line, property};
use crate::sections::{lemmas, sections};
use base::Seq;
use scan::{Fault, field, lines};
use std::alloc::Global;

/// The certificate that the text begins with, and what follows it.
#[tactic(auto, unfolding(crate::specs::Reading::certificate_at))]
fn next_certificate(alloc: Global, text: &[u8]) -> Result<(Certificate, &[u8]), Fault<CertFault>>
    ensures { Gives (λ x. (x.0, x.1.now)) result (certificate_at text.now) }
{
    let (version, rest) = first_line(text)?;
    let (property, rest) = property(rest)?;
    let (count, rest) = field(rest, GREATEST, b'\n', IN_LINE)?;
    let (invariant, rest) = lines::<ClauseLine>(alloc, count, rest, ())?;
    let (lemmas, rest) = lemmas(alloc, version, rest)?;
    let (sections, rest) = sections(alloc, count, rest)?;
    let certificate = Certificate {
        property,
        invariant: Seq::from_vec(invariant),
        lemmas,
        sections,
    };
    Ok((certificate, rest))
}

/// The certificate that the whole text is.
fn only_certificate(alloc: Global, text: &[u8]) -> Result<Certificate, Fault<CertFault>>
    ensures { Gives (λ x. x) result (ended (certificate_at text.now)) }
{
    let (certificate, rest) = next_certificate(alloc, text)?;
    if !rest.is_empty() {
        return Err(Fault::Text {
            kind: CertFault::Section,
            left: rest.len(),
        });
    }
    Ok(certificate)
}

/// Reads the text of a certificate, version 1 or 2: `aigcert 1` or `aigcert 2`, the property, how
/// many clauses the invariant has, a line `count lit .. lit` for each, in version 2 one section `l`,
/// and for `n` clauses `n` sections `i`, `n` sections `s` and one section `b`, each a line with its
/// letter, lines of an LRAT proof, and a line `.`. One pass over the text, and no memory beside the
/// lists that are built.
pub fn read(alloc: Global, text: &[u8]) -> Result<Certificate, CertError>
    // What is read is spelled so.
    ensures found { IfOk result (λ c. SpellsCertificate text.now c) }
    // What is spelled so is read, unless memory runs out.
    ensures only { (c : Spelled) → SpellsCertificate text.now c → IsRead result c }
{
    match only_certificate(alloc, text) {
        Ok(certificate) => Ok(certificate),
        Err(fault) => Err(error(text.len(), fault)),
    }
}
