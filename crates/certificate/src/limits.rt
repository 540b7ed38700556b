//! Which certificates have a text.

ghost use Rattle.std.specs.Prelude.{◌≡◌, ◌<◌, ◌≤◌, ◌↔◌, All, IsTrue, IfSome, OnOk, IfErr, length};
ghost use Rattle.graph.specs.Circuits.{position_of};
ghost use Rattle.lrat.specs.Limits.{IsLine};
ghost use Rattle.certificate.specs.Texts.{IsCertificate};
ghost use Rattle.certificate.specs.Writing.{SpelledByNone};

use crate::cert_write_error::CertWriteError;
use crate::certificate::Certificate;
use crate::head::GREATEST;
use base::Seq;
use graph::{Lit, Property};
use lrat::Proof;

/// The greatest count of clauses, and of literals in a clause.
const MOST: usize = GREATEST as usize;

/// The number that a literal is written as.
pub fn number(literal: Lit) -> u32
    ensures { result ≡ literal.0 }
{
    literal.0
}

/// The position that a property is written with.
pub fn position(property: Property) -> u32
    ensures { result ≡ position_of property }
{
    match property {
        Property::Bad(position) | Property::Justice(position) | Property::Output(position) => {
            position
        }
    }
}

/// That each literal is in its limits, which its type keeps.
fn literals_fit(literals: &[Lit])
    ensures { All (λ a. a.0 < 4294967296) literals.now }
{
    for literal in literals {
        let _number = number(*literal);
    }
}

/// That each line is in its limits, which the type of a proof keeps.
fn lines_fit(sections: &[Proof])
    ensures { All (All IsLine) sections.now }
{
    for proof in sections {
        let _lines = proof.lines();
    }
}

/// That each line of the lemmas is in its limits, which the type of a proof keeps.
fn lemmas_fit(certificate: &Certificate)
    ensures { IfSome certificate.now.lemmas (All IsLine) }
{
    if let Some(lemmas) = &certificate.lemmas {
        let _lines = lemmas.lines();
    }
}

/// Whether no clause has too many literals.
fn are_short(clauses: &[Seq<Lit>]) -> bool
    ensures short { IsTrue result ↔ All (λ clause. length clause ≤ 4194303) clauses.now }
    ensures small { IsTrue result → All (All (λ a. a.0 < 4294967296)) clauses.now }
{
    for clause in clauses {
        if clause.len() > MOST {
            return false;
        }
        literals_fit(clause.as_slice());
    }
    true
}

/// Whether a text spells the certificate.
pub fn check(certificate: &Certificate) -> Result<(), CertWriteError>
    ensures ok { OnOk result (IsCertificate certificate.now) }
    ensures err { IfErr result (SpelledByNone certificate.now) }
{
    let clauses = certificate.invariant.as_slice();
    let sections = certificate.sections.as_slice();
    if sections.len() != 2 * clauses.len() + 1 {
        return Err(CertWriteError::Sections {
            found: sections.len() as u64,
        });
    }
    if clauses.len() > MOST || !are_short(clauses) {
        return Err(CertWriteError::Number);
    }
    let _position = position(certificate.property);
    lemmas_fit(certificate);
    lines_fit(sections);
    Ok(())
}
