//! Writing the texts of certificates.

ghost use Rattle.std.specs.Prelude.{◌≡◌, ◌≢◌, ◌+◌, ◌*◌, ◌-◌, ◌^◌, ◌<◌, ◌≤◌, ◌++◌, OnOk, IfErr, codes, decimal, flat_map, length};
ghost use Rattle.std.specs.Io.KnownBytes.{Appends};
ghost use Rattle.base.specs.Devices.{CountsFailure};
ghost use Rattle.graph.specs.Circuits.{property_text};
ghost use Rattle.lrat.specs.Texts.{Puts, proof_text};
ghost use Rattle.certificate.specs.Texts.{IsUnwritten, SpellsCertificate, certificate_text, clause_line, first_line, lemma_text, section_text, sections_text};
ghost use Rattle.certificate.specs.Writing.{head_text, letter_of, literal_text};
ghost use Rattle.certificate.specs.declared.cert_write_error.CertWriteError.TheVariants.{Device};

use crate::cert_write_error::CertWriteError;
use crate::certificate::Certificate;
use crate::limits::{check, number, position};
use base::{Failed, Seq, Sink, put_all};
use graph::{Lit, Property};
use itoa::Buffer;
use lrat::{LratWriteError, Proof};

/// Puts a number and the bytes behind it.
pub fn put_number<W: Sink>(out: &mut W, number: u64, behind: &[u8]) -> Result<(), Failed>
    requires { W.failed out.old < 2 ^ 64 - 1 }
    ensures puts { Puts result (W.contents out.old) (W.contents out.new) (decimal number ++ behind.now) }
    ensures counts { CountsFailure (W.failed out.old) (W.failed out.new) result }
{
    let mut buffer = Buffer::new();
    put_all(out, buffer.format(number).as_bytes())?;
    put_all(out, behind)
}

/// The letter of a property's kind.
fn letter(property: Property) -> u8
    ensures { result ≡ letter_of property }
{
    match property {
        Property::Bad(_) => b'b',
        Property::Justice(_) => b'j',
        Property::Output(_) => b'o',
    }
}

/// Puts the name of a property, and a line end.
pub fn put_property<W: Sink>(out: &mut W, property: Property) -> Result<(), Failed>
    requires { W.failed out.old < 2 ^ 64 - 1 }
    ensures puts { Puts result (W.contents out.old) (W.contents out.new) (property_text property ++ codes "\n") }
    ensures counts { CountsFailure (W.failed out.old) (W.failed out.new) result }
{
    put_all(out, &[letter(property)])?;
    put_number(out, u64::from(position(property)), b"\n")
}

/// Puts a space and a literal.
fn put_literal<W: Sink>(out: &mut W, literal: Lit) -> Result<(), Failed>
    requires { W.failed out.old < 2 ^ 64 - 1 }
    ensures puts { Puts result (W.contents out.old) (W.contents out.new) (literal_text literal) }
    ensures counts { CountsFailure (W.failed out.old) (W.failed out.new) result }
{
    put_all(out, b" ")?;
    put_number(out, u64::from(number(literal)), b"")
}

/// Puts literals, a space before each.
fn put_literals<W: Sink>(out: &mut W, literals: &[Lit]) -> Result<(), Failed>
    requires { W.failed out.old < 2 ^ 64 - 1 }
    ensures puts { Puts result (W.contents out.old) (W.contents out.new) (flat_map literal_text literals.now) }
    ensures counts { CountsFailure (W.failed out.old) (W.failed out.new) result }
{
    for literal in literals {
        put_literal(out, *literal)?;
    }
    Ok(())
}

/// Puts the line of a clause.
pub fn put_clause<W: Sink>(out: &mut W, clause: &[Lit]) -> Result<(), Failed>
    requires { W.failed out.old < 2 ^ 64 - 1 }
    ensures puts { Puts result (W.contents out.old) (W.contents out.new) (clause_line clause.now) }
    ensures counts { CountsFailure (W.failed out.old) (W.failed out.new) result }
{
    put_number(out, clause.len() as u64, b"")?;
    put_literals(out, clause)?;
    put_all(out, b"\n")
}

/// Puts the lines of clauses.
fn put_clauses<W: Sink>(out: &mut W, clauses: &[Seq<Lit>]) -> Result<(), Failed>
    requires { W.failed out.old < 2 ^ 64 - 1 }
    ensures puts { Puts result (W.contents out.old) (W.contents out.new) (flat_map clause_line clauses.now) }
    ensures counts { CountsFailure (W.failed out.old) (W.failed out.new) result }
{
    for clause in clauses {
        put_clause(out, clause.as_slice())?;
    }
    Ok(())
}

/// Puts the lines of a proof.
fn put_proof<W: Sink>(out: &mut W, proof: &Proof) -> Result<(), Failed>
    requires { W.failed out.old < 2 ^ 64 - 1 }
    ensures puts { Puts result (W.contents out.old) (W.contents out.new) (proof_text proof.now) }
    ensures counts { CountsFailure (W.failed out.old) (W.failed out.new) result }
{
    match lrat::write(proof, out) {
        Ok(()) => Ok(()),
        Err(LratWriteError::Device) => Err(Failed),
    }
}

/// Puts the section of a proof with this letter.
pub fn put_section<W: Sink>(out: &mut W, letter: u8, proof: &Proof) -> Result<(), Failed>
    requires { W.failed out.old < 2 ^ 64 - 1 }
    ensures puts { Puts result (W.contents out.old) (W.contents out.new) (section_text letter proof.now) }
    ensures counts { CountsFailure (W.failed out.old) (W.failed out.new) result }
{
    put_all(out, &[letter, b'\n'])?;
    put_proof(out, proof)?;
    put_all(out, b".\n")
}

/// Puts the sections of proofs, each with this letter.
fn put_each<W: Sink>(out: &mut W, letter: u8, proofs: &[Proof]) -> Result<(), Failed>
    requires { W.failed out.old < 2 ^ 64 - 1 }
    ensures puts { Puts result (W.contents out.old) (W.contents out.new) (flat_map (section_text letter) proofs.now) }
    ensures counts { CountsFailure (W.failed out.old) (W.failed out.new) result }
{
    for proof in proofs {
        put_section(out, letter, proof)?;
    }
    Ok(())
}

/// Puts the sections for an invariant of this number of clauses.
fn put_sections<W: Sink>(out: &mut W, clauses: usize, proofs: &[Proof]) -> Result<(), Failed>
    requires room { W.failed out.old < 2 ^ 64 - 1 }
    requires enough { clauses + clauses ≤ length proofs.now }
    ensures puts { Puts result (W.contents out.old) (W.contents out.new) (sections_text clauses proofs.now) }
    ensures counts { CountsFailure (W.failed out.old) (W.failed out.new) result }
{
    put_each(out, b'i', &proofs[..clauses])?;
    put_each(out, b's', &proofs[clauses..clauses + clauses])?;
    put_each(out, b'b', &proofs[clauses + clauses..])
}

/// Puts the section of the lemmas, where there is one.
fn put_lemmas<W: Sink>(out: &mut W, certificate: &Certificate) -> Result<(), Failed>
    requires { W.failed out.old < 2 ^ 64 - 1 }
    ensures puts { Puts result (W.contents out.old) (W.contents out.new) (lemma_text certificate.now.lemmas) }
    ensures counts { CountsFailure (W.failed out.old) (W.failed out.new) result }
{
    match &certificate.lemmas {
        None => Ok(()),
        Some(lemmas) => put_section(out, b'l', lemmas),
    }
}

/// Puts the first line.
fn put_first_line<W: Sink>(out: &mut W, certificate: &Certificate) -> Result<(), Failed>
    requires { W.failed out.old < 2 ^ 64 - 1 }
    ensures puts { Puts result (W.contents out.old) (W.contents out.new) (first_line certificate.now.lemmas) }
    ensures counts { CountsFailure (W.failed out.old) (W.failed out.new) result }
{
    match &certificate.lemmas {
        None => put_all(out, b"aigcert 1\n"),
        Some(_) => put_all(out, b"aigcert 2\n"),
    }
}

/// Puts the lines before the sections.
fn put_head<W: Sink>(out: &mut W, certificate: &Certificate) -> Result<(), Failed>
    requires { W.failed out.old < 2 ^ 64 - 1 }
    ensures puts { Puts result (W.contents out.old) (W.contents out.new) (head_text certificate.now) }
    ensures counts { CountsFailure (W.failed out.old) (W.failed out.new) result }
{
    let clauses = certificate.invariant.as_slice();
    put_first_line(out, certificate)?;
    put_property(out, certificate.property)?;
    put_number(out, clauses.len() as u64, b"\n")?;
    put_clauses(out, clauses)
}

/// Puts the text of a certificate.
fn put_certificate<W: Sink>(out: &mut W, certificate: &Certificate) -> Result<(), Failed>
    requires room { W.failed out.old < 2 ^ 64 - 1 }
    requires enough { 2 * length certificate.now.invariant ≤ length certificate.now.sections }
    ensures puts { Puts result (W.contents out.old) (W.contents out.new) (certificate_text certificate.now) }
    ensures counts { CountsFailure (W.failed out.old) (W.failed out.new) result }
{
    put_head(out, certificate)?;
    put_lemmas(out, certificate)?;
    let clauses = certificate.invariant.as_slice().len();
    put_sections(out, clauses, certificate.sections.as_slice())
}

/// Writes the text of a certificate, which is the one text that spells it: `read` gives the
/// certificate again. The version is 2 where `lemmas` is a proof, of no lines too, and else 1. Where
/// no text spells it, nothing is put. It takes no memory.
pub fn write<W: Sink>(certificate: &Certificate, out: &mut W) -> Result<(), CertWriteError>
    requires { W.failed out.old < 2 ^ 64 - 1 }
    ensures written { OnOk result (Appends (W.contents out.old) (W.contents out.new) (certificate_text certificate.now)) }
    ensures spelled { OnOk result (SpellsCertificate (certificate_text certificate.now) certificate.now) }
    ensures refused { IfErr result (IsUnwritten certificate.now (W.contents out.old) (W.contents out.new)) }
    ensures kept { OnOk result (W.failed out.new ≡ W.failed out.old) }
    ensures device { IfErr result (λ e. e ≡ Device → W.failed out.new ≡ W.failed out.old + 1) }
    ensures untouched { IfErr result (λ e. e ≢ Device → out.new ≡ out.old) }
{
    check(certificate)?;
    put_certificate(out, certificate)?;
    Ok(())
}
