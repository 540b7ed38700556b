//! The kinds of lines in the text of a certificate.

ghost use Rattle.std.specs.Prelude.{◌≡◌};
ghost use Rattle.scan.specs.Words.{any, field_at};
ghost use Rattle.certificate.specs.Reading.{first_line_at, greatest, property_at};
ghost use Rattle.certificate.specs.Streams.{letter_at, letter_of};

use crate::cert_fault::{CertFault, IN_LETTER, IN_LINE};
use crate::head::{GREATEST, Version, first_line, property};
use graph::Property;
use scan::{Fault, LineKind, byte, field};
use std::alloc::Global;

/// What the sections of a certificate are of.
#[derive(Clone, Copy)]
pub enum SectionKind {
    /// the lemmas, in version 2
    Lemmas,
    /// the initial case of a clause
    Initial,
    /// the step case of a clause
    Step,
    /// the bad case
    Bad,
}

impl SectionKind {
    /// The letter with which the section begins.
    fn letter(self) -> u8
        ensures { result ≡ letter_of self }
    {
        match self {
            SectionKind::Lemmas => b'l',
            SectionKind::Initial => b'i',
            SectionKind::Step => b's',
            SectionKind::Bad => b'b',
        }
    }
}

/// The first line.
pub struct FirstLine;

impl LineKind for FirstLine {
    type Item = Version;

    type Context = ();

    type Fault = CertFault;

    ghost allows = { λ _. Unit {0} };

    ghost at = { λ _ bytes. first_line_at bytes };

    fn line(
        _alloc: Global,
        text: &[u8],
        _context: (),
    ) -> Result<(Version, &[u8]), Fault<CertFault>> {
        first_line(text)
    }
}

/// The line of the property.
pub struct PropertyLine;

impl LineKind for PropertyLine {
    type Item = Property;

    type Context = ();

    type Fault = CertFault;

    ghost allows = { λ _. Unit {0} };

    ghost at = { λ _ bytes. property_at bytes };

    fn line(
        _alloc: Global,
        text: &[u8],
        _context: (),
    ) -> Result<(Property, &[u8]), Fault<CertFault>> {
        property(text)
    }
}

/// The line that says how many clauses there are.
pub struct CountLine;

impl LineKind for CountLine {
    type Item = u32;

    type Context = ();

    type Fault = CertFault;

    ghost allows = { λ _. Unit {0} };

    ghost at = { λ _ bytes. field_at greatest any 10 bytes };

    fn line(_alloc: Global, text: &[u8], _context: ()) -> Result<(u32, &[u8]), Fault<CertFault>> {
        field(text, GREATEST, b'\n', IN_LINE)
    }
}

/// The line with which a section begins.
pub struct LetterLine;

impl LineKind for LetterLine {
    type Item = ();

    type Context = SectionKind;

    type Fault = CertFault;

    ghost allows = { λ _. Unit {0} };

    ghost at = { letter_at };

    #[tactic(auto, unfolding(crate::specs::Streams::letter_at))]
    fn line(
        _alloc: Global,
        text: &[u8],
        kind: SectionKind,
    ) -> Result<((), &[u8]), Fault<CertFault>> {
        let rest = byte(text, kind.letter(), IN_LETTER)?;
        let rest = byte(rest, b'\n', IN_LINE)?;
        Ok(((), rest))
    }
}
