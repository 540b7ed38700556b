//! The sections.

ghost use Rattle.std.specs.Prelude.{◌≡◌, ◌++◌, Option, OnOk};
ghost use Rattle.scan.specs.Reading.{Gives};
ghost use Rattle.scan.specs.Lists.{items_at};
ghost use Rattle.lrat.specs.declared.line.Line.{Line as ALine};
ghost use Rattle.certificate.specs.Reading.{item_at, lemmas_at, line_where, section_at, sections_at};

use crate::cert_fault::{CertFault, IN_LETTER, IN_LINE};
use crate::head::Version;
use base::{Refused, Seq, push};
use lrat::{Line, LineBuffer, Proof, next_line};
use pieces::BufferKind;
use scan::{Fault, LineKind, byte, lines};
use std::alloc::Global;

/// A line of a section, or none where a line with a dot ends it, and what follows.
#[tactic(auto, unfolding(crate::specs::Reading::item_at))]
fn line_or_end(alloc: Global, text: &[u8]) -> Result<(Option<Line>, &[u8]), Fault<CertFault>>
    ensures { Gives (λ x. (x.0, x.1.now)) result (item_at text.now) }
{
    match text {
        [b'.', behind @ ..] => {
            let rest = byte(behind, b'\n', IN_LINE)?;
            Ok((None, rest))
        }
        _ => {
            let (line, rest) = next_line(alloc, text, IN_LINE)?;
            Ok((Some(line), rest))
        }
    }
}

/// A line of a section, which is read into a buffer; the answer is whether there is one, else a line
/// with a dot ends the section.
pub struct ItemLine;

impl BufferKind for ItemLine {
    type Buffer = LineBuffer;

    type Item = bool;

    type Context = ();

    type Fault = CertFault;

    ghost Value = { Option ALine };

    ghost allows = { λ _. Unit {0} };

    ghost at = { λ _ bytes. item_at bytes };

    ghost seen = { line_where };

    #[tactic(auto, unfolding(crate::specs::Reading::item_at))]
    #[inline(always)]
    fn line_into<'t>(
        alloc: Global,
        line: &mut LineBuffer,
        text: &'t [u8],
        _context: (),
    ) -> Result<(bool, &'t [u8]), Fault<CertFault>> {
        match text {
            [b'.', behind @ ..] => {
                let rest = byte(behind, b'\n', IN_LINE)?;
                Ok((false, rest))
            }
            _ => {
                let rest = line.read(alloc, text, IN_LINE)?;
                Ok((true, rest))
            }
        }
    }
}

/// The lines of a section, and what follows the line with a dot behind them. Each goes into the
/// proof as it is read; a line that was read is in its limits, so only running out of memory keeps it out.
fn section_lines(alloc: Global, text: &[u8]) -> Result<(Proof, &[u8]), Fault<CertFault>>
    ensures { Gives (λ x. (x.0, x.1.now)) result (items_at item_at text.now) }
{
    let mut proof = Proof::new(alloc);
    let mut rest = text;
    'reading: loop {
        let (item, after) = line_or_end(alloc, rest)?;
        rest = after;
        let Some(line) = item else {
            return Ok((proof, rest));
        };
        proof.push_line(line)?;
    }
}

/// The section with this letter, and what follows it.
#[tactic(auto, unfolding(crate::specs::Reading::section_at))]
fn section(alloc: Global, text: &[u8], letter: u8) -> Result<(Proof, &[u8]), Fault<CertFault>>
    ensures { Gives (λ x. (x.0, x.1.now)) result (section_at letter text.now) }
{
    let rest = byte(text, letter, IN_LETTER)?;
    let rest = byte(rest, b'\n', IN_LINE)?;
    section_lines(alloc, rest)
}

/// The lemmas of a text of this version, and what follows their section.
#[tactic(auto, unfolding(crate::specs::Reading::lemmas_at))]
pub fn lemmas(
    alloc: Global,
    version: Version,
    text: &[u8],
) -> Result<(Option<Proof>, &[u8]), Fault<CertFault>>
    ensures { Gives (λ x. (x.0, x.1.now)) result (lemmas_at version text.now) }
{
    match version {
        Version::One => Ok((None, text)),
        Version::Two => {
            let (lemmas, rest) = section(alloc, text, b'l')?;
            Ok((Some(lemmas), rest))
        }
    }
}

/// A section with a letter.
struct AnySection;

impl LineKind for AnySection {
    type Item = Proof;

    type Context = u8;

    type Fault = CertFault;

    ghost allows = { λ _. Unit {0} };

    ghost at = { section_at };

    fn line(alloc: Global, text: &[u8], letter: u8) -> Result<(Proof, &[u8]), Fault<CertFault>> {
        section(alloc, text, letter)
    }
}

/// Adds the proofs at the end of the list.
fn append(list: &mut Vec<Proof>, proofs: Vec<Proof>) -> Result<(), Refused>
    ensures { OnOk result (list.new.items ≡ list.old.items ++ proofs.items) }
{
    for proof in proofs {
        push(list, proof)?;
    }
    Ok(())
}

/// The sections for an invariant of this number of clauses, and what follows the last one.
#[tactic(auto, unfolding(crate::specs::Reading::sections_at))]
pub fn sections(
    alloc: Global,
    clauses: u32,
    text: &[u8],
) -> Result<(Seq<Proof>, &[u8]), Fault<CertFault>>
    ensures { Gives (λ x. (x.0, x.1.now)) result (sections_at clauses text.now) }
{
    let (mut sections, rest) = lines::<AnySection>(alloc, clauses, text, b'i')?;
    let (steps, rest) = lines::<AnySection>(alloc, clauses, rest, b's')?;
    append(&mut sections, steps)?;
    let (bad, rest) = section(alloc, rest, b'b')?;
    push(&mut sections, bad)?;
    Ok((Seq::from_vec(sections), rest))
}
