//! The sections of a certificate's text, checked line by line.

ghost use Rattle.base.specs.Witness.{witness};
ghost use Rattle.std.specs.Prelude.{◌≡◌, ◌≢◌, ◌-◌, ◌<◌, ◌^◌, ◌++◌, All, None, Some, IfOk, IfNone};
ghost use Rattle.base.specs.Devices.{Reads, FailsOnce};
ghost use Rattle.scan.specs.Lists.{items_at};
ghost use Rattle.lrat.specs.Literals.{IsLiteral};
ghost use Rattle.lrat.specs.declared.fault.Fault.TheVariants.{OutOfMemory};
ghost use Rattle.certificate.specs.Reading.{item_at, section_at};
ghost use Rattle.certificate.specs.Streams.{FindsWith, letter_of};
ghost use Rattle.certificate.specs.declared.reader_error.ReaderError.TheVariants.{Device};
ghost use Rattle.checker2.specs.Streamed.{AreLemmas, IsFed, IsOfCase};

use base::Source;
use certificate::{Reader, ReaderError, SectionKind, skip_lines};
use lrat::{Fault, LineBuffer, Refuter};
use std::alloc::Global;

/// Reads the rest of a section in which this fault was found. Out of memory is no fault of the
/// section, and ends the reading.
fn skip_refused<S: Source>(
    alloc: Global,
    fault: Fault,
    reader: &mut Reader,
    from: &mut S,
) -> Result<Option<Fault>, ReaderError>
    requires source { S.failed from.old < 2 ^ 64 - 1 }
    ensures says { Reads (S.leaves from.old) (S.leaves from.new) (λ ys zs. FindsWith (λ lines found. (found ≡ Some fault) × (fault ≢ OutOfMemory witness)) (items_at item_at (reader.old.held ++ ys)) result reader.new.held zs) }
    ensures found { IfOk result (λ found. (found ≡ Some fault) × (fault ≢ OutOfMemory witness)) }
    ensures device { FailsOnce result Device (S.failed from.old) (S.failed from.new) }
{
    match fault {
        Fault::OutOfMemory(refused) => Err(ReaderError::from(refused)),
        _ => {
            skip_lines(alloc, reader, from)?;
            Ok(Some(fault))
        }
    }
}

/// Reads the lines of a section up to its end into the buffer, one after the other, and feeds them
/// to the refuter. After the first fault the lines are only read.
fn feed_lines<S: Source>(
    alloc: Global,
    refuter: &mut Refuter,
    line: &mut LineBuffer,
    reader: &mut Reader,
    from: &mut S,
) -> Result<Option<Fault>, ReaderError>
    requires source { S.failed from.old < 2 ^ 64 - 1 }
    requires fresh { refuter.old.refusal ≡ None }
    ensures base { refuter.new.base ≡ refuter.old.base }
    ensures fresh { IfOk result (λ found. IfNone found (refuter.new.refusal ≡ None)) }
    ensures says { Reads (S.leaves from.old) (S.leaves from.new) (λ ys zs. FindsWith (IsFed refuter.old.base.vars refuter.old.stage) (items_at item_at (reader.old.held ++ ys)) result reader.new.held zs) }
    ensures device { FailsOnce result Device (S.failed from.old) (S.failed from.new) }
{
    'feeding: loop {
        let there = reader.line_into(alloc, line, from)?;
        if !there {
            return match refuter.finish() {
                Ok(()) => Ok(None),
                Err(fault) => Ok(Some(fault)),
            };
        }
        if let Err(fault) = refuter.feed(alloc, line.as_ref()) {
            return skip_refused(alloc, fault, reader, from);
        }
    }
}

/// Reads a section of this kind, and checks it as a refutation of what the refuter shares, with the
/// units. It costs the units and the section. The buffer holds one line after the other.
pub fn check_section<S: Source>(
    alloc: Global,
    kind: SectionKind,
    refuter: &mut Refuter,
    units: &[i32],
    line: &mut LineBuffer,
    reader: &mut Reader,
    from: &mut S,
) -> Result<Option<Fault>, ReaderError>
    requires source { S.failed from.old < 2 ^ 64 - 1 }
    requires fresh { refuter.old.refusal ≡ None }
    requires in_range { All (IsLiteral refuter.old.base.vars) units.now }
    ensures base { refuter.new.base ≡ refuter.old.base }
    ensures fresh { IfOk result (λ found. IfNone found (refuter.new.refusal ≡ None)) }
    ensures says { Reads (S.leaves from.old) (S.leaves from.new) (λ ys zs. FindsWith (IsOfCase (record { base = refuter.old.base; units = units.now })) (section_at (letter_of kind) (reader.old.held ++ ys)) result reader.new.held zs) }
    ensures device { FailsOnce result Device (S.failed from.old) (S.failed from.new) }
{
    reader.section(alloc, kind, from)?;
    if let Err(fault) = refuter.begin(alloc, units) {
        return skip_refused(alloc, fault, reader, from);
    }
    feed_lines(alloc, refuter, line, reader, from)
}

/// Reads the lines of the lemmas up to their end, checks them, and lets the refuter share them. It
/// holds one line. After the first fault the lines are only read.
fn share_lines<S: Source>(
    alloc: Global,
    refuter: &mut Refuter,
    reader: &mut Reader,
    from: &mut S,
) -> Result<Option<Fault>, ReaderError>
    requires source { S.failed from.old < 2 ^ 64 - 1 }
    requires fresh { refuter.old.refusal ≡ None }
    ensures vars { refuter.new.base.vars ≡ refuter.old.base.vars }
    ensures fresh { IfOk result (λ found. IfNone found (refuter.new.refusal ≡ None)) }
    ensures says { Reads (S.leaves from.old) (S.leaves from.new) (λ ys zs. FindsWith (AreLemmas refuter.old.base.vars refuter.old.stage refuter.new.base) (items_at item_at (reader.old.held ++ ys)) result reader.new.held zs) }
    ensures device { FailsOnce result Device (S.failed from.old) (S.failed from.new) }
{
    let mut line = LineBuffer::new(alloc);
    'taking: loop {
        let there = reader.line_into(alloc, &mut line, from)?;
        if !there {
            return match refuter.share() {
                Ok(()) => Ok(None),
                Err(_) => unreachable!(),
            };
        }
        if let Err(fault) = refuter.lemma(line.as_ref()) {
            return skip_refused(alloc, fault, reader, from);
        }
    }
}

/// Reads the section of the lemmas, checks them, and lets the refuter share them. It holds one
/// line. After the first fault the lines are only read.
pub fn take_lemmas<S: Source>(
    alloc: Global,
    refuter: &mut Refuter,
    reader: &mut Reader,
    from: &mut S,
) -> Result<Option<Fault>, ReaderError>
    requires source { S.failed from.old < 2 ^ 64 - 1 }
    requires fresh { refuter.old.refusal ≡ None }
    ensures vars { refuter.new.base.vars ≡ refuter.old.base.vars }
    ensures fresh { IfOk result (λ found. IfNone found (refuter.new.refusal ≡ None)) }
    ensures says { Reads (S.leaves from.old) (S.leaves from.new) (λ ys zs. FindsWith (AreLemmas refuter.old.base.vars refuter.old.stage refuter.new.base) (section_at 108 (reader.old.held ++ ys)) result reader.new.held zs) }
    ensures device { FailsOnce result Device (S.failed from.old) (S.failed from.new) }
{
    reader.section(alloc, SectionKind::Lemmas, from)?;
    share_lines(alloc, refuter, reader, from)
}
