//! The lines and hints of a section, checked as they come.

ghost use Rattle.base.specs.Witness.{witness};
ghost use Rattle.std.specs.FinMap as fin;
ghost use Rattle.std.specs.Prelude.{◌≡◌, ◌≢◌, ◌+◌, ◌-◌, ◌<◌, ◌≤◌, ◌^◌, ◌++◌, All, map, length, None, Some, IfOk, IfNone};
ghost use Rattle.base.specs.Devices.{Reads, FailsOnce};
ghost use Rattle.scan.specs.Lists.{items_at, many_at};
ghost use Rattle.lrat.specs.declared.fault.Fault.TheVariants.{OutOfMemory};
ghost use Rattle.cnf.specs.Clauses.{literal};
ghost use Rattle.cnf.specs.Formulas.{IsInRange};
ghost use Rattle.certificate.specs.Reading.{item_at, section_at};
ghost use Rattle.certificate.specs.Streams.{FindsWith, letter_of};
ghost use Rattle.certificate.specs.declared.reader_error.ReaderError.TheVariants.{Device};
ghost use Rattle.certificate3.specs.Reading.{hints_at};
ghost use Rattle.checker3.specs.Judged.{AreFed, AreHinted};

use base::{Lists, Source};
use certificate::{Reader, ReaderError, SectionKind, skip_lines};
use certificate3::{HintsLine, skip_hints};
use cnf::{TimeFrame, clause_into};
use graph::Lit;
use lrat::{Fault, LineBuffer, Refuter};
use std::alloc::Global;

/// Clauses at a time.
#[derive(Clone, Copy)]
pub struct Timed<'a> {
    /// the variables of the time
    pub time: TimeFrame,
    /// the clauses over the circuit's literals
    pub clauses: &'a Lists<Lit>,
}

/// Reads the rest of the lines in which this fault was found. Out of memory is no fault of theirs,
/// and ends the reading.
fn skip_refused<S: Source>(
    alloc: Global,
    fault: Fault,
    reader: &mut Reader,
    from: &mut S,
) -> Result<Option<Fault>, ReaderError>
    requires source { S.failed from.old < 2 ^ 64 - 1 }
    ensures says { Reads (S.leaves from.old) (S.leaves from.new) (λ ys zs. FindsWith (λ lines found. (found ≡ Some fault) × (fault ≢ OutOfMemory witness)) (items_at item_at (reader.old.held ++ ys)) result reader.new.held zs) }
    ensures found { IfOk result (λ found. (found ≡ Some fault) × (fault ≢ OutOfMemory witness)) }
    ensures device { FailsOnce result Device (S.failed from.old) (S.failed from.new) }
{
    match fault {
        Fault::OutOfMemory(refused) => Err(ReaderError::from(refused)),
        _ => {
            skip_lines(alloc, reader, from)?;
            Ok(Some(fault))
        }
    }
}

/// Reads the rest of the hints, of this number of clauses, behind those in which this fault was
/// found. Out of memory is no fault of theirs, and ends the reading.
fn skip_unshown<S: Source>(
    alloc: Global,
    fault: Fault,
    count: u32,
    reader: &mut Reader,
    from: &mut S,
) -> Result<Option<Fault>, ReaderError>
    requires source { S.failed from.old < 2 ^ 64 - 1 }
    ensures says { Reads (S.leaves from.old) (S.leaves from.new) (λ ys zs. FindsWith (λ hints found. (found ≡ Some fault) × (fault ≢ OutOfMemory witness)) (many_at hints_at count (reader.old.held ++ ys)) result reader.new.held zs) }
    ensures device { FailsOnce result Device (S.failed from.old) (S.failed from.new) }
{
    match fault {
        Fault::OutOfMemory(refused) => Err(ReaderError::from(refused)),
        _ => {
            skip_hints(alloc, count, reader, from)?;
            Ok(Some(fault))
        }
    }
}

/// Reads the lines of a section up to its end, one after the other into one buffer, and feeds them
/// to the refuter. After the first fault the lines are only read.
fn feed_lines<S: Source>(
    alloc: Global,
    refuter: &mut Refuter,
    reader: &mut Reader,
    from: &mut S,
) -> Result<Option<Fault>, ReaderError>
    requires source { S.failed from.old < 2 ^ 64 - 1 }
    requires fresh { refuter.old.refusal ≡ None }
    ensures base { refuter.new.base ≡ refuter.old.base }
    ensures fresh { IfOk result (λ found. IfNone found (refuter.new.refusal ≡ None)) }
    ensures says { Reads (S.leaves from.old) (S.leaves from.new) (λ ys zs. FindsWith (AreFed refuter.old.base.vars refuter.old.stage refuter.new.stage) (items_at item_at (reader.old.held ++ ys)) result reader.new.held zs) }
    ensures device { FailsOnce result Device (S.failed from.old) (S.failed from.new) }
{
    let mut line = LineBuffer::new(alloc);
    'feeding: loop {
        let there = reader.line_into(alloc, &mut line, from)?;
        if !there {
            return Ok(None);
        }
        if let Err(fault) = refuter.feed(alloc, line.as_ref()) {
            return skip_refused(alloc, fault, reader, from);
        }
    }
}

/// Reads a section of this kind, and feeds its lines to the refuter.
pub fn feed_section<S: Source>(
    alloc: Global,
    kind: SectionKind,
    refuter: &mut Refuter,
    reader: &mut Reader,
    from: &mut S,
) -> Result<Option<Fault>, ReaderError>
    requires source { S.failed from.old < 2 ^ 64 - 1 }
    requires fresh { refuter.old.refusal ≡ None }
    ensures base { refuter.new.base ≡ refuter.old.base }
    ensures fresh { IfOk result (λ found. IfNone found (refuter.new.refusal ≡ None)) }
    ensures says { Reads (S.leaves from.old) (S.leaves from.new) (λ ys zs. FindsWith (AreFed refuter.old.base.vars refuter.old.stage refuter.new.stage) (section_at (letter_of kind) (reader.old.held ++ ys)) result reader.new.held zs) }
    ensures device { FailsOnce result Device (S.failed from.old) (S.failed from.new) }
{
    reader.section(alloc, kind, from)?;
    feed_lines(alloc, refuter, reader, from)
}

/// Reads the hints of each clause, and checks that they show it from what the refuter has. After
/// the first fault they are only read. It holds the hints of one clause.
pub fn check_hints<S: Source>(
    alloc: Global,
    refuter: &mut Refuter,
    timed: Timed,
    reader: &mut Reader,
    from: &mut S,
) -> Result<Option<Fault>, ReaderError>
    requires source { S.failed from.old < 2 ^ 64 - 1 }
    requires fresh { refuter.old.refusal ≡ None }
    requires fits { timed.time.offset + timed.time.max_var + 1 < 2 ^ 31 }
    requires over { All (All (IsInRange timed.time.max_var)) timed.clauses.now }
    requires few { length timed.clauses.now ≤ 4194303 }
    ensures says { Reads (S.leaves from.old) (S.leaves from.new) (λ ys zs. FindsWith (AreHinted refuter.old.base.vars (fin.get refuter.old.stage.present) (map (map (literal timed.entry.time.max_var timed.entry.time.offset)) timed.entry.clauses.now)) (many_at hints_at (length timed.entry.clauses.now) (reader.old.held ++ ys)) result reader.new.held zs) }
    ensures device { FailsOnce result Device (S.failed from.old) (S.failed from.new) }
{
    let mut literals = Vec::new(alloc);
    let mut hints = Vec::new(alloc);
    for k in 0..timed.clauses.len() {
        reader.line_in::<HintsLine, S>(alloc, &mut hints, (), from)?;
        clause_into(&mut literals, timed.time, timed.clauses.list(k))?;
        if let Err(fault) = refuter.shows(literals.as_slice(), hints.as_slice()) {
            let left = timed.clauses.len() - (k + 1);
            return skip_unshown(alloc, fault, left as u32, reader, from);
        }
    }
    Ok(None)
}
