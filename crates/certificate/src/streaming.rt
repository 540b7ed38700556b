//! Parts of several lines.

ghost use Rattle.std.specs.Prelude.{◌≡◌, ◌-◌, ◌^◌, ◌<◌, ◌++◌, length, IfOk};
ghost use Rattle.base.specs.Devices.{Reads, FailsOnce};
ghost use Rattle.scan.specs.Lists.{items_at, many_at};
ghost use Rattle.certificate.specs.Reading.{clause_at, item_at, section_at};
ghost use Rattle.certificate.specs.Streams.{Finds, FindsWith, letter_of};
ghost use Rattle.certificate.specs.declared.reader_error.ReaderError.TheVariants.{Device};

use crate::kinds::SectionKind;
use crate::reader::Reader;
use crate::reader_error::ReaderError;
use base::{Lists, Source};
use graph::Lit;
use lrat::LineBuffer;
use std::alloc::Global;

/// Reads this number of clauses, which lie one after the other. The list grows clause by clause: no
/// memory is taken ahead by a count that the text states.
pub fn read_clauses<S: Source>(
    alloc: Global,
    count: u32,
    reader: &mut Reader,
    from: &mut S,
) -> Result<Lists<Lit>, ReaderError>
    requires source { S.failed from.old < 2 ^ 64 - 1 }
    ensures says { Reads (S.leaves from.old) (S.leaves from.new) (λ ys zs. Finds (many_at clause_at count (reader.old.held ++ ys)) result reader.new.held zs) }
    ensures many { IfOk result (λ clauses. length clauses ≡ count) }
    ensures device { FailsOnce result Device (S.failed from.old) (S.failed from.new) }
{
    let mut clauses = Lists::new(alloc);
    let mut clause = Vec::new(alloc);
    for _ in 0..count {
        reader.clause_into(alloc, &mut clause, from)?;
        clauses.push(clause.as_slice())?;
    }
    Ok(clauses)
}

/// Reads the lines of a section up to its end, and forgets them.
pub fn skip_lines<S: Source>(
    alloc: Global,
    reader: &mut Reader,
    from: &mut S,
) -> Result<(), ReaderError>
    requires source { S.failed from.old < 2 ^ 64 - 1 }
    ensures says { Reads (S.leaves from.old) (S.leaves from.new) (λ ys zs. FindsWith (λ lines _. Unit {0}) (items_at item_at (reader.old.held ++ ys)) result reader.new.held zs) }
    ensures device { FailsOnce result Device (S.failed from.old) (S.failed from.new) }
{
    let mut line = LineBuffer::new(alloc);
    'skipping: loop {
        let there = reader.line_into(alloc, &mut line, from)?;
        if !there {
            return Ok(());
        }
    }
}

/// Reads a section, and forgets its lines.
pub fn skip_section<S: Source>(
    alloc: Global,
    kind: SectionKind,
    reader: &mut Reader,
    from: &mut S,
) -> Result<(), ReaderError>
    requires source { S.failed from.old < 2 ^ 64 - 1 }
    ensures says { Reads (S.leaves from.old) (S.leaves from.new) (λ ys zs. FindsWith (λ lines _. Unit {0}) (section_at (letter_of kind) (reader.old.held ++ ys)) result reader.new.held zs) }
    ensures device { FailsOnce result Device (S.failed from.old) (S.failed from.new) }
{
    reader.section(alloc, kind, from)?;
    skip_lines(alloc, reader, from)
}

/// Reads this number of sections, and forgets their lines.
pub fn skip_sections<S: Source>(
    alloc: Global,
    kind: SectionKind,
    count: u32,
    reader: &mut Reader,
    from: &mut S,
) -> Result<(), ReaderError>
    requires source { S.failed from.old < 2 ^ 64 - 1 }
    ensures says { Reads (S.leaves from.old) (S.leaves from.new) (λ ys zs. FindsWith (λ sections _. Unit {0}) (many_at (section_at (letter_of kind)) count (reader.old.held ++ ys)) result reader.new.held zs) }
    ensures device { FailsOnce result Device (S.failed from.old) (S.failed from.new) }
{
    for _ in 0..count {
        skip_section(alloc, kind, reader, from)?;
    }
    Ok(())
}
