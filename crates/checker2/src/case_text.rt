//! The cases of an invariant, checked while their sections are read.

ghost use Rattle.std.specs.Prelude.{◌≡◌, ◌+◌, ◌-◌, ◌<◌, ◌^◌, ◌++◌, map, length, Contains, None, IfNone, IfOk};
ghost use Rattle.base.specs.Devices.{Reads, FailsOnce};
ghost use Rattle.scan.specs.Lists.{many_at};
ghost use Rattle.graph.specs.WellFormed.{used};
ghost use Rattle.lrat.specs.Shared.{base_of};
ghost use Rattle.cnf.specs.Formulas.{IsInvariant, start_formula};
ghost use Rattle.cnf.specs.Tables.{IsTableOf};
ghost use Rattle.certificate.specs.Reading.{section_at, sections_at};
ghost use Rattle.certificate.specs.Streams.{FindsWith};
ghost use Rattle.certificate.specs.declared.reader_error.ReaderError.TheVariants.{Device};
ghost use Rattle.checker2.specs.Accepted.{cases, init_case, step_case};
ghost use Rattle.checker2.specs.Streamed.{AreOfCases};

use crate::section_text::check_section;
use base::{Lists, Source};
use certificate::{Reader, ReaderError, SectionKind, Version, skip_section, skip_sections};
use cnf::{NextTable, bad_unit, init_units_into, step_units_into};
use graph::{Lit, Model};
use lrat::{Fault, LineBuffer, Refuter};
use std::alloc::Global;

/// What is checked while the sections are read: the cases of an invariant of a circuit, for one of
/// its literals.
#[derive(Clone, Copy)]
pub struct Check<'a> {
    /// the circuit
    pub circuit: &'a Model,
    /// the latches by their variables
    pub table: &'a NextTable,
    /// the clauses of the invariant
    pub invariant: &'a Lists<Lit>,
    /// the literal that they exclude
    pub bad: Lit,
    /// the certificate's version
    pub version: Version,
}

/// Reads the sections of the initial cases, line by line into the buffer, and checks them. After the
/// first fault they are only read.
pub fn check_initial<S: Source>(
    alloc: Global,
    check: Check,
    refuter: &mut Refuter,
    line: &mut LineBuffer,
    reader: &mut Reader,
    from: &mut S,
) -> Result<Option<Fault>, ReaderError>
    requires source { S.failed from.old < 2 ^ 64 - 1 }
    requires fresh { refuter.old.refusal ≡ None }
    requires base { refuter.old.base ≡ base_of (start_formula check.circuit.now) }
    requires invariant { IsInvariant check.circuit.now check.invariant.now }
    ensures says { Reads (S.leaves from.old) (S.leaves from.new) (λ ys zs. FindsWith (AreOfCases (map (init_case check.entry.circuit.now) check.entry.invariant.now)) (many_at (section_at 105) (length check.entry.invariant.now) (reader.old.held ++ ys)) result reader.new.held zs) }
    ensures device { FailsOnce result Device (S.failed from.old) (S.failed from.new) }
{
    check.circuit.well_formed();
    let mut units = Vec::new(alloc);
    for k in 0..check.invariant.len() {
        let clause = check.invariant.list(k);
        init_units_into(&mut units, check.circuit, clause)?;
        let found = check_section(
            alloc,
            SectionKind::Initial,
            refuter,
            units.as_slice(),
            line,
            reader,
            from,
        )?;
        if let Some(fault) = found {
            let left = check.invariant.len() - (k + 1);
            skip_sections(alloc, SectionKind::Initial, left as u32, reader, from)?;
            return Ok(Some(fault));
        }
    }
    Ok(None)
}

/// Reads the sections of the step cases, line by line into the buffer, and checks them. After the
/// first fault they are only read.
pub fn check_steps<S: Source>(
    alloc: Global,
    check: Check,
    refuter: &mut Refuter,
    line: &mut LineBuffer,
    reader: &mut Reader,
    from: &mut S,
) -> Result<Option<Fault>, ReaderError>
    requires source { S.failed from.old < 2 ^ 64 - 1 }
    requires fresh { refuter.old.refusal ≡ None }
    requires vars { refuter.old.base.vars ≡ check.circuit.now.max_var + 1 }
    requires invariant { IsInvariant check.circuit.now check.invariant.now }
    requires table { IsTableOf check.circuit.now.latches check.table.now }
    ensures base { refuter.new.base ≡ refuter.old.base }
    ensures fresh { IfOk result (λ found. IfNone found (refuter.new.refusal ≡ None)) }
    ensures says { Reads (S.leaves from.old) (S.leaves from.new) (λ ys zs. FindsWith (AreOfCases (map (step_case check.entry.circuit.now refuter.old.base) check.entry.invariant.now)) (many_at (section_at 115) (length check.entry.invariant.now) (reader.old.held ++ ys)) result reader.new.held zs) }
    ensures device { FailsOnce result Device (S.failed from.old) (S.failed from.new) }
{
    check.circuit.well_formed();
    let mut units = Vec::new(alloc);
    for k in 0..check.invariant.len() {
        let clause = check.invariant.list(k);
        step_units_into(&mut units, check.circuit, check.table, clause)?;
        let found = check_section(
            alloc,
            SectionKind::Step,
            refuter,
            units.as_slice(),
            line,
            reader,
            from,
        )?;
        if let Some(fault) = found {
            let left = check.invariant.len() - (k + 1);
            skip_sections(alloc, SectionKind::Step, left as u32, reader, from)?;
            return Ok(Some(fault));
        }
    }
    Ok(None)
}

/// Reads the sections of all cases, and checks them with the refuter of the initial cases and the
/// one of the others. After the first fault they are only read. One buffer holds the lines, one
/// after the other.
pub fn check_cases<S: Source>(
    alloc: Global,
    check: Check,
    start: &mut Refuter,
    shared: &mut Refuter,
    reader: &mut Reader,
    from: &mut S,
) -> Result<Option<Fault>, ReaderError>
    requires source { S.failed from.old < 2 ^ 64 - 1 }
    requires invariant { IsInvariant check.circuit.now check.invariant.now }
    requires table { IsTableOf check.circuit.now.latches check.table.now }
    requires bad { Contains (used check.circuit.now) check.bad }
    requires start { start.old.refusal ≡ None }
    requires start_base { start.old.base ≡ base_of (start_formula check.circuit.now) }
    requires shared { shared.old.refusal ≡ None }
    requires vars { shared.old.base.vars ≡ check.circuit.now.max_var + 1 }
    ensures says { Reads (S.leaves from.old) (S.leaves from.new) (λ ys zs. FindsWith (AreOfCases (cases check.entry.circuit.now shared.old.base check.entry.invariant.now check.entry.bad)) (sections_at (length check.entry.invariant.now) (reader.old.held ++ ys)) result reader.new.held zs) }
    ensures device { FailsOnce result Device (S.failed from.old) (S.failed from.new) }
{
    let count = check.invariant.len() as u32;
    let mut line = LineBuffer::new(alloc);
    let initial = check_initial(alloc, check, start, &mut line, reader, from)?;
    if let Some(fault) = initial {
        skip_sections(alloc, SectionKind::Step, count, reader, from)?;
        skip_section(alloc, SectionKind::Bad, reader, from)?;
        return Ok(Some(fault));
    }
    let steps = check_steps(alloc, check, shared, &mut line, reader, from)?;
    if let Some(fault) = steps {
        skip_section(alloc, SectionKind::Bad, reader, from)?;
        return Ok(Some(fault));
    }
    let unit = bad_unit(check.circuit, check.bad);
    check_section(
        alloc,
        SectionKind::Bad,
        shared,
        &[unit],
        &mut line,
        reader,
        from,
    )
}
