//! A certificate's text, checked while it is read.

ghost use Rattle.base.specs.Witness.{witness};
ghost use Rattle.std.specs.Prelude.{◌≡◌, ◌≢◌, ◌-◌, ◌<◌, ◌≤◌, ◌^◌, List, ◌++◌, All, length, Contains, None, Some, IfErr, IfNone, IfOk, OnOk};
ghost use Rattle.base.specs.Devices.{Reads, FailsOnce};
ghost use Rattle.graph.specs.WellFormed.{used};
ghost use Rattle.graph.specs.declared.circuit.Lit.{Lit as ALit};
ghost use Rattle.graph.specs.declared.circuit.Property.{Property as AProperty};
ghost use Rattle.graph.specs.declared.circuit.Property.TheVariants.{Justice};
ghost use Rattle.graph.specs.declared.parts.Parts.{Parts as AParts};
ghost use Rattle.lrat.specs.Courses.{at_formula};
ghost use Rattle.cnf.specs.Clauses.{gates_at};
ghost use Rattle.cnf.specs.Formulas.{IsInvariant, shared_formula, start_formula};
ghost use Rattle.cnf.specs.Tables.{IsTableOf};
ghost use Rattle.certificate.specs.Reading.{lemmas_at, sections_at};
ghost use Rattle.certificate.specs.Streams.{FindsWith, parts_at};
ghost use Rattle.certificate.specs.declared.certificate.Certificate.{Certificate as ACertificate};
ghost use Rattle.certificate.specs.declared.reader_error.ReaderError.TheVariants.{Device};
ghost use Rattle.checker2.specs.Accepted.{IsGood};
ghost use Rattle.checker2.specs.Causes.{HasCauseFor, IsCounted};
ghost use Rattle.checker2.specs.Numbers.{number_of};
ghost use Rattle.checker2.specs.Streamed.{AreTaken, HasSections, IsFound, IsFoundFor, behind_version_at};
ghost use Rattle.checker2.specs.declared.check_error.CheckError.TheVariants.{OutOfMemory};

use crate::acceptance::no_property;
use crate::case_text::{Check, check_cases};
use crate::check_error::CheckError;
use crate::invariant::check_lists;
use crate::section_text::take_lemmas;
use crate::sections::start_refuter;
use base::{Lists, Refused, Source};
use certificate::{
    Reader, ReaderError, SectionKind, Version, read_clauses, skip_section, skip_sections,
};
use cnf::{NextTable, gates_of, shared_row};
use graph::{Lit, Model, Property};
use live_safe::{LiveError, to_safety};
use lrat::{Fault, GateLiterals, Refuter};
use std::alloc::Global;

/// Reads the sections of all cases, and forgets them.
fn skip_cases<S: Source>(
    alloc: Global,
    count: u32,
    reader: &mut Reader,
    from: &mut S,
) -> Result<(), ReaderError>
    requires source { S.failed from.old < 2 ^ 64 - 1 }
    ensures says { Reads (S.leaves from.old) (S.leaves from.new) (λ ys zs. FindsWith (λ sections _. Unit {0}) (sections_at count (reader.old.held ++ ys)) result reader.new.held zs) }
    ensures device { FailsOnce result Device (S.failed from.old) (S.failed from.new) }
{
    skip_sections(alloc, SectionKind::Initial, count, reader, from)?;
    skip_sections(alloc, SectionKind::Step, count, reader, from)?;
    skip_section(alloc, SectionKind::Bad, reader, from)
}

/// Reads the lemmas, where the version has them, and forgets them.
fn skip_lemmas<S: Source>(
    alloc: Global,
    version: Version,
    reader: &mut Reader,
    from: &mut S,
) -> Result<(), ReaderError>
    requires source { S.failed from.old < 2 ^ 64 - 1 }
    ensures says { Reads (S.leaves from.old) (S.leaves from.new) (λ ys zs. FindsWith (λ lemmas _. Unit {0}) (lemmas_at version (reader.old.held ++ ys)) result reader.new.held zs) }
    ensures device { FailsOnce result Device (S.failed from.old) (S.failed from.new) }
{
    match version {
        Version::One => Ok(()),
        Version::Two => skip_section(alloc, SectionKind::Lemmas, reader, from),
    }
}

/// Reads the lemmas, where the version has them, and all sections, of a certificate that is refused
/// for this error. Out of memory ends the reading.
fn skip_parts<S: Source>(
    alloc: Global,
    error: CheckError,
    version: Version,
    count: u32,
    reader: &mut Reader,
    from: &mut S,
) -> Result<Option<u8>, ReaderError>
    requires source { S.failed from.old < 2 ^ 64 - 1 }
    ensures says { Reads (S.leaves from.old) (S.leaves from.new) (λ ys zs. (p : AProperty) (inv : List (List ALit)) → FindsWith (λ c found. (found ≡ Some (number_of error)) × (error ≢ OutOfMemory witness)) (parts_at version p count inv (reader.old.held ++ ys)) result reader.new.held zs) }
    ensures device { FailsOnce result Device (S.failed from.old) (S.failed from.new) }
{
    match error {
        CheckError::OutOfMemory(refused) => Err(ReaderError::from(refused)),
        _ => {
            skip_lemmas(alloc, version, reader, from)?;
            skip_cases(alloc, count, reader, from)?;
            Ok(Some(error.number()))
        }
    }
}

/// Reads the lemmas, where the version has them, and lets the refuter share them. After the first
/// fault they are only read.
fn share_lemmas<S: Source>(
    alloc: Global,
    version: Version,
    refuter: &mut Refuter,
    reader: &mut Reader,
    from: &mut S,
) -> Result<Option<Fault>, ReaderError>
    requires source { S.failed from.old < 2 ^ 64 - 1 }
    requires fresh { refuter.old.refusal ≡ None }
    ensures vars { refuter.new.base.vars ≡ refuter.old.base.vars }
    ensures fresh { IfOk result (λ found. IfNone found (refuter.new.refusal ≡ None)) }
    ensures says { Reads (S.leaves from.old) (S.leaves from.new) (λ ys zs. (m : AParts) (inv : List (List ALit)) → refuter.old ≡ at_formula (shared_formula m inv) → FindsWith (AreTaken m inv refuter.new.base) (lemmas_at version (reader.old.held ++ ys)) result reader.new.held zs) }
    ensures device { FailsOnce result Device (S.failed from.old) (S.failed from.new) }
{
    match version {
        Version::One => Ok(None),
        Version::Two => take_lemmas(alloc, refuter, reader, from),
    }
}

/// The refuter of the clauses of the circuit and of the invariant, which has taken no lemmas.
fn invariant_refuter<'a>(
    alloc: Global,
    circuit: &Model,
    gates: &'a [GateLiterals],
    invariant: &Lists<Lit>,
) -> Result<Refuter<'a>, Refused>
    requires gates { gates.now ≡ gates_at circuit.now }
    requires invariant { IsInvariant circuit.now invariant.now }
    ensures { IfOk result (λ r. r ≡ at_formula (shared_formula circuit.now invariant.now)) }
{
    let clauses = shared_row(alloc, circuit, gates, invariant)?;
    Refuter::over(alloc, circuit.max_var() + 1, clauses)
}

/// Reads the lemmas and all sections, and checks them with the refuter of the initial cases and the
/// one of the others, which has taken no lemmas yet. After the first fault they are only read.
fn check_lemmas_and_cases<S: Source>(
    alloc: Global,
    check: Check,
    start: &mut Refuter,
    shared: &mut Refuter,
    reader: &mut Reader,
    from: &mut S,
) -> Result<Option<Fault>, ReaderError>
    requires source { S.failed from.old < 2 ^ 64 - 1 }
    requires invariant { IsInvariant check.circuit.now check.invariant.now }
    requires table { IsTableOf check.circuit.now.latches check.table.now }
    requires bad { Contains (used check.circuit.now) check.bad }
    requires start { start.old ≡ at_formula (start_formula check.circuit.now) }
    requires shared { shared.old ≡ at_formula (shared_formula check.circuit.now check.invariant.now) }
    ensures says { Reads (S.leaves from.old) (S.leaves from.new) (λ ys zs. (p : AProperty) → FindsWith (HasSections check.entry.circuit.now check.entry.bad) (parts_at check.entry.version p (length check.entry.invariant.now) check.entry.invariant.now (reader.old.held ++ ys)) result reader.new.held zs) }
    ensures device { FailsOnce result Device (S.failed from.old) (S.failed from.new) }
{
    let found = share_lemmas(alloc, check.version, shared, reader, from)?;
    if let Some(fault) = found {
        skip_cases(alloc, check.invariant.len() as u32, reader, from)?;
        return Ok(Some(fault));
    }
    check_cases(alloc, check, start, shared, reader, from)
}

/// Reads the lemmas and all sections, and checks them. After the first fault they are only read. It
/// holds the clauses that the cases share, those of one section, and one line.
fn check_parts<S: Source>(
    alloc: Global,
    check: Check,
    reader: &mut Reader,
    from: &mut S,
) -> Result<Option<Fault>, ReaderError>
    requires source { S.failed from.old < 2 ^ 64 - 1 }
    requires invariant { IsInvariant check.circuit.now check.invariant.now }
    requires table { IsTableOf check.circuit.now.latches check.table.now }
    requires bad { Contains (used check.circuit.now) check.bad }
    ensures says { Reads (S.leaves from.old) (S.leaves from.new) (λ ys zs. (p : AProperty) → FindsWith (HasSections check.entry.circuit.now check.entry.bad) (parts_at check.entry.version p (length check.entry.invariant.now) check.entry.invariant.now (reader.old.held ++ ys)) result reader.new.held zs) }
    ensures device { FailsOnce result Device (S.failed from.old) (S.failed from.new) }
{
    let gates = gates_of(alloc, check.circuit)?;
    let mut start = start_refuter(alloc, check.circuit)?;
    let mut shared = invariant_refuter(alloc, check.circuit, gates.as_slice(), check.invariant)?;
    check_lemmas_and_cases(alloc, check, &mut start, &mut shared, reader, from)
}

/// Looks for the first fault before the sections, for a literal of this circuit.
fn prepare(alloc: Global, circuit: &Model, invariant: &Lists<Lit>) -> Result<NextTable, CheckError>
    requires few { length invariant.now ≤ 4194303 }
    ensures table { IfOk result (λ t. IsTableOf circuit.now.latches t) }
    ensures good { OnOk result (All (IsGood circuit.now) invariant.now) }
    ensures refused { IfErr result (λ e. (a : ALit) (c : ACertificate) → c.invariant ≡ invariant.now → IsCounted c → HasCauseFor circuit.now a c e) }
{
    let table = NextTable::new(alloc, circuit)?;
    check_lists(alloc, circuit, &table, invariant)?;
    Ok(table)
}

/// Reads the lemmas and all sections, and checks the certificate for this one of the circuit's
/// literals: none where it is accepted, or else the number of the first cause.
fn check_for<S: Source>(
    alloc: Global,
    circuit: &Model,
    bad: Lit,
    version: Version,
    invariant: &Lists<Lit>,
    reader: &mut Reader,
    from: &mut S,
) -> Result<Option<u8>, ReaderError>
    requires source { S.failed from.old < 2 ^ 64 - 1 }
    requires bad { Contains (used circuit.now) bad }
    requires few { length invariant.now ≤ 4194303 }
    ensures says { Reads (S.leaves from.old) (S.leaves from.new) (λ ys zs. (p : AProperty) → FindsWith (IsFoundFor circuit.now bad) (parts_at version p (length invariant.now) invariant.now (reader.old.held ++ ys)) result reader.new.held zs) }
    ensures device { FailsOnce result Device (S.failed from.old) (S.failed from.new) }
{
    circuit.well_formed();
    match prepare(alloc, circuit, invariant) {
        Ok(table) => {
            let check = Check {
                circuit,
                table: &table,
                invariant,
                bad,
                version,
            };
            let found = check_parts(alloc, check, reader, from)?;
            match found {
                None => Ok(None),
                Some(fault) => Ok(Some(fault.number())),
            }
        }
        Err(error) => { skip_parts(alloc, error, version, invariant.len() as u32, reader, from) }
    }
}

/// As `check_for`, where the certificate speaks of the justice property at position `n`: of the one
/// bad literal of its shadow circuit.
fn check_justice<S: Source>(
    alloc: Global,
    circuit: &Model,
    n: u32,
    version: Version,
    invariant: &Lists<Lit>,
    reader: &mut Reader,
    from: &mut S,
) -> Result<Option<u8>, ReaderError>
    requires source { S.failed from.old < 2 ^ 64 - 1 }
    requires few { length invariant.now ≤ 4194303 }
    ensures says { Reads (S.leaves from.old) (S.leaves from.new) (λ ys zs. FindsWith (IsFound circuit.now) (parts_at version (Justice n) (length invariant.now) invariant.now (reader.old.held ++ ys)) result reader.new.held zs) }
    ensures device { FailsOnce result Device (S.failed from.old) (S.failed from.new) }
{
    let count = invariant.len() as u32;
    match to_safety(alloc, circuit, n) {
        Ok(shadow) => check_for(
            alloc,
            &shadow,
            shadow.bad()[0],
            version,
            invariant,
            reader,
            from,
        ),
        Err(LiveError::NoProperty(_)) => {
            let error = CheckError::NoProperty { property: n };
            skip_parts(alloc, error, version, count, reader, from)
        }
        Err(LiveError::Limit) => {
            skip_parts(alloc, CheckError::Limit, version, count, reader, from)
        }
        Err(LiveError::OutOfMemory(refused)) => Err(ReaderError::from(refused)),
    }
}

/// Reads the lemmas and all sections, and checks the certificate: none where it is accepted, or else
/// the number of the first cause.
fn check_property<S: Source>(
    alloc: Global,
    circuit: &Model,
    property: Property,
    version: Version,
    invariant: &Lists<Lit>,
    reader: &mut Reader,
    from: &mut S,
) -> Result<Option<u8>, ReaderError>
    requires source { S.failed from.old < 2 ^ 64 - 1 }
    requires few { length invariant.now ≤ 4194303 }
    ensures says { Reads (S.leaves from.old) (S.leaves from.new) (λ ys zs. FindsWith (IsFound circuit.now) (parts_at version property (length invariant.now) invariant.now (reader.old.held ++ ys)) result reader.new.held zs) }
    ensures device { FailsOnce result Device (S.failed from.old) (S.failed from.new) }
{
    if !circuit.parts().has_property(property) {
        let error = no_property(property);
        return skip_parts(alloc, error, version, invariant.len() as u32, reader, from);
    }
    match property {
        Property::Bad(n) => {
            check_for(
                alloc,
                circuit,
                circuit.bad()[n as usize],
                version,
                invariant,
                reader,
                from,
            )
        }
        Property::Justice(n) => check_justice(alloc, circuit, n, version, invariant, reader, from),
        Property::Output(n) => {
            check_for(
                alloc,
                circuit,
                circuit.outputs()[n as usize],
                version,
                invariant,
                reader,
                from,
            )
        }
    }
}

/// What was read and found.
#[derive(Clone, Copy)]
pub struct Outcome {
    /// the property that the certificate names
    pub property: Property,
    /// the number of the first cause, where the certificate is not accepted
    pub refusal: Option<u8>,
}

/// Reads what is behind the first line of a certificate of version 1 or 2, and checks it while it is
/// read.
pub fn check_earlier<S: Source>(
    alloc: Global,
    circuit: &Model,
    version: Version,
    reader: &mut Reader,
    from: &mut S,
) -> Result<Outcome, ReaderError>
    requires source { S.failed from.old < 2 ^ 64 - 1 }
    ensures says { Reads (S.leaves from.old) (S.leaves from.new) (λ ys zs. FindsWith (λ c found. (found.property ≡ c.property) × IsFound circuit.now c found.refusal) (behind_version_at version (reader.old.held ++ ys)) result reader.new.held zs) }
    ensures device { FailsOnce result Device (S.failed from.old) (S.failed from.new) }
{
    let property = reader.property(alloc, from)?;
    let count = reader.count(alloc, from)?;
    let invariant = read_clauses(alloc, count, reader, from)?;
    let refusal = check_property(alloc, circuit, property, version, &invariant, reader, from)?;
    Ok(Outcome { property, refusal })
}
