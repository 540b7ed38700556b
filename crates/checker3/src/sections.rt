//! The three sections, checked while they are read.

ghost use Rattle.std.specs.Prelude.{◌≡◌, ◌+◌, ◌-◌, ◌<◌, ◌≤◌, ◌^◌, ◌++◌, All, map, length, None, IfOk};
ghost use Rattle.base.specs.Devices.{Reads, FailsOnce};
ghost use Rattle.lrat.specs.Courses.{at_formula};
ghost use Rattle.lrat.specs.declared.formula.Formula.{Formula as AFormula};
ghost use Rattle.cnf.specs.Clauses.{gates_at, literal};
ghost use Rattle.cnf.specs.Formulas.{IsInRange, bad_formula};
ghost use Rattle.certificate.specs.Reading.{section_at};
ghost use Rattle.certificate.specs.Streams.{FindsWith, letter_of};
ghost use Rattle.certificate.specs.declared.reader_error.ReaderError.TheVariants.{Device};
ghost use Rattle.extension.specs.Accepted.{begin_formula, pair_formula};
ghost use Rattle.extension.specs.Inductive.{IsOverAll};
ghost use Rattle.certificate3.specs.Reading.{later_at, proofs_at, shown_at};
ghost use Rattle.checker3.specs.Judged.{HasLater, HasProofs, HoldsFirst, HoldsNext, IsDerived, IsRefuted};

use crate::lines::{Timed, check_hints, feed_section};
use base::{Lists, Refused, Source};
use certificate::{Reader, ReaderError, SectionKind, skip_section};
use certificate3::{skip_hints, skip_later};
use cnf::{TimeFrame, bad_row, begin_row, gates_of, pair_row};
use graph::{Lit, Model};
use lrat::{Fault, GateLiterals, Refuter};
use std::alloc::Global;

/// Clauses over a circuit that exclude one of its literals.
#[derive(Clone, Copy)]
pub struct Claims<'a> {
    /// the circuit
    pub circuit: &'a Model,
    /// the clauses
    pub invariant: &'a Lists<Lit>,
    /// the literal
    pub bad: Lit,
}

/// The refuter of the first time.
fn begin_refuter<'a>(
    alloc: Global,
    circuit: &Model,
    gates: &'a [GateLiterals],
) -> Result<Refuter<'a>, Refused>
    requires gates { gates.now ≡ gates_at circuit.now }
    ensures { IfOk result (λ r. r ≡ at_formula (begin_formula circuit.now)) }
{
    circuit.well_formed();
    let clauses = begin_row(alloc, circuit, gates)?;
    Refuter::over(alloc, circuit.max_var() + 1, clauses)
}

/// The refuter of a step.
fn pair_refuter<'a>(
    alloc: Global,
    circuit: &Model,
    gates: &'a [GateLiterals],
    invariant: &Lists<Lit>,
) -> Result<Refuter<'a>, Refused>
    requires gates { gates.now ≡ gates_at circuit.now }
    requires over { All (IsOverAll circuit.now) invariant.now }
    requires few { length invariant.now ≤ 4194303 }
    ensures { IfOk result (λ r. r ≡ at_formula (pair_formula circuit.now invariant.now)) }
{
    circuit.well_formed();
    let clauses = pair_row(alloc, circuit, gates, invariant)?;
    Refuter::over(alloc, 2 * (circuit.max_var() + 1), clauses)
}

/// The refuter of the literal.
fn bad_refuter<'a>(
    alloc: Global,
    claims: Claims,
    gates: &'a [GateLiterals],
) -> Result<Refuter<'a>, Refused>
    requires gates { gates.now ≡ gates_at claims.circuit.now }
    requires over { All (IsOverAll claims.circuit.now) claims.invariant.now }
    requires few { length claims.invariant.now ≤ 4194303 }
    requires bad { IsInRange claims.circuit.now.max_var claims.bad }
    ensures { IfOk result (λ r. r ≡ at_formula (bad_formula claims.entry.circuit.now claims.entry.invariant.now claims.entry.bad)) }
{
    claims.circuit.well_formed();
    let clauses = bad_row(alloc, claims.circuit, gates, claims.invariant, claims.bad)?;
    Refuter::over(alloc, claims.circuit.max_var() + 1, clauses)
}

/// Reads a section with the hints behind it, and checks that they show each clause from what the
/// refuter has. After the first fault they are only read.
fn check_shown<S: Source>(
    alloc: Global,
    kind: SectionKind,
    refuter: &mut Refuter,
    timed: Timed,
    reader: &mut Reader,
    from: &mut S,
) -> Result<Option<Fault>, ReaderError>
    requires source { S.failed from.old < 2 ^ 64 - 1 }
    requires fresh { refuter.old.refusal ≡ None }
    requires fits { timed.time.offset + timed.time.max_var + 1 < 2 ^ 31 }
    requires over { All (All (IsInRange timed.time.max_var)) timed.clauses.now }
    requires few { length timed.clauses.now ≤ 4194303 }
    ensures says { (f : AFormula) → refuter.old ≡ at_formula f → Reads (S.leaves from.old) (S.leaves from.new) (λ ys zs. FindsWith (IsDerived f (map (map (literal timed.entry.time.max_var timed.entry.time.offset)) timed.entry.clauses.now)) (shown_at (letter_of kind) (length timed.entry.clauses.now) (reader.old.held ++ ys)) result reader.new.held zs) }
    ensures device { FailsOnce result Device (S.failed from.old) (S.failed from.new) }
{
    let found = feed_section(alloc, kind, refuter, reader, from)?;
    if let Some(fault) = found {
        skip_hints(alloc, timed.clauses.len() as u32, reader, from)?;
        return Ok(Some(fault));
    }
    check_hints(alloc, refuter, timed, reader, from)
}

/// Reads the section of the first time, and checks it.
fn check_first<S: Source>(
    alloc: Global,
    claims: Claims,
    gates: &[GateLiterals],
    reader: &mut Reader,
    from: &mut S,
) -> Result<Option<Fault>, ReaderError>
    requires source { S.failed from.old < 2 ^ 64 - 1 }
    requires gates { gates.now ≡ gates_at claims.circuit.now }
    requires over { All (IsOverAll claims.circuit.now) claims.invariant.now }
    requires few { length claims.invariant.now ≤ 4194303 }
    ensures says { Reads (S.leaves from.old) (S.leaves from.new) (λ ys zs. FindsWith (HoldsFirst claims.entry.circuit.now claims.entry.invariant.now) (shown_at 105 (length claims.entry.invariant.now) (reader.old.held ++ ys)) result reader.new.held zs) }
    ensures device { FailsOnce result Device (S.failed from.old) (S.failed from.new) }
{
    claims.circuit.well_formed();
    let timed = Timed {
        time: TimeFrame::first(claims.circuit),
        clauses: claims.invariant,
    };
    let mut refuter = begin_refuter(alloc, claims.circuit, gates)?;
    check_shown(
        alloc,
        SectionKind::Initial,
        &mut refuter,
        timed,
        reader,
        from,
    )
}

/// Reads the section of a step, and checks it.
fn check_step<S: Source>(
    alloc: Global,
    claims: Claims,
    gates: &[GateLiterals],
    reader: &mut Reader,
    from: &mut S,
) -> Result<Option<Fault>, ReaderError>
    requires source { S.failed from.old < 2 ^ 64 - 1 }
    requires gates { gates.now ≡ gates_at claims.circuit.now }
    requires over { All (IsOverAll claims.circuit.now) claims.invariant.now }
    requires few { length claims.invariant.now ≤ 4194303 }
    ensures says { Reads (S.leaves from.old) (S.leaves from.new) (λ ys zs. FindsWith (HoldsNext claims.entry.circuit.now claims.entry.invariant.now) (shown_at 115 (length claims.entry.invariant.now) (reader.old.held ++ ys)) result reader.new.held zs) }
    ensures device { FailsOnce result Device (S.failed from.old) (S.failed from.new) }
{
    claims.circuit.well_formed();
    let timed = Timed {
        time: TimeFrame::after(claims.circuit, 1),
        clauses: claims.invariant,
    };
    let mut refuter = pair_refuter(alloc, claims.circuit, gates, claims.invariant)?;
    check_shown(alloc, SectionKind::Step, &mut refuter, timed, reader, from)
}

/// Reads the last section, and checks that it refutes what the refuter has.
fn check_refuted<S: Source>(
    alloc: Global,
    refuter: &mut Refuter,
    reader: &mut Reader,
    from: &mut S,
) -> Result<Option<Fault>, ReaderError>
    requires source { S.failed from.old < 2 ^ 64 - 1 }
    requires fresh { refuter.old.refusal ≡ None }
    ensures says { (f : AFormula) → refuter.old ≡ at_formula f → Reads (S.leaves from.old) (S.leaves from.new) (λ ys zs. FindsWith (IsRefuted f) (section_at 98 (reader.old.held ++ ys)) result reader.new.held zs) }
    ensures device { FailsOnce result Device (S.failed from.old) (S.failed from.new) }
{
    let found = feed_section(alloc, SectionKind::Bad, refuter, reader, from)?;
    if let Some(fault) = found {
        return Ok(Some(fault));
    }
    match refuter.finish() {
        Ok(()) => Ok(None),
        Err(fault) => Ok(Some(fault)),
    }
}

/// Reads the last two sections, and checks them. After the first fault they are only read.
fn check_later<S: Source>(
    alloc: Global,
    claims: Claims,
    gates: &[GateLiterals],
    reader: &mut Reader,
    from: &mut S,
) -> Result<Option<Fault>, ReaderError>
    requires source { S.failed from.old < 2 ^ 64 - 1 }
    requires gates { gates.now ≡ gates_at claims.circuit.now }
    requires over { All (IsOverAll claims.circuit.now) claims.invariant.now }
    requires few { length claims.invariant.now ≤ 4194303 }
    requires bad { IsInRange claims.circuit.now.max_var claims.bad }
    ensures says { Reads (S.leaves from.old) (S.leaves from.new) (λ ys zs. FindsWith (HasLater claims.entry.circuit.now claims.entry.bad claims.entry.invariant.now) (later_at (length claims.entry.invariant.now) (reader.old.held ++ ys)) result reader.new.held zs) }
    ensures device { FailsOnce result Device (S.failed from.old) (S.failed from.new) }
{
    let found = check_step(alloc, claims, gates, reader, from)?;
    if let Some(fault) = found {
        skip_section(alloc, SectionKind::Bad, reader, from)?;
        return Ok(Some(fault));
    }
    let mut refuter = bad_refuter(alloc, claims, gates)?;
    check_refuted(alloc, &mut refuter, reader, from)
}

/// Reads the three sections, and checks them. After the first fault they are only read. One refuter
/// is held at a time.
pub fn check_proofs<S: Source>(
    alloc: Global,
    claims: Claims,
    reader: &mut Reader,
    from: &mut S,
) -> Result<Option<Fault>, ReaderError>
    requires source { S.failed from.old < 2 ^ 64 - 1 }
    requires over { All (IsOverAll claims.circuit.now) claims.invariant.now }
    requires few { length claims.invariant.now ≤ 4194303 }
    requires bad { IsInRange claims.circuit.now.max_var claims.bad }
    ensures says { Reads (S.leaves from.old) (S.leaves from.new) (λ ys zs. FindsWith (HasProofs claims.entry.circuit.now claims.entry.bad claims.entry.invariant.now) (proofs_at (length claims.entry.invariant.now) (reader.old.held ++ ys)) result reader.new.held zs) }
    ensures device { FailsOnce result Device (S.failed from.old) (S.failed from.new) }
{
    let gates = gates_of(alloc, claims.circuit)?;
    let found = check_first(alloc, claims, gates.as_slice(), reader, from)?;
    if let Some(fault) = found {
        skip_later(alloc, claims.invariant.len() as u32, reader, from)?;
        return Ok(Some(fault));
    }
    check_later(alloc, claims, gates.as_slice(), reader, from)
}
