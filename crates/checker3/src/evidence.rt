//! What is behind the property, checked while it is read.

ghost use Rattle.std.specs.Prelude.{◌-◌, ◌<◌, ◌≤◌, ◌^◌, List, ◌++◌, length};
ghost use Rattle.base.specs.Devices.{Reads, FailsOnce};
ghost use Rattle.graph.specs.declared.circuit.Latch.{Latch as ALatch};
ghost use Rattle.graph.specs.declared.circuit.Gate.{Gate as AGate};
ghost use Rattle.graph.specs.declared.circuit.Lit.{Lit as ALit};
ghost use Rattle.graph.specs.declared.parts.Parts.{Parts as AParts};
ghost use Rattle.cnf.specs.Formulas.{IsInRange};
ghost use Rattle.certificate.specs.Streams.{FindsWith};
ghost use Rattle.certificate.specs.declared.reader_error.ReaderError.TheVariants.{Device};
ghost use Rattle.certificate3.specs.Reading.{clauses_at, evidence_at, evidence_of, proofs_at};
ghost use Rattle.checker3.specs.Judged.{IsJudgedFor, IsNoGrowth, IsProvedOver};

use crate::check_error::CheckError;
use crate::clauses::first_outside;
use crate::growing::{GrowError, grow};
use crate::sections::{Claims, check_proofs};
use base::Source;
use certificate::{Reader, ReaderError, read_clauses};
use certificate3::{SizesLine, read_gates, read_latches, skip_clauses, skip_proofs};
use graph::{Gate, Latch, Lit, Model};
use std::alloc::Global;

/// Reads the sections of these clauses, and checks the clauses and them. After the first fault they
/// are only read.
fn check_invariant<S: Source>(
    alloc: Global,
    claims: Claims,
    reader: &mut Reader,
    from: &mut S,
) -> Result<Option<CheckError>, ReaderError>
    requires source { S.failed from.old < 2 ^ 64 - 1 }
    requires few { length claims.invariant.now ≤ 4194303 }
    requires bad { IsInRange claims.circuit.now.max_var claims.bad }
    ensures says { (ls : List ALatch) (gs : List AGate) → Reads (S.leaves from.old) (S.leaves from.new) (λ ys zs. FindsWith (λ p found. IsProvedOver claims.entry.circuit.now claims.entry.bad (evidence_of ls gs claims.entry.invariant.now p) found) (proofs_at (length claims.entry.invariant.now) (reader.old.held ++ ys)) result reader.new.held zs) }
    ensures device { FailsOnce result Device (S.failed from.old) (S.failed from.new) }
{
    if let Some(clause) = first_outside(claims.circuit, claims.invariant) {
        skip_proofs(alloc, claims.invariant.len() as u32, reader, from)?;
        return Ok(Some(CheckError::Outside(clause)));
    }
    let found = check_proofs(alloc, claims, reader, from)?;
    match found {
        None => Ok(None),
        Some(fault) => Ok(Some(CheckError::Line(fault))),
    }
}

/// Reads the clauses and the sections, and checks them over the circuit. After the first fault they
/// are only read.
fn check_clauses<S: Source>(
    alloc: Global,
    circuit: &Model,
    bad: Lit,
    reader: &mut Reader,
    from: &mut S,
) -> Result<Option<CheckError>, ReaderError>
    requires source { S.failed from.old < 2 ^ 64 - 1 }
    requires bad { IsInRange circuit.now.max_var bad }
    ensures says { (ls : List ALatch) (gs : List AGate) → Reads (S.leaves from.old) (S.leaves from.new) (λ ys zs. FindsWith (IsProvedOver circuit.now bad) (clauses_at ls gs (reader.old.held ++ ys)) result reader.new.held zs) }
    ensures device { FailsOnce result Device (S.failed from.old) (S.failed from.new) }
{
    let count = reader.count(alloc, from)?;
    let invariant = read_clauses(alloc, count, reader, from)?;
    let claims = Claims {
        circuit,
        invariant: &invariant,
        bad,
    };
    check_invariant(alloc, claims, reader, from)
}

/// Reads the clauses and the sections behind latches and gates that are refused for this error. Out of
/// memory ends the reading.
fn refuse_growth<S: Source>(
    alloc: Global,
    error: GrowError,
    reader: &mut Reader,
    from: &mut S,
) -> Result<Option<CheckError>, ReaderError>
    requires source { S.failed from.old < 2 ^ 64 - 1 }
    ensures says { (m : AParts) (a : ALit) (ls : List ALatch) (gs : List AGate) → IsNoGrowth m ls gs error → Reads (S.leaves from.old) (S.leaves from.new) (λ ys zs. FindsWith (IsJudgedFor m a) (clauses_at ls gs (reader.old.held ++ ys)) result reader.new.held zs) }
    ensures device { FailsOnce result Device (S.failed from.old) (S.failed from.new) }
{
    match error {
        GrowError::OutOfMemory(refused) => Err(ReaderError::from(refused)),
        GrowError::Refused(refusal) => {
            skip_clauses(alloc, reader, from)?;
            Ok(Some(refusal))
        }
    }
}

/// Reads the clauses and the sections behind these latches and gates, and checks them over the circuit that they extend: where there
/// are none, over the circuit itself, of which no copy is made. After the first fault they are only read.
fn check_over<S: Source>(
    alloc: Global,
    circuit: &Model,
    bad: Lit,
    latches: &[Latch],
    gates: &[Gate],
    reader: &mut Reader,
    from: &mut S,
) -> Result<Option<CheckError>, ReaderError>
    requires source { S.failed from.old < 2 ^ 64 - 1 }
    requires bad { IsInRange circuit.now.max_var bad }
    ensures says { Reads (S.leaves from.old) (S.leaves from.new) (λ ys zs. FindsWith (IsJudgedFor circuit.now bad) (clauses_at latches.now gates.now (reader.old.held ++ ys)) result reader.new.held zs) }
    ensures device { FailsOnce result Device (S.failed from.old) (S.failed from.new) }
{
    circuit.well_formed();
    if latches.is_empty() && gates.is_empty() {
        return check_clauses(alloc, circuit, bad, reader, from);
    }
    match grow(alloc, circuit, latches, gates) {
        Ok(extended) => check_clauses(alloc, &extended, bad, reader, from),
        Err(error) => refuse_growth(alloc, error, reader, from),
    }
}

/// Reads all that is behind the property, and checks it for this one of the circuit's literals. After
/// the first fault it is only read.
pub fn check_evidence<S: Source>(
    alloc: Global,
    circuit: &Model,
    bad: Lit,
    reader: &mut Reader,
    from: &mut S,
) -> Result<Option<CheckError>, ReaderError>
    requires source { S.failed from.old < 2 ^ 64 - 1 }
    requires bad { IsInRange circuit.now.max_var bad }
    ensures says { Reads (S.leaves from.old) (S.leaves from.new) (λ ys zs. FindsWith (IsJudgedFor circuit.now bad) (evidence_at (reader.old.held ++ ys)) result reader.new.held zs) }
    ensures device { FailsOnce result Device (S.failed from.old) (S.failed from.new) }
{
    let sizes = reader.line::<SizesLine, S>(alloc, (), from)?;
    let latches = read_latches(alloc, sizes.latches, reader, from)?;
    let gates = read_gates(alloc, sizes.gates, reader, from)?;
    check_over(
        alloc,
        circuit,
        bad,
        latches.as_slice(),
        gates.as_slice(),
        reader,
        from,
    )
}
