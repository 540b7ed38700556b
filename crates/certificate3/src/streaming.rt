//! Parts of several lines.

ghost use Rattle.std.specs.Prelude.{◌≡◌, ◌-◌, ◌^◌, ◌<◌, List, ◌++◌, length, IfOk};
ghost use Rattle.base.specs.Devices.{Reads, FailsOnce};
ghost use Rattle.scan.specs.Lists.{many_at};
ghost use Rattle.graph.specs.declared.circuit.Latch.{Latch as ALatch};
ghost use Rattle.graph.specs.declared.circuit.Gate.{Gate as AGate};
ghost use Rattle.certificate.specs.Streams.{Finds, FindsWith, letter_of};
ghost use Rattle.certificate.specs.declared.reader_error.ReaderError.TheVariants.{Device};
ghost use Rattle.certificate3.specs.Reading.{clauses_at, evidence_at, gate_at, hints_at, latch_at, later_at, proofs_at, shown_at};

use crate::kinds::{GateLine, HintsLine, LatchLine, SizesLine};
use base::{Seq, Source};
use certificate::{Reader, ReaderError, SectionKind, read_clauses, skip_section};
use graph::{Gate, Latch};
use std::alloc::Global;

/// Reads this number of latches. The list grows latch by latch.
pub fn read_latches<S: Source>(
    alloc: Global,
    count: u32,
    reader: &mut Reader,
    from: &mut S,
) -> Result<Seq<Latch>, ReaderError>
    requires source { S.failed from.old < 2 ^ 64 - 1 }
    ensures says { Reads (S.leaves from.old) (S.leaves from.new) (λ ys zs. Finds (many_at latch_at count (reader.old.held ++ ys)) result reader.new.held zs) }
    ensures many { IfOk result (λ v. length v ≡ count) }
    ensures device { FailsOnce result Device (S.failed from.old) (S.failed from.new) }
{
    let mut latches = Seq::new(alloc);
    for _ in 0..count {
        let latch = reader.line::<LatchLine, S>(alloc, (), from)?;
        latches.push(latch)?;
    }
    Ok(latches)
}

/// Reads this number of gates. The list grows gate by gate.
pub fn read_gates<S: Source>(
    alloc: Global,
    count: u32,
    reader: &mut Reader,
    from: &mut S,
) -> Result<Seq<Gate>, ReaderError>
    requires source { S.failed from.old < 2 ^ 64 - 1 }
    ensures says { Reads (S.leaves from.old) (S.leaves from.new) (λ ys zs. Finds (many_at gate_at count (reader.old.held ++ ys)) result reader.new.held zs) }
    ensures many { IfOk result (λ v. length v ≡ count) }
    ensures device { FailsOnce result Device (S.failed from.old) (S.failed from.new) }
{
    let mut gates = Seq::new(alloc);
    for _ in 0..count {
        let gate = reader.line::<GateLine, S>(alloc, (), from)?;
        gates.push(gate)?;
    }
    Ok(gates)
}

/// Reads the hints of this number of clauses, and forgets them.
pub fn skip_hints<S: Source>(
    alloc: Global,
    count: u32,
    reader: &mut Reader,
    from: &mut S,
) -> Result<(), ReaderError>
    requires source { S.failed from.old < 2 ^ 64 - 1 }
    ensures says { Reads (S.leaves from.old) (S.leaves from.new) (λ ys zs. FindsWith (λ hints _. Unit {0}) (many_at hints_at count (reader.old.held ++ ys)) result reader.new.held zs) }
    ensures device { FailsOnce result Device (S.failed from.old) (S.failed from.new) }
{
    let mut hints = Vec::new(alloc);
    for _ in 0..count {
        reader.line_in::<HintsLine, S>(alloc, &mut hints, (), from)?;
    }
    Ok(())
}

/// Reads a section with the hints of this number of clauses, and forgets them.
pub fn skip_shown<S: Source>(
    alloc: Global,
    kind: SectionKind,
    count: u32,
    reader: &mut Reader,
    from: &mut S,
) -> Result<(), ReaderError>
    requires source { S.failed from.old < 2 ^ 64 - 1 }
    ensures says { Reads (S.leaves from.old) (S.leaves from.new) (λ ys zs. FindsWith (λ shown _. Unit {0}) (shown_at (letter_of kind) count (reader.old.held ++ ys)) result reader.new.held zs) }
    ensures device { FailsOnce result Device (S.failed from.old) (S.failed from.new) }
{
    skip_section(alloc, kind, reader, from)?;
    skip_hints(alloc, count, reader, from)
}

/// Reads the last two sections of this number of clauses, and forgets them.
pub fn skip_later<S: Source>(
    alloc: Global,
    count: u32,
    reader: &mut Reader,
    from: &mut S,
) -> Result<(), ReaderError>
    requires source { S.failed from.old < 2 ^ 64 - 1 }
    ensures says { Reads (S.leaves from.old) (S.leaves from.new) (λ ys zs. FindsWith (λ later _. Unit {0}) (later_at count (reader.old.held ++ ys)) result reader.new.held zs) }
    ensures device { FailsOnce result Device (S.failed from.old) (S.failed from.new) }
{
    skip_shown(alloc, SectionKind::Step, count, reader, from)?;
    skip_section(alloc, SectionKind::Bad, reader, from)
}

/// Reads the sections of this number of clauses, and forgets them.
pub fn skip_proofs<S: Source>(
    alloc: Global,
    count: u32,
    reader: &mut Reader,
    from: &mut S,
) -> Result<(), ReaderError>
    requires source { S.failed from.old < 2 ^ 64 - 1 }
    ensures says { Reads (S.leaves from.old) (S.leaves from.new) (λ ys zs. FindsWith (λ proofs _. Unit {0}) (proofs_at count (reader.old.held ++ ys)) result reader.new.held zs) }
    ensures device { FailsOnce result Device (S.failed from.old) (S.failed from.new) }
{
    skip_shown(alloc, SectionKind::Initial, count, reader, from)?;
    skip_later(alloc, count, reader, from)
}

/// Reads the clauses and the sections, and forgets them.
pub fn skip_clauses<S: Source>(
    alloc: Global,
    reader: &mut Reader,
    from: &mut S,
) -> Result<(), ReaderError>
    requires source { S.failed from.old < 2 ^ 64 - 1 }
    ensures says { (ls : List ALatch) (gs : List AGate) → Reads (S.leaves from.old) (S.leaves from.new) (λ ys zs. FindsWith (λ evidence _. Unit {0}) (clauses_at ls gs (reader.old.held ++ ys)) result reader.new.held zs) }
    ensures device { FailsOnce result Device (S.failed from.old) (S.failed from.new) }
{
    let count = reader.count(alloc, from)?;
    let _clauses = read_clauses(alloc, count, reader, from)?;
    skip_proofs(alloc, count, reader, from)
}

/// Reads all that is behind the property, and forgets it.
pub fn skip_evidence<S: Source>(
    alloc: Global,
    reader: &mut Reader,
    from: &mut S,
) -> Result<(), ReaderError>
    requires source { S.failed from.old < 2 ^ 64 - 1 }
    ensures says { Reads (S.leaves from.old) (S.leaves from.new) (λ ys zs. FindsWith (λ evidence _. Unit {0}) (evidence_at (reader.old.held ++ ys)) result reader.new.held zs) }
    ensures device { FailsOnce result Device (S.failed from.old) (S.failed from.new) }
{
    let sizes = reader.line::<SizesLine, S>(alloc, (), from)?;
    let _latches = read_latches(alloc, sizes.latches, reader, from)?;
    let _gates = read_gates(alloc, sizes.gates, reader, from)?;
    skip_clauses(alloc, reader, from)
}
