//! A certificate's text, of any version, checked while it is read.

ghost use Rattle.std.specs.Prelude.{◌≡◌, ◌-◌, ◌<◌, ◌^◌, ◌++◌, IfOk, MatchResult};
ghost use Rattle.base.specs.Devices.{IsAtEnd, Reads, FailsOnce};
ghost use Rattle.certificate.specs.Streams.{FindsWith, ForText};
ghost use Rattle.certificate.specs.declared.reader_error.ReaderError.TheVariants.{Device};
ghost use Rattle.certificate3.specs.Formats.{Certified, SpellsCertified, behind_at, certified_at};
ghost use Rattle.checker.specs.AnyVersion.{IsFoundOf, IsFoundThird, named_property};

use base::Source;
use certificate::{Reader, ReaderError};
use certificate3::{AnyFirstLine, Format};
use checker2::{Outcome, check_earlier};
use checker3::check_behind;
use graph::Model;
use std::alloc::Global;

/// Reads what is behind the first line of a certificate of version 3, and checks it while it is
/// read.
fn check_third<S: Source>(
    alloc: Global,
    circuit: &Model,
    reader: &mut Reader,
    from: &mut S,
) -> Result<Outcome, ReaderError>
    requires source { S.failed from.old < 2 ^ 64 - 1 }
    ensures says { Reads (S.leaves from.old) (S.leaves from.new) (λ ys zs. FindsWith (λ c found. (found.property ≡ c.claim.property) × IsFoundThird circuit.now c found.refusal) (behind_at (reader.old.held ++ ys)) result reader.new.held zs) }
    ensures device { FailsOnce result Device (S.failed from.old) (S.failed from.new) }
{
    let found = check_behind(alloc, circuit, reader, from)?;
    let property = found.claim.property;
    match found.refusal {
        None => Ok(Outcome {
            property,
            refusal: None,
        }),
        Some(refusal) => Ok(Outcome {
            property,
            refusal: Some(refusal.number()),
        }),
    }
}

/// Reads a certificate of any version, and checks it while it is read.
fn check_text<S: Source>(
    alloc: Global,
    circuit: &Model,
    reader: &mut Reader,
    from: &mut S,
) -> Result<Outcome, ReaderError>
    requires source { S.failed from.old < 2 ^ 64 - 1 }
    ensures says { Reads (S.leaves from.old) (S.leaves from.new) (λ ys zs. FindsWith (λ c found. (found.property ≡ named_property c) × IsFoundOf circuit.now c found.refusal) (certified_at (reader.old.held ++ ys)) result reader.new.held zs) }
    ensures device { FailsOnce result Device (S.failed from.old) (S.failed from.new) }
{
    let format = reader.line::<AnyFirstLine, S>(alloc, (), from)?;
    match format {
        Format::Earlier(version) => check_earlier(alloc, circuit, version, reader, from),
        Format::Three => check_third(alloc, circuit, reader, from),
    }
}

/// Reads the certificate, of any version, that the source's bytes spell, and checks it while it is
/// read. It holds the clauses of the invariant, those of one section, and one line; of version 1 or 2
/// those that the cases share too, and of version 3 the extended circuit. A fault of the text,
/// anywhere in it, goes before every fault of the check. After a fault of the text nothing more is
/// taken.
pub fn check_source<S: Source>(
    alloc: Global,
    circuit: &Model,
    from: &mut S,
) -> Result<Outcome, ReaderError>
    requires source { S.failed from.old < 2 ^ 64 - 1 }
    ensures says { Reads (S.leaves from.old) (S.leaves from.new) (λ ys zs. MatchResult result (λ found. (c : Certified) × SpellsCertified ys c × (found.property ≡ named_property c) × IsFoundOf circuit.now c found.refusal) (λ e. ForText e ((c : Certified) → SpellsCertified ys c → ⊥))) }
    ensures ended { IfOk result (λ _. IsAtEnd (S.leaves from.new)) }
    ensures device { FailsOnce result Device (S.failed from.old) (S.failed from.new) }
{
    let mut reader = Reader::new(alloc)?;
    let outcome = check_text(alloc, circuit, &mut reader, from)?;
    reader.end(from)?;
    Ok(outcome)
}
