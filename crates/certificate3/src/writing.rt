//! Writing the texts of certificates of version 3.

ghost use Rattle.std.specs.Prelude.{◌≡◌, ◌≢◌, ◌+◌, ◌-◌, ◌^◌, ◌<◌, OnOk, IfErr, flat_map};
ghost use Rattle.std.specs.Io.KnownBytes.{Appends};
ghost use Rattle.base.specs.Devices.{CountsFailure};
ghost use Rattle.lrat.specs.Texts.{Puts};
ghost use Rattle.certificate.specs.Texts.{clause_line};
ghost use Rattle.certificate3.specs.Limits.{IsUnwritten};
ghost use Rattle.certificate3.specs.Texts.{SpellsCertificate, certificate_text, claim_text, evidence_text, gate_line, hints_line, latch_line, shown_text};
ghost use Rattle.certificate3.specs.Writing.{certificate_in, circuit_text, evidence_in, id_text, invariant_text, proofs_text, three_line, two_line};
ghost use Rattle.certificate3.specs.declared.write_error.WriteError.TheVariants.{Device};
ghost use Rattle.graph.specs.declared.circuit.Property.TheVariants.{Justice};

use crate::claim::Claim;
use crate::evidence::{Evidence, Shown};
use crate::limits::is_spelled;
use crate::write_error::WriteError;
use base::{Failed, Lists, Sink, put_all};
use certificate::{put_clause, put_number, put_property, put_section};
use graph::{Gate, Latch, Lit, Property};

/// Puts two numbers on a line, a space between.
fn put_two<W: Sink>(out: &mut W, a: u64, b: u64) -> Result<(), Failed>
    requires { W.failed out.old < 2 ^ 64 - 1 }
    ensures puts { Puts result (W.contents out.old) (W.contents out.new) (two_line a b) }
    ensures counts { CountsFailure (W.failed out.old) (W.failed out.new) result }
{
    put_number(out, a, b" ")?;
    put_number(out, b, b"\n")
}

/// Puts three numbers on a line, a space between.
fn put_three<W: Sink>(out: &mut W, a: u64, b: u64, c: u64) -> Result<(), Failed>
    requires { W.failed out.old < 2 ^ 64 - 1 }
    ensures puts { Puts result (W.contents out.old) (W.contents out.new) (three_line a b c) }
    ensures counts { CountsFailure (W.failed out.old) (W.failed out.new) result }
{
    put_number(out, a, b" ")?;
    put_number(out, b, b" ")?;
    put_number(out, c, b"\n")
}

/// Puts the line of a latch.
fn put_latch<W: Sink>(out: &mut W, latch: Latch) -> Result<(), Failed>
    requires { W.failed out.old < 2 ^ 64 - 1 }
    ensures puts { Puts result (W.contents out.old) (W.contents out.new) (latch_line latch) }
    ensures counts { CountsFailure (W.failed out.old) (W.failed out.new) result }
{
    let Lit(lit) = latch.lit;
    let Lit(next) = latch.next;
    let Lit(reset) = latch.reset;
    put_three(out, u64::from(lit), u64::from(next), u64::from(reset))
}

/// Puts the line of a gate.
fn put_gate<W: Sink>(out: &mut W, gate: Gate) -> Result<(), Failed>
    requires { W.failed out.old < 2 ^ 64 - 1 }
    ensures puts { Puts result (W.contents out.old) (W.contents out.new) (gate_line gate) }
    ensures counts { CountsFailure (W.failed out.old) (W.failed out.new) result }
{
    let Lit(lhs) = gate.lhs;
    let Lit(rhs0) = gate.rhs0;
    let Lit(rhs1) = gate.rhs1;
    put_three(out, u64::from(lhs), u64::from(rhs0), u64::from(rhs1))
}

/// Puts the lines of latches.
fn put_latches<W: Sink>(out: &mut W, latches: &[Latch]) -> Result<(), Failed>
    requires { W.failed out.old < 2 ^ 64 - 1 }
    ensures puts { Puts result (W.contents out.old) (W.contents out.new) (flat_map latch_line latches.now) }
    ensures counts { CountsFailure (W.failed out.old) (W.failed out.new) result }
{
    for latch in latches {
        put_latch(out, *latch)?;
    }
    Ok(())
}

/// Puts the lines of gates.
fn put_gates<W: Sink>(out: &mut W, gates: &[Gate]) -> Result<(), Failed>
    requires { W.failed out.old < 2 ^ 64 - 1 }
    ensures puts { Puts result (W.contents out.old) (W.contents out.new) (flat_map gate_line gates.now) }
    ensures counts { CountsFailure (W.failed out.old) (W.failed out.new) result }
{
    for gate in gates {
        put_gate(out, *gate)?;
    }
    Ok(())
}

/// Puts a space and an id.
fn put_id<W: Sink>(out: &mut W, id: u32) -> Result<(), Failed>
    requires { W.failed out.old < 2 ^ 64 - 1 }
    ensures puts { Puts result (W.contents out.old) (W.contents out.new) (id_text id) }
    ensures counts { CountsFailure (W.failed out.old) (W.failed out.new) result }
{
    put_all(out, b" ")?;
    put_number(out, u64::from(id), b"")
}

/// Puts ids, a space before each.
fn put_ids<W: Sink>(out: &mut W, ids: &[u32]) -> Result<(), Failed>
    requires { W.failed out.old < 2 ^ 64 - 1 }
    ensures puts { Puts result (W.contents out.old) (W.contents out.new) (flat_map id_text ids.now) }
    ensures counts { CountsFailure (W.failed out.old) (W.failed out.new) result }
{
    for id in ids {
        put_id(out, *id)?;
    }
    Ok(())
}

/// Puts the line of a clause's hints.
fn put_hints_line<W: Sink>(out: &mut W, ids: &[u32]) -> Result<(), Failed>
    requires { W.failed out.old < 2 ^ 64 - 1 }
    ensures puts { Puts result (W.contents out.old) (W.contents out.new) (hints_line ids.now) }
    ensures counts { CountsFailure (W.failed out.old) (W.failed out.new) result }
{
    put_number(out, ids.len() as u64, b"")?;
    put_ids(out, ids)?;
    put_all(out, b"\n")
}

/// Puts the lines of the clauses' hints.
fn put_hints<W: Sink>(out: &mut W, hints: &Lists<u32>) -> Result<(), Failed>
    requires { W.failed out.old < 2 ^ 64 - 1 }
    ensures puts { Puts result (W.contents out.old) (W.contents out.new) (flat_map hints_line hints.now) }
    ensures counts { CountsFailure (W.failed out.old) (W.failed out.new) result }
{
    for k in 0..hints.len() {
        put_hints_line(out, hints.list(k))?;
    }
    Ok(())
}

/// Puts the lines of clauses.
fn put_clauses<W: Sink>(out: &mut W, clauses: &Lists<Lit>) -> Result<(), Failed>
    requires { W.failed out.old < 2 ^ 64 - 1 }
    ensures puts { Puts result (W.contents out.old) (W.contents out.new) (flat_map clause_line clauses.now) }
    ensures counts { CountsFailure (W.failed out.old) (W.failed out.new) result }
{
    for k in 0..clauses.len() {
        put_clause(out, clauses.list(k))?;
    }
    Ok(())
}

/// Puts latches and gates, and before them how many there are.
fn put_circuit<W: Sink>(out: &mut W, latches: &[Latch], gates: &[Gate]) -> Result<(), Failed>
    requires { W.failed out.old < 2 ^ 64 - 1 }
    ensures puts { Puts result (W.contents out.old) (W.contents out.new) (circuit_text latches.now gates.now) }
    ensures counts { CountsFailure (W.failed out.old) (W.failed out.new) result }
{
    put_two(out, latches.len() as u64, gates.len() as u64)?;
    put_latches(out, latches)?;
    put_gates(out, gates)
}

/// Puts clauses, and before them how many there are.
fn put_invariant<W: Sink>(out: &mut W, invariant: &Lists<Lit>) -> Result<(), Failed>
    requires { W.failed out.old < 2 ^ 64 - 1 }
    ensures puts { Puts result (W.contents out.old) (W.contents out.new) (invariant_text invariant.now) }
    ensures counts { CountsFailure (W.failed out.old) (W.failed out.new) result }
{
    put_number(out, invariant.len() as u64, b"\n")?;
    put_clauses(out, invariant)
}

/// Puts a section with this letter, and the hints behind it.
fn put_shown<W: Sink>(out: &mut W, letter: u8, shown: &Shown) -> Result<(), Failed>
    requires { W.failed out.old < 2 ^ 64 - 1 }
    ensures puts { Puts result (W.contents out.old) (W.contents out.new) (shown_text letter shown.now.lines shown.now.hints) }
    ensures counts { CountsFailure (W.failed out.old) (W.failed out.new) result }
{
    put_section(out, letter, &shown.lines)?;
    put_hints(out, &shown.hints)
}

/// Puts the three sections.
fn put_proofs<W: Sink>(out: &mut W, evidence: &Evidence) -> Result<(), Failed>
    requires { W.failed out.old < 2 ^ 64 - 1 }
    ensures puts { Puts result (W.contents out.old) (W.contents out.new) (proofs_text (evidence_in evidence.now)) }
    ensures counts { CountsFailure (W.failed out.old) (W.failed out.new) result }
{
    put_shown(out, b'i', &evidence.first)?;
    put_shown(out, b's', &evidence.step)?;
    put_section(out, b'b', &evidence.last)
}

/// Puts all that is behind the claim.
fn put_evidence<W: Sink>(out: &mut W, evidence: &Evidence) -> Result<(), Failed>
    requires { W.failed out.old < 2 ^ 64 - 1 }
    ensures puts { Puts result (W.contents out.old) (W.contents out.new) (evidence_text (evidence_in evidence.now)) }
    ensures counts { CountsFailure (W.failed out.old) (W.failed out.new) result }
{
    put_circuit(out, evidence.latches.as_slice(), evidence.gates.as_slice())?;
    put_invariant(out, &evidence.invariant)?;
    put_proofs(out, evidence)
}

/// Puts the claim of a justice property.
fn put_justice<W: Sink>(out: &mut W, position: u32, rounds: u32) -> Result<(), Failed>
    requires { W.failed out.old < 2 ^ 64 - 1 }
    ensures puts { Puts result (W.contents out.old) (W.contents out.new) (claim_text (Justice position) rounds) }
    ensures counts { CountsFailure (W.failed out.old) (W.failed out.new) result }
{
    put_all(out, b"j")?;
    put_two(out, u64::from(position), u64::from(rounds))
}

/// Puts the claim.
fn put_claim<W: Sink>(out: &mut W, claim: Claim) -> Result<(), Failed>
    requires { W.failed out.old < 2 ^ 64 - 1 }
    ensures puts { Puts result (W.contents out.old) (W.contents out.new) (claim_text claim.property claim.rounds) }
    ensures counts { CountsFailure (W.failed out.old) (W.failed out.new) result }
{
    match claim.property {
        Property::Justice(position) => put_justice(out, position, claim.rounds),
        Property::Bad(_) | Property::Output(_) => put_property(out, claim.property),
    }
}

/// Puts the text of a certificate.
fn put_text<W: Sink>(out: &mut W, claim: Claim, evidence: &Evidence) -> Result<(), Failed>
    requires { W.failed out.old < 2 ^ 64 - 1 }
    ensures puts { Puts result (W.contents out.old) (W.contents out.new) (certificate_text (certificate_in claim evidence.now)) }
    ensures counts { CountsFailure (W.failed out.old) (W.failed out.new) result }
{
    put_all(out, b"aigcert 3\n")?;
    put_claim(out, claim)?;
    put_evidence(out, evidence)
}

/// Writes the text of a certificate of version 3, which is the one text that spells it, so that just
/// this certificate is read from it again. Where no text spells it, nothing is put. It takes no
/// memory.
pub fn write<W: Sink>(claim: Claim, evidence: &Evidence, out: &mut W) -> Result<(), WriteError>
    requires { W.failed out.old < 2 ^ 64 - 1 }
    ensures written { OnOk result (Appends (W.contents out.old) (W.contents out.new) (certificate_text (certificate_in claim evidence.now))) }
    ensures spelled { OnOk result (SpellsCertificate (certificate_text (certificate_in claim evidence.now)) (certificate_in claim evidence.now)) }
    ensures refused { IfErr result (IsUnwritten (certificate_in claim evidence.now) (W.contents out.old) (W.contents out.new)) }
    ensures kept { OnOk result (W.failed out.new ≡ W.failed out.old) }
    ensures device { IfErr result (λ e. e ≡ Device → W.failed out.new ≡ W.failed out.old + 1) }
    ensures untouched { IfErr result (λ e. e ≢ Device → out.new ≡ out.old) }
{
    if !is_spelled(claim, evidence) {
        return Err(WriteError::Unspelled);
    }
    put_text(out, claim, evidence)?;
    Ok(())
}
