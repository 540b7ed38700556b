//! Which certificates have a text.

ghost use Rattle.std.specs.Prelude.{◌≡◌, ◌<◌, ◌↔◌, All, IsTrue, length};
ghost use Rattle.lrat.specs.Limits.{IsLine};
ghost use Rattle.certificate3.specs.Limits.{IsInLimits};
ghost use Rattle.certificate3.specs.Texts.{AreGateWords, AreHints, AreLatchWords, AreLiterals, IsClaim, IsWord};
ghost use Rattle.certificate3.specs.Writing.{certificate_in};

use crate::claim::Claim;
use crate::evidence::{Evidence, Shown};
use base::Lists;
use certificate::GREATEST;
use graph::{Gate, Latch, Lit, Property};

/// The greatest count of latches, gates, clauses, literals of a clause, and hints.
const MOST: usize = GREATEST as usize;

/// The number that a literal is written as.
fn number(literal: Lit) -> u32
    ensures { result ≡ literal.0 }
{
    literal.0
}

/// That a latch's literals are in their limits, which its type keeps.
fn latch_fits(latch: Latch)
    ensures { AreLatchWords latch }
{
    let _lit = number(latch.lit);
    let _next = number(latch.next);
    let _reset = number(latch.reset);
}

/// That a gate's literals are in their limits, which its type keeps.
fn gate_fits(gate: Gate)
    ensures { AreGateWords gate }
{
    let _lhs = number(gate.lhs);
    let _rhs0 = number(gate.rhs0);
    let _rhs1 = number(gate.rhs1);
}

/// That the latches' literals are in their limits.
fn latches_fit(latches: &[Latch])
    ensures { All AreLatchWords latches.now }
{
    for latch in latches {
        latch_fits(*latch);
    }
}

/// That the gates' literals are in their limits.
fn gates_fit(gates: &[Gate])
    ensures { All AreGateWords gates.now }
{
    for gate in gates {
        gate_fits(*gate);
    }
}

/// That each literal is in its limits.
fn literals_fit(literals: &[Lit])
    ensures { All IsWord literals.now }
{
    for literal in literals {
        let _number = number(*literal);
    }
}

/// The id itself.
fn word(id: u32) -> u32
    ensures { result ≡ id }
{
    id
}

/// That each id is in its limits.
fn ids_fit(ids: &[u32])
    ensures { All (λ n. n < 4294967296) ids.now }
{
    for id in ids {
        let _word = word(*id);
    }
}

/// Whether the clause has not too many literals.
fn is_clause(clause: &[Lit]) -> bool
    ensures { IsTrue result ↔ AreLiterals clause.now }
{
    literals_fit(clause);
    clause.len() <= MOST
}

/// Whether there are not too many hints.
fn is_hints(ids: &[u32]) -> bool
    ensures { IsTrue result ↔ AreHints ids.now }
{
    ids_fit(ids);
    ids.len() <= MOST
}

/// Whether no clause has too many literals.
fn are_clauses(clauses: &Lists<Lit>) -> bool
    ensures { IsTrue result ↔ All AreLiterals clauses.now }
{
    for k in 0..clauses.len() {
        if !is_clause(clauses.list(k)) {
            return false;
        }
    }
    true
}

/// Whether no clause has too many hints.
fn are_hints(hints: &Lists<u32>) -> bool
    ensures { IsTrue result ↔ All AreHints hints.now }
{
    for k in 0..hints.len() {
        if !is_hints(hints.list(k)) {
            return false;
        }
    }
    true
}

/// That the lines of a proof are in their limits, which its type keeps; and whether there are as many
/// lists of hints as clauses, none too long.
fn is_shown(shown: &Shown, clauses: usize) -> bool
    ensures lines { All IsLine shown.now.lines }
    ensures hints { IsTrue result ↔ ((length shown.now.hints ≡ clauses) × All AreHints shown.now.hints) }
{
    let _lines = shown.lines.lines();
    shown.hints.len() == clauses && are_hints(&shown.hints)
}

/// Whether the claim has no rounds but for justice.
fn is_claim(claim: Claim) -> bool
    ensures { IsTrue result ↔ IsClaim claim }
{
    match claim.property {
        Property::Justice(_) => true,
        Property::Bad(_) | Property::Output(_) => claim.rounds == 0,
    }
}

/// Whether a text spells the certificate.
pub fn is_spelled(claim: Claim, evidence: &Evidence) -> bool
    ensures { IsTrue result ↔ IsInLimits (certificate_in claim evidence.now) }
{
    let _last = evidence.last.lines();
    latches_fit(evidence.latches.as_slice());
    gates_fit(evidence.gates.as_slice());
    let clauses = evidence.invariant.len();
    is_claim(claim)
        && evidence.latches.len() <= MOST
        && evidence.gates.len() <= MOST
        && clauses <= MOST
        && are_clauses(&evidence.invariant)
        && is_shown(&evidence.first, clauses)
        && is_shown(&evidence.step, clauses)
}
