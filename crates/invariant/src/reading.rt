//! Reading the texts of invariants.

ghost use Rattle.std.specs.Prelude.{◌≡◌, List, IfOk};
ghost use Rattle.graph.specs.declared.circuit.Lit.{Lit as ALit};
ghost use Rattle.certificate.specs.declared.certificate.Certificate.{Certificate as ACertificate};
ghost use Rattle.certificate.specs.Texts.{SpellsCertificate};
ghost use Rattle.invariant.specs.Reading.{begins_certificate};
ghost use Rattle.invariant.specs.Texts.{IsRead, OfCertificate, SpellsClauses, SpellsInvariant};

use crate::invariant_error::InvariantError;
use crate::invariant_fault::error;
use crate::lines::clauses;
use base::Seq;
use graph::Lit;
use std::alloc::Global;

/// Whether the first byte is that of a certificate, with which no line of a clause begins.
fn is_certificate(text: &[u8]) -> bool
    ensures { result ≡ begins_certificate text.now }
{
    match text {
        [] => false,
        [c, ..] => *c == b'a',
    }
}

/// The clauses of the certificate that the whole text is.
fn of_certificate(alloc: Global, text: &[u8]) -> Result<Seq<Seq<Lit>>, InvariantError>
    ensures found { IfOk result (λ cs. OfCertificate text.now cs) }
    ensures only { (c : ACertificate) → SpellsCertificate text.now c → IsRead result c.invariant }
{
    let certificate = certificate::read(alloc, text)?;
    Ok(certificate.invariant)
}

/// The clauses that the lines of the whole text are.
fn of_lines(alloc: Global, text: &[u8]) -> Result<Seq<Seq<Lit>>, InvariantError>
    ensures found { IfOk result (λ cs. SpellsClauses text.now cs) }
    ensures only { (cs : List (List ALit)) → SpellsClauses text.now cs → IsRead result cs }
{
    match clauses(alloc, text) {
        Ok(clauses) => Ok(clauses),
        Err(fault) => Err(error(text.len(), fault)),
    }
}

/// Reads the clauses of an invariant: a line for each, its literals in canonical decimal with a space between two and
/// a line end behind (a line of no bytes is the empty clause); or, where the text begins with an `a`, a
/// certificate, whose proofs are read and left. Literals are those of the circuit (AIGER) and below 2^32;
/// whether a latch has them is not looked at. One pass over the text, and no memory beside the lists that are built, which
/// grow item by item.
pub fn read(alloc: Global, text: &[u8]) -> Result<Seq<Seq<Lit>>, InvariantError>
    // What is read is spelled so.
    ensures found { IfOk result (λ cs. SpellsInvariant text.now cs) }
    // What is spelled so is read, unless memory runs out.
    ensures only { (cs : List (List ALit)) → SpellsInvariant text.now cs → IsRead result cs }
{
    if is_certificate(text) {
        of_certificate(alloc, text)
    } else {
        of_lines(alloc, text)
    }
}
