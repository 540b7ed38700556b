//! ABC's PLA: cubes of states that are not reached.

ghost use Rattle.std.specs.Prelude.{◌≡◌, List, false, IfOk};
ghost use Rattle.scan.specs.Reading.{Gives};
ghost use Rattle.graph.specs.declared.circuit.Lit.{Lit as ALit};
ghost use Rattle.invariant.specs.Plas.{NegationLaw, SpellsPla, behind_comments};
ghost use Rattle.invariant.specs.PlaReading.{behind_lines, end_at, head_at, pla_at, wide_at};
ghost use Rattle.invariant.specs.Texts.{IsRead};

use crate::columns::columns;
use crate::invariant_error::InvariantError;
use crate::invariant_fault::{IN_LINE, InvariantFault, error};
use crate::rows::rows;
use base::Seq;
use graph::{AigerFile, Latch, Lit};
use scan::{Fault, field, tag};
use std::alloc::Global;

/// What follows the lines that begin with a number sign.
fn behind_comments(text: &[u8]) -> &[u8]
    ensures { result.now ≡ behind_comments false text.now }
{
    let mut inside = false;
    for (i, c) in text.iter().enumerate() {
        if inside {
            inside = *c != b'\n';
        } else if *c == b'#' {
            inside = true;
        } else {
            return &text[i..];
        }
    }
    &text[text.len()..]
}

/// The counts of columns and of cubes, and what follows them.
#[tactic(auto, unfolding(crate::specs::PlaReading::head_at))]
fn head(text: &[u8]) -> Result<(u32, u32, &[u8]), Fault<InvariantFault>>
    ensures { Gives (λ x. ((x.0, x.1), x.2.now)) result (head_at text.now) }
{
    let rest = tag(text, b".i ", IN_LINE)?;
    let (columns, rest) = field(rest, u32::MAX, b'\n', IN_LINE)?;
    let rest = tag(rest, b".o 1\n.p ", IN_LINE)?;
    let (cubes, rest) = field(rest, u32::MAX, b'\n', IN_LINE)?;
    Ok((columns, cubes, rest))
}

/// The columns, of which there have to be as many as `width` says, and what follows their names.
#[tactic(auto, unfolding(crate::specs::PlaReading::wide_at))]
fn wide<'a>(
    alloc: Global,
    file: &AigerFile,
    width: u32,
    text: &'a [u8],
) -> Result<(Vec<Latch>, &'a [u8]), Fault<InvariantFault>>
    ensures { Gives (λ x. (x.0.items, x.1.now)) result (wide_at file.now width text.now) }
{
    let (columns, rest) = columns(alloc, file, text)?;
    if columns.len() as u64 == u64::from(width) {
        Ok((columns, rest))
    } else {
        Err(Fault::Text {
            kind: InvariantFault::Latch,
            left: rest.len(),
        })
    }
}

/// What follows the line ends that come next.
fn behind_lines(text: &[u8]) -> &[u8]
    ensures { result.now ≡ behind_lines text.now }
{
    for (i, c) in text.iter().enumerate() {
        if *c != b'\n' {
            return &text[i..];
        }
    }
    &text[text.len()..]
}

/// The lines of no bytes that follow the end.
#[tactic(auto, unfolding(crate::specs::PlaReading::end_at))]
fn end(text: &[u8]) -> Result<&[u8], Fault<InvariantFault>>
    ensures { Gives (λ x. x.now) result (end_at text.now) }
{
    let lines = tag(text, b".e\n", IN_LINE)?;
    let rest = behind_lines(lines);
    if rest.is_empty() {
        Ok(lines)
    } else {
        Err(Fault::Text {
            kind: InvariantFault::Byte,
            left: rest.len(),
        })
    }
}

/// The clauses of the cubes of the PLA that the whole text is.
#[tactic(auto, unfolding(crate::specs::PlaReading::pla_at))]
fn pla(alloc: Global, file: &AigerFile, text: &[u8]) -> Result<Seq<Seq<Lit>>, Fault<InvariantFault>>
    ensures { Gives (λ x. x) result (pla_at file.now text.now) }
{
    let (width, count, rest) = head(behind_comments(text))?;
    let (columns, rest) = wide(alloc, file, width, rest)?;
    let (clauses, rest) = rows(alloc, &columns, count, rest)?;
    end(rest)?;
    Ok(clauses)
}

/// Reads the clauses of the PLA that ABC's `pdr -d` writes: each row is a cube of states that are not reached, and its
/// clause is its negation, over the latches of the circuit in `file`. One pass over the text, and no memory beside the lists
/// that are built, which grow item by item.
pub fn read_pla(
    alloc: Global,
    file: &AigerFile,
    text: &[u8],
) -> Result<Seq<Seq<Lit>>, InvariantError>
    // What is read is spelled so.
    ensures found { IfOk result (λ cs. SpellsPla file.now text.now cs) }
    // A clause is false exactly in the states of its cube.
    ensures negation { NegationLaw }
    // What is spelled so is read, unless memory runs out.
    ensures only { (cs : List (List ALit)) → SpellsPla file.now text.now cs → IsRead result cs }
{
    match pla(alloc, file, text) {
        Ok(clauses) => Ok(clauses),
        Err(fault) => Err(error(text.len(), fault)),
    }
}
