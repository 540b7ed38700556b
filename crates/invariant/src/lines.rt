//! Clauses, a line for each.

ghost use Rattle.base.specs.Witness.{witness};
ghost use Rattle.std.specs.Prelude.{◌≡◌, List, suc, length, IfOk, MatchResult};
ghost use Rattle.scan.specs.Reading.{Gives};
ghost use Rattle.scan.specs.declared.fault.Fault.TheVariants.{Memory};
ghost use Rattle.graph.specs.declared.circuit.Lit.{Lit as ALit};
ghost use Rattle.invariant.specs.Reading.{clause_at, literals_at};
ghost use Rattle.invariant.specs.Texts.{SpellsClauses};

use crate::invariant_fault::{IN_LINE, InvariantFault};
use base::{Seq, push};
use graph::Lit;
use scan::{Fault, word};
use std::alloc::Global;

/// The literals up to the line end, of which there is one at least, and what follows that.
fn literals(alloc: Global, text: &[u8]) -> Result<(Vec<Lit>, &[u8]), Fault<InvariantFault>>
    ensures { Gives (λ x. (x.0.items, x.1.now)) result (literals_at (suc (length text.now)) text.now) }
{
    let mut literals = Vec::new(alloc);
    let mut rest = text;
    for _ in 0..text.len() + 1 {
        let (literal, end, after) = word(rest, u32::MAX, (b' ', b'\n'), IN_LINE)?;
        push(&mut literals, Lit(literal))?;
        rest = after;
        if end == b'\n' {
            return Ok((literals, rest));
        }
    }
    Err(Fault::Text {
        kind: InvariantFault::Truncated,
        left: 0,
    })
}

/// The clause of a line, and what follows the line end. A line of no bytes is the empty clause.
#[tactic(auto, unfolding(crate::specs::Reading::clause_at))]
fn clause(alloc: Global, text: &[u8]) -> Result<(Seq<Lit>, &[u8]), Fault<InvariantFault>>
    ensures { Gives (λ x. (x.0, x.1.now)) result (clause_at text.now) }
{
    match text {
        [b'\n', rest @ ..] => Ok((Seq::new(alloc), rest)),
        _ => {
            let (literals, rest) = literals(alloc, text)?;
            Ok((Seq::from_vec(literals), rest))
        }
    }
}

/// The clauses that the lines of the whole text are. The list grows line by line.
pub fn clauses(alloc: Global, text: &[u8]) -> Result<Seq<Seq<Lit>>, Fault<InvariantFault>>
    ensures found { IfOk result (λ cs. SpellsClauses text.now cs) }
    ensures only { (cs : List (List ALit)) → SpellsClauses text.now cs → MatchResult result (λ ds. ds ≡ cs) (λ e. e ≡ Memory witness) }
{
    let mut clauses = Seq::new(alloc);
    let mut rest = text;
    'reading: while !rest.is_empty() {
        let (clause, after) = clause(alloc, rest)?;
        clauses.push(clause)?;
        rest = after;
    }
    Ok(clauses)
}
