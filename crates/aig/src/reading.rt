//! Reading a whole text.

ghost use Rattle.std.specs.Prelude.{◌≡◌, ◌<◌, ◌↔◌, Contains, length, Err, IfOk, IfErr};
ghost use Rattle.graph.specs.declared.error.ReadError.TheVariants.{TooLong};
ghost use Rattle.graph.specs.File.{File};
ghost use Rattle.graph.specs.Refusals.{number_of};
ghost use Rattle.graph.specs.Symbols.{symbol_counts, AreSymbols};
ghost use Rattle.aag.specs.Ascii.{IsRead, file_of};
ghost use Rattle.aag.specs.Whole.{GivesOnly};
ghost use Rattle.aig.specs.Binary.{SpellsBinary};
ghost use Rattle.aig.specs.Refusals.{refusal_numbers};
ghost use Rattle.aig.specs.Whole.{text_at};

use crate::circuit::circuit;
use crate::delta::NoDelta;
use aag::{ReadFault, told, with_tail};
use base::Seq;
use graph::{AigerFile, LONGEST_TEXT, Model, Parts, ReadError, Symbols};
use scan::Fault;
use std::alloc::Global;

/// The parts, the symbols and the comment that a text spells.
#[tactic(auto, unfolding(crate::specs::Whole::text_at, aag::specs::Whole::file_at))]
fn parse(
    alloc: Global,
    text: &[u8],
) -> Result<(Parts, Symbols, Option<Seq<u8>>), Fault<ReadFault<NoDelta>>>
    ensures value { GivesOnly (λ f. AreSymbols (symbol_counts f.model) f.symbols) (λ x. file_of x.0 x.1.symbols x.2) result (text_at text.now) }
    ensures counts { IfOk result (λ x. x.1.counts ≡ symbol_counts x.0) }
{
    let (parts, rest) = circuit(alloc, text)?;
    with_tail::<NoDelta>(alloc, parts, rest)
}

/// The file that a text spells (AIGER 1.9, the binary layout), read in one pass. A text that spells
/// none is refused at its first fault. Whatever the bytes of the gates, the circuit is well formed.
pub fn read(alloc: Global, text: &[u8]) -> Result<AigerFile, ReadError>
    // What is read is spelled so.
    ensures found { IfOk result (λ f. SpellsBinary text.now f) }
    // What is spelled so is read, unless memory runs out.
    ensures only { (f : File) → SpellsBinary text.now f → IsRead result f }
    ensures refusals { IfErr result (λ e. Contains refusal_numbers (number_of e)) }
    ensures too_long { (result ≡ Err TooLong) ↔ (67108864 < length text.now) }
{
    if text.len() > LONGEST_TEXT {
        return Err(ReadError::TooLong);
    }
    match parse(alloc, text) {
        Ok((parts, symbols, comment)) => {
            let model = Model::from_parts(alloc, parts)?;
            Ok(AigerFile::from_symbols(model, symbols, comment))
        }
        Err(fault) => Err(told(fault, text.len())),
    }
}
