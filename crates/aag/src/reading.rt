//! Reading a whole text.

ghost use Rattle.std.specs.Prelude.{◌≡◌, ◌<◌, ◌↔◌, Contains, length, Err, IfOk, IfErr};
ghost use Rattle.graph.specs.declared.error.ReadError.TheVariants.{TooLong};
ghost use Rattle.graph.specs.File.{File};
ghost use Rattle.graph.specs.Refusals.{number_of};
ghost use Rattle.graph.specs.Symbols.{symbol_counts, AreSymbols};
ghost use Rattle.aag.specs.Whole.{GivesOnly, file_at, text_at};
ghost use Rattle.aag.specs.Refusals.{refusal_numbers};
ghost use Rattle.aag.specs.Ascii.{SpellsAscii, IsRead, file_of};

use crate::circuit::circuit;
use crate::comments::comment;
use crate::lines::NotDefining;
use crate::read_fault::{ReadFault, told};
use crate::symbol::symbols;
use base::Seq;
use graph::{AigerFile, LONGEST_TEXT, Model, Parts, ReadError, Symbols};
use scan::Fault;
use std::alloc::Global;

/// The symbols and the comment that follow the parts. The symbols are those of the parts, of which
/// nothing else is asked yet.
#[tactic(auto, unfolding(crate::specs::Whole::file_at))]
fn tail<L: Copy>(
    alloc: Global,
    parts: &Parts,
    text: &[u8],
) -> Result<(Symbols, Option<Seq<u8>>), Fault<ReadFault<L>>>
    ensures value { GivesOnly (λ f. AreSymbols (symbol_counts f.model) f.symbols) (λ x. file_of parts.now x.0.symbols x.1) result (file_at parts.now text.now) }
    ensures counts { IfOk result (λ x. x.0.counts ≡ symbol_counts parts.now) }
{
    let (symbols, rest) = symbols::<L>(alloc, parts, text)?;
    let comment = comment(alloc, rest)?;
    Ok((symbols, comment))
}

/// The parts, with the symbols and the comment that follow them. The symbols are those of the parts,
/// of which nothing else is asked yet.
pub fn with_tail<L: Copy>(
    alloc: Global,
    parts: Parts,
    text: &[u8],
) -> Result<(Parts, Symbols, Option<Seq<u8>>), Fault<ReadFault<L>>>
    ensures value { GivesOnly (λ f. AreSymbols (symbol_counts f.model) f.symbols) (λ x. file_of x.0 x.1.symbols x.2) result (file_at parts text.now) }
    ensures counts { IfOk result (λ x. x.1.counts ≡ symbol_counts x.0) }
{
    let (symbols, comment) = tail(alloc, &parts, text)?;
    Ok((parts, symbols, comment))
}

/// The parts, the symbols and the comment that a text spells.
#[tactic(auto, unfolding(crate::specs::Whole::text_at, crate::specs::Whole::file_at))]
fn parse(
    alloc: Global,
    text: &[u8],
) -> Result<(Parts, Symbols, Option<Seq<u8>>), Fault<ReadFault<NotDefining>>>
    ensures value { GivesOnly (λ f. AreSymbols (symbol_counts f.model) f.symbols) (λ x. file_of x.0 x.1.symbols x.2) result (text_at text.now) }
    ensures counts { IfOk result (λ x. x.1.counts ≡ symbol_counts x.0) }
{
    let (parts, rest) = circuit(alloc, text)?;
    with_tail::<NotDefining>(alloc, parts, rest)
}

/// The file that a text spells (AIGER 1.9, the ASCII layout), read in one pass. A text that spells
/// none is refused at its first fault. A circuit that is not well formed is refused after the last
/// byte, with the smallest variable that shows it.
pub fn read(alloc: Global, text: &[u8]) -> Result<AigerFile, ReadError>
    // What is read is spelled so.
    ensures found { IfOk result (λ f. SpellsAscii text.now f) }
    // What is spelled so is read, unless memory runs out.
    ensures only { (f : File) → SpellsAscii text.now f → IsRead result f }
    ensures refusals { IfErr result (λ e. Contains refusal_numbers (number_of e)) }
    ensures too_long { (result ≡ Err TooLong) ↔ (67108864 < length text.now) }
{
    if text.len() > LONGEST_TEXT {
        return Err(ReadError::TooLong);
    }
    match parse(alloc, text) {
        Ok((parts, symbols, comment)) => {
            let model = Model::from_parts(alloc, parts)?;
            Ok(AigerFile::from_symbols(model, symbols, comment))
        }
        Err(fault) => Err(told(fault, text.len())),
    }
}
