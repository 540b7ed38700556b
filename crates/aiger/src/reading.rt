//! Reading a text in its layout.

ghost use Rattle.std.specs.Prelude.{◌≡◌, ◌<◌, ◌↔◌, true, length, Err, IfOk, IfErr};
ghost use Rattle.graph.specs.declared.error.ReadError.TheVariants.{TooLong};
ghost use Rattle.graph.specs.File.{File};
ghost use Rattle.graph.specs.Refusals.{number_of};
ghost use Rattle.aag.specs.Ascii.{IsRead};
ghost use Rattle.aiger.specs.Layouts.{IsBinary, IsRefusalNumber, SpellsFile};

use graph::{AigerFile, ReadError};
use std::alloc::Global;

/// Whether a text is to be read as binary: its second byte is `i`, as in `aig`.
fn is_binary(text: &[u8]) -> bool
    ensures { (result ≡ true) ↔ IsBinary text.now }
{
    text.len() > 1 && text[1] == b'i'
}

/// The file that a text spells (AIGER 1.9), binary where its second byte is `i`, and else ASCII. A
/// text that spells none is refused by the reader of its layout.
pub fn read(alloc: Global, text: &[u8]) -> Result<AigerFile, ReadError>
    // What is read is spelled so.
    ensures found { IfOk result (λ f. SpellsFile text.now f) }
    // What is spelled so is read, unless memory runs out.
    ensures only { (f : File) → SpellsFile text.now f → IsRead result f }
    ensures refusals { IfErr result (λ e. IsRefusalNumber text.now (number_of e)) }
    ensures too_long { (result ≡ Err TooLong) ↔ (67108864 < length text.now) }
{
    if is_binary(text) {
        aig::read(alloc, text)
    } else {
        aag::read(alloc, text)
    }
}
