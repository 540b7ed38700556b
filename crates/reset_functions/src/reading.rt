//! Circuits whose latches have functions as resets, from texts.

ghost use Rattle.std.specs.Prelude.{◌≡◌, false, true, IfErr, IfOk};
ghost use Rattle.base.specs.Witness.{witness};
ghost use Rattle.graph.specs.declared.error.ReadError.TheVariants.{OutOfMemory};
ghost use Rattle.graph.specs.File.{File};
ghost use Rattle.graph.specs.Refusals.{number_of};
ghost use Rattle.aiger.specs.Layouts.{IsRefusalNumber, SpellsFile};
ghost use Rattle.reset_functions.specs.Reading.{IsBegunText, IsFaultOr, IsNoPlain, IsPlainOf, IsPlainRead, IsRefused, SpellsNone};

use crate::plain::{PlainText, replaced};
use graph::{AigerFile, Lit, ReadError};
use scan::Fault;
use std::alloc::Global;

/// The number of the refusal of memory.
const OUT_OF_MEMORY: u8 = 20;

/// A circuit, and the literals with whose values its latches begin.
#[derive(Drop)]
pub struct Begun {
    /// the circuit, in which a latch that begins so has its own literal as its reset
    pub file: AigerFile,
    /// those literals by the latches' positions; none where no reset is a function
    pub resets: Vec<Option<Lit>>,
}

/// Whether memory ran out.
#[tactic(auto, using(crate::proofs::Texts::only_memory))]
fn is_memory(fault: ReadError) -> bool
    ensures is { result ≡ true → fault ≡ OutOfMemory witness }
    ensures only { fault ≡ OutOfMemory witness → result ≡ true }
{
    fault.number() == OUT_OF_MEMORY
}

/// The circuit that the plain text spells, or else the first fault.
fn begun_of(alloc: Global, plain: PlainText, fault: ReadError) -> Result<Begun, ReadError>
    ensures found { IfOk result (λ b. SpellsFile plain.text.items b.file) }
    ensures resets { IfOk result (λ b. b.resets.items ≡ plain.resets.items) }
    ensures refused { IfErr result (IsFaultOr (SpellsNone plain.text.items) fault) }
{
    let PlainText { text, resets } = plain;
    match aiger::read(alloc, text.as_slice()) {
        Ok(file) => Ok(Begun { file, resets }),
        Err(found) if is_memory(found) => Err(found),
        Err(_) => Err(fault),
    }
}

/// The circuit of a text with the latch's own literal in place of each reset that is a function, or else the first fault.
fn read_plain(alloc: Global, text: &[u8], fault: ReadError) -> Result<Begun, ReadError>
    ensures found { IfOk result (IsPlainOf text.now) }
    ensures refused { IfErr result (IsFaultOr (IsNoPlain text.now) fault) }
{
    match replaced(alloc, text) {
        Ok(plain) => begun_of(alloc, plain, fault),
        Err(Fault::Memory(refused)) => Err(ReadError::from(refused)),
        Err(Fault::Text { .. }) => Err(fault),
    }
}

/// The circuit of a text (AIGER 1.9, in either layout), of whose latches each may have any literal as its reset. Whether a
/// reset depends on itself is not looked at. Another text than one that `aiger::read` takes is read with the latch's own
/// literal in place of each such reset; where that is no circuit either, the fault of the first reading is told.
#[tactic(auto, using(crate::proofs::Texts::refusal_number))]
pub fn read(alloc: Global, text: &[u8]) -> Result<Begun, ReadError>
    ensures found { IfOk result (IsBegunText text.now) }
    ensures only { (f : File) → SpellsFile text.now f → IsPlainRead result f }
    ensures refused { IfErr result (IsRefused text.now) }
    ensures refusals { IfErr result (λ e. IsRefusalNumber text.now (number_of e)) }
{
    match aiger::read(alloc, text) {
        Ok(file) => Ok(Begun {
            file,
            resets: Vec::new(alloc),
        }),
        Err(fault) if is_memory(fault) => Err(fault),
        Err(fault) => read_plain(alloc, text, fault),
    }
}
