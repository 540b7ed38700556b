//! The circuit that counts rounds of a justice property as a file, with names.

ghost use Rattle.std.specs.Prelude.{◌≡◌, IfOk, IfErr};
ghost use Rattle.extension.specs.Rounds.{rounds_of};
ghost use Rattle.extension.specs.Rows.{IsCountable};
ghost use Rattle.transforms.specs.Extracted.{IsUnmade};
ghost use Rattle.transforms.specs.Counted.{IsUncounted};

use crate::error::TransformError;
use crate::symbols::{SEEN, add_numbered, count, old_names};
use base::Seq;
use extension::count_rounds;
use graph::{AigerFile, Model, Symbol};
use std::alloc::Global;

/// What stands before the number of a latch that counts in its name.
const ENDED: &str = "ended.";

/// The names in the circuit that counts so many rounds: those of the circuit, and those of the new latches.
fn names(
    alloc: Global,
    file: &AigerFile,
    counter: &Model,
    position: u32,
    rounds: u32,
) -> Result<Vec<Symbol>, TransformError>
    ensures { IfErr result IsUnmade }
{
    let latches = count(counter.latches().len());
    let ended = latches.saturating_sub(rounds.saturating_add(1));
    let seen = count(file.model().latches().len());
    let mut symbols = old_names(alloc, file, position)?;
    add_numbered(alloc, &mut symbols, SEEN, seen, ended)?;
    add_numbered(alloc, &mut symbols, ENDED, ended, latches)?;
    Ok(symbols)
}

/// The file of the circuit whose one bad literal is set where a run holds more rounds of the justice property at the position
/// than this number. Its inputs, latches and constraints have the names that they have in the circuit's file, and the bad
/// literal that of the justice property; an input or latch without a name is called `i0` or `lo0`, with its position. The
/// latches that note the literals are called `seen.0`, `seen.1` and so on, and those that count `ended.0`, `ended.1` and so on.
pub fn rounds_file(
    alloc: Global,
    file: &AigerFile,
    position: u32,
    rounds: u32,
) -> Result<AigerFile, TransformError>
    ensures counter { IfOk result (λ f. f.model ≡ rounds_of file.now.model position rounds) }
    ensures countable { IfOk result (λ _. IsCountable file.now.model position rounds) }
    ensures refused { IfErr result (IsUncounted file.now.model position rounds) }
{
    let model = count_rounds(alloc, file.model(), position, rounds)?;
    let symbols = names(alloc, file, &model, position, rounds)?;
    let counter = AigerFile::new(alloc, model, Seq::from_vec(symbols), None)?;
    Ok(counter)
}
