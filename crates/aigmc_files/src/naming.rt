//! Properties by their names in the circuit's symbol table.

ghost use Rattle.std.specs.Prelude.{IfOk};
ghost use Rattle.property_names.specs.Symbols.{IsAskedBy, IsAskedFor};

use crate::exit_error::ExitError;
use crate::terminal::is_terminal;
use explanations::Printable;
use graph::{AigerFile, Property};
use property_names::{Asked, Listing, asked_by, property_called};

/// What the word asks for.
pub fn asked_for(word: &str) -> Result<Asked<'_>, ExitError>
    ensures { IfOk result (IsAskedBy word.now) }
{
    asked_by(word).ok_or(ExitError::BadArgument)
}

/// The property that is asked for, of the circuit in the file of this name. Where none, or more than one, has the name
/// that is asked for, standard error says so.
pub fn property_in(
    rt: &HostRuntime,
    circuit: &str,
    file: &AigerFile,
    asked: Asked<'_>,
    verbose: bool,
) -> Result<Property, ExitError>
    ensures { IfOk result (IsAskedFor file.now.symbols asked.entry) }
{
    let word = match asked {
        Asked::Property(property) => return Ok(property),
        Asked::Symbol(word) => word,
    };
    match property_called(file, word) {
        Ok(property) => Ok(property),
        Err(why) if verbose || is_terminal(rt) => {
            let called = Printable(word.as_bytes());
            let _ = eprintln!(rt;
                "aigmc: bad argument\n  {circuit}: {why} {called}{}",
                Listing(file)
            );
            Err(ExitError::Told)
        }
        Err(_) => Err(ExitError::BadArgument),
    }
}
