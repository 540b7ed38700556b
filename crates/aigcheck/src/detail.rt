//! What standard error says beside the line of an answer or a fault.

use crate::exit_error::{ExitError, Role, given};
use crate::judging::Names;
use checker::RunError;
use explanations::{Printable, is_at_byte, meaning, other_format, position_behind};
use graph::{AigerFile, Property, ReadError};
use property_names::{Called, Listing, NameError, symbol_of};
use std::io::Write;
use std::{fs, io};

/// How much of a text is looked at to know its format.
const BEGINNING: usize = 4096;

/// The beginning of a text with so many bytes at most.
fn beginning(text: &[u8], length: usize) -> &[u8] {
    text.get(..length).unwrap_or(text)
}

/// The number of a no by its line.
pub fn number_of(line: &[u8]) -> Option<u8> {
    match line {
        [b'n', b'o', b' ', digits @ .., b'\n'] => str::from_utf8(digits).ok()?.parse::<u8>().ok(),
        _ => None,
    }
}

/// Puts the line of an answer. Where it is a no, standard error says what its number means of the file of this name,
/// if that is asked for.
pub fn put_line(rt: &HostRuntime, line: &[u8], name: &str, verbose: bool) -> Result<(), ExitError> {
    given(io::writer(rt).write_all(line))?;
    if verbose {
        tell_meaning(rt, line, name);
    }
    Ok(())
}

/// Says what the number of a no means of the file of this name, where the line is one.
pub fn tell_meaning(rt: &HostRuntime, line: &[u8], name: &str) {
    if let Some(number) = number_of(line) {
        let _ = eprintln!(rt; "  {name}: {}", meaning(number));
    }
}

/// Says why a text is no circuit, and where.
pub fn tell_circuit(rt: &HostRuntime, name: &str, text: &[u8], error: ReadError) {
    let number = error.number();
    let known = match error {
        ReadError::Header(_) => other_format(beginning(text, BEGINNING)),
        _ => None,
    };
    if let Some(word) = known {
        let _ = eprintln!(rt; "  {name}: {word}");
        return;
    }
    let _ = eprint!(rt; "  {name}: {}", meaning(number));
    if is_at_byte(number, error.place()) {
        tell_place(rt, text, error.place());
    }
    let _ = eprintln!(rt);
}

/// Says at which line and column of an ASCII circuit a byte is, and which byte of a binary one.
fn tell_place(rt: &HostRuntime, text: &[u8], place: u64) {
    let Ok(byte) = usize::try_from(place) else {
        return;
    };
    let _ = if text.starts_with(b"aig ") {
        eprint!(rt; " (byte {byte})")
    } else {
        let position = position_behind(beginning(text, byte));
        eprint!(rt; " (line {}, column {})", position.line, position.column)
    };
}

/// Says why a name is of no property, and which names there are.
pub fn tell_unnamed(rt: &HostRuntime, circuit: &str, file: &AigerFile, word: &str, why: NameError) {
    let called = Printable(word.as_bytes());
    let _ = eprintln!(rt; "  {circuit}: {why} {called}{}", Listing(file));
}

/// Says what a property is called, where the circuit has a name for it.
pub fn tell_symbol(rt: &HostRuntime, file: &AigerFile, property: Property) {
    if let Some(symbol) = symbol_of(file, property) {
        let _ = eprintln!(rt; "  {}", Called { symbol, property });
    }
}

/// Whether the name is of a folder.
fn is_folder(rt: &HostRuntime, name: &str) -> bool {
    match fs::metadata(rt, name) {
        Ok(found) => found.is_dir(),
        Err(_) => false,
    }
}

/// Says which file a fault is about, and why, where that is known.
pub fn tell_file(rt: &HostRuntime, names: Names<'_>, why: ExitError) {
    let _ = match why {
        ExitError::At {
            role: Role::Circuit,
            word,
        } => eprintln!(rt; "  {}: {word}", names.circuit),
        ExitError::At {
            role: Role::Evidence,
            word,
        } => eprintln!(rt; "  {}: {word}", names.evidence),
        ExitError::Call(RunError::Device) if is_folder(rt, names.circuit) => {
            eprintln!(rt; "  {}: it is a folder", names.circuit)
        }
        ExitError::Call(RunError::Device) if is_folder(rt, names.evidence) => {
            eprintln!(rt; "  {}: it is a folder", names.evidence)
        }
        _ => Ok(()),
    };
}
