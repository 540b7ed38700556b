//! The second line of a fault: which file it is about, and why.

use aigmc_files::{DEVICE, ExitError, Has, NO_HEADER, Role, is_terminal};
use arguments::{Asked, Request};
use base::{FromRead, read_to_end};
use explanations::{is_at_byte, meaning, other_format, position_behind};
use graph::Property;
use inputs::{is_standard, open};
use std::fs;
use std::io::Read;

/// The name of the file with this role, where the command has one.
fn name_of<'a>(request: Request<'a>, role: Role) -> Option<&'a str> {
    match (request, role) {
        (Request::Convert { file, .. }, Role::Circuit) => Some(file),
        (Request::Convert { out, .. }, Role::Made) => Some(out),
        (Request::Sim { file, .. }, Role::Circuit) => Some(file),
        (Request::Sim { stimulus, .. }, Role::Stimulus) => Some(stimulus),
        (Request::Trace { file, .. }, Role::Circuit) => Some(file),
        (Request::Trace { stimulus, .. }, Role::Stimulus) => Some(stimulus),
        (Request::Trace { waveform, .. }, Role::Made) => waveform,
        (Request::Check { file, .. }, Role::Circuit) => Some(file),
        (Request::Check { kept, .. }, Role::Made) => kept.name(),
        (Request::All { file, .. }, Role::Circuit) => Some(file),
        (Request::All { folder, .. }, Role::Made) => folder,
        (Request::Equal { file, .. }, Role::Circuit) => Some(file),
        (Request::Equal { other, .. }, Role::Other) => Some(other),
        (Request::Equal { folder, .. }, Role::Made) => folder,
        (Request::Equal { map, .. }, Role::Map) => map,
        (Request::Cover { file, .. }, Role::Circuit) => Some(file),
        (Request::Certify(asked), Role::Circuit) => Some(asked.file),
        (Request::Certify(asked), Role::Invariant) => Some(asked.invariant),
        (Request::Certify(asked), Role::Other) => asked.extension,
        (Request::Certify(asked), Role::Made) => Some(asked.certificate),
        (Request::Recertify(asked), Role::Circuit) => Some(asked.file),
        (Request::Recertify(asked), Role::Invariant) => Some(asked.certificate),
        (Request::Recertify(asked), Role::Made) => Some(asked.out),
        (Request::Witness(asked), Role::Circuit) => Some(asked.file),
        (Request::Witness(asked), Role::Stimulus) => Some(asked.stimulus),
        (Request::Witness(asked), Role::Made) => Some(asked.out),
        (Request::Extract(asked), Role::Circuit) => Some(asked.file),
        (Request::Extract(asked), Role::Made) => Some(asked.out),
        (Request::ToSafety(asked), Role::Circuit) => Some(asked.file),
        (Request::ToSafety(asked), Role::Made) => Some(asked.out),
        (Request::AdoptWitness(asked), Role::Circuit) => Some(asked.file),
        (Request::AdoptWitness(asked), Role::Other) => Some(asked.witness),
        (Request::AdoptWitness(asked), Role::Made) => Some(asked.out),
        (Request::ToWitness(asked), Role::Circuit) => Some(asked.file),
        (Request::ToWitness(asked), Role::Invariant) => Some(asked.certificate),
        (Request::ToWitness(asked), Role::Made) => Some(asked.out),
        _ => None,
    }
}

/// Says which properties of a kind a circuit has, where it has some.
fn tell_kind(rt: &HostRuntime, one: &str, more: &str, letter: char, count: usize) {
    let _ = match count {
        0 => Ok(()),
        1 => eprint!(rt; "; its {one} is {letter}0"),
        _ => eprint!(rt;
            "; its {more} are {letter}0 to {letter}{}",
            count.saturating_sub(1)
        ),
    };
}

/// Says which property a circuit has not, and which it has.
fn tell_properties(rt: &HostRuntime, name: &str, property: Property, has: Has) {
    let (kind, number) = match property {
        Property::Bad(number) => ("bad literal", number),
        Property::Justice(number) => ("justice property", number),
        Property::Output(number) => ("output as a property", number),
    };
    let _ = eprint!(rt; "  {name}: there is no {kind} {number}");
    tell_kind(rt, "bad literal", "bad literals", 'b', has.bad);
    tell_kind(
        rt,
        "justice property",
        "justice properties",
        'j',
        has.justice,
    );
    tell_kind(rt, "output", "outputs", 'o', has.outputs);
    let _ = eprintln!(rt);
}

/// The text of the file of this name as far as the byte, where it can be read again.
fn text_again(rt: &HostRuntime, name: &str, byte: u64) -> Option<Vec<u8>> {
    if is_standard(name) || !fs::metadata(rt, name).ok()?.is_file() {
        return None;
    }
    let file = open(rt, name).ok()?;
    read_to_end(rt.alloc(), &mut FromRead::new(file.take(byte))).ok()
}

/// How much of a text is looked at to know its format.
const BEGINNING: u64 = 4096;

/// What the file of this name is that has no header, where it is one of another format.
fn format_of(rt: &HostRuntime, name: &str) -> Option<&'static str> {
    other_format(text_again(rt, name, BEGINNING)?.as_slice())
}

/// Says at which line and column of an ASCII text a byte is, and which byte of a binary circuit.
fn tell_place(rt: &HostRuntime, name: &str, place: u64) {
    let Some(text) = text_again(rt, name, place) else {
        return;
    };
    let _ = if text.as_slice().starts_with(b"aig ") {
        eprint!(rt; " (byte {place})")
    } else {
        let position = position_behind(text.as_slice());
        eprint!(rt; " (line {}, column {})", position.line, position.column)
    };
}

/// Whether the name is of a folder.
fn is_folder(rt: &HostRuntime, name: &str) -> bool {
    match fs::metadata(rt, name) {
        Ok(found) => found.is_dir(),
        Err(_) => false,
    }
}

/// The word for a refusal that says more than what its number means, or nothing.
fn word_for(rt: &HostRuntime, name: &str, number: u8) -> &'static str {
    match number {
        DEVICE if is_folder(rt, name) => "it is a folder",
        NO_HEADER => format_of(rt, name).unwrap_or(""),
        _ => "",
    }
}

/// Says why the file of this name was refused, and where.
fn tell_file(rt: &HostRuntime, name: &str, number: u8, place: u64, word: &str) {
    let word = if word.is_empty() {
        word_for(rt, name, number)
    } else {
        word
    };
    if !word.is_empty() {
        let _ = eprintln!(rt; "  {name}: {word}");
        return;
    }
    let _ = eprint!(rt; "  {name}: {}", meaning(number));
    if is_at_byte(number, place) {
        tell_place(rt, name, place);
    }
    let _ = eprintln!(rt);
}

/// Says which file a fault is about, and why, where that is asked for or standard error is a terminal.
pub fn tell_detail(rt: &HostRuntime, asked: Asked<'_>, stop: ExitError) {
    let request = asked.request;
    if !asked.verbose && !is_terminal(rt) {
        return;
    }
    match stop {
        ExitError::NoProperty { property, has, .. } => {
            if let Some(name) = name_of(request, Role::Circuit) {
                tell_properties(rt, name, property, has);
            }
        }
        ExitError::At {
            role,
            number,
            place,
            word,
        } => {
            if let Some(name) = name_of(request, role) {
                tell_file(rt, name, number, place, word);
            }
        }
        ExitError::Taken => {
            if let Some(name) = name_of(request, Role::Made) {
                let _ = eprintln!(rt; "  {name}: it is read, or standard output goes to it");
            }
        }
        _ => {}
    }
}
