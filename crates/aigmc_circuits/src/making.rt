//! The commands `to-safety` and `extract`: circuits that are made of one.

use aiger::Layout;
use aigmc_files::{
    DONE, ExitError, Fitted, Role, about, asked_for, circuit, fault_of, is_same, make, path_of,
    property_in,
};
use arguments::{Extraction, Shadow};
use graph::{AigerFile, Property};
use property_names::Asked;
use std::alloc::Global;
use transforms::{extracted, rounds_file, shadow_file};

/// Makes the file of that name, in its layout.
pub fn make_fitting(
    rt: &HostRuntime,
    out: &str,
    file: AigerFile,
    layout: Layout,
) -> Result<(), ExitError> {
    let fitted = Fitted::of(rt.alloc(), file, layout)?;
    make(rt, out, &fitted.file, layout)
}

/// Whether a justice property may be asked for.
fn is_of_justice(asked: Asked<'_>) -> bool {
    matches!(
        asked,
        Asked::Property(Property::Justice(_)) | Asked::Symbol(_)
    )
}

/// The shadow circuit of the justice property at the position, or the one that counts so many rounds of it.
fn safety_file(
    alloc: Global,
    file: &AigerFile,
    position: u32,
    rounds: Option<u32>,
) -> Result<AigerFile, ExitError> {
    let made = match rounds {
        Some(rounds) => rounds_file(alloc, file, position, rounds),
        None => shadow_file(alloc, file, position),
    };
    about(Role::Circuit, made.map_err(ExitError::from))
}

/// What is asked for of the circuit.
fn shadow_in(
    rt: &HostRuntime,
    asked: Shadow<'_>,
    word: Asked<'_>,
    file: &AigerFile,
) -> Result<AigerFile, ExitError> {
    match property_in(rt, asked.file, file, word, asked.verbose)? {
        Property::Justice(position) => safety_file(rt.alloc(), file, position, asked.rounds),
        _ => Err(ExitError::BadArgument),
    }
}

/// What is asked for of the circuit in the file that is named.
fn shadow_of(rt: &HostRuntime, asked: Shadow<'_>, word: Asked<'_>) -> Result<AigerFile, ExitError> {
    let file = circuit(rt, asked.file)?;
    shadow_in(rt, asked, word, &file)
}

/// Makes the file of that name with the shadow circuit of a justice property, or with the one that counts its rounds.
pub fn make_shadow(rt: &HostRuntime, asked: Shadow<'_>) -> Result<u8, ExitError> {
    let word = asked_for(asked.property)?;
    let out = asked.out;
    let layout = Layout::of_name(out).ok_or(ExitError::BadArgument)?;
    if !is_of_justice(word) {
        return Err(ExitError::BadArgument);
    }
    if is_same(rt, out, path_of(asked.file)) {
        return Err(ExitError::Taken);
    }
    let made = shadow_of(rt, asked, word)?;
    make_fitting(rt, out, made, layout)?;
    Ok(DONE)
}

/// The circuit of a property, or the fault with the properties that there are.
fn part_of(alloc: Global, file: &AigerFile, property: Property) -> Result<AigerFile, ExitError> {
    let part = extracted(alloc, file, property).map_err(ExitError::from);
    match about(Role::Circuit, part) {
        Err(stop) => Err(fault_of(alloc, file.model(), property, stop)),
        part => part,
    }
}

/// The circuit of the property that is asked for, which is no justice property.
fn part_asked(
    rt: &HostRuntime,
    asked: Extraction<'_>,
    word: Asked<'_>,
    file: &AigerFile,
) -> Result<AigerFile, ExitError> {
    match property_in(rt, asked.file, file, word, asked.verbose)? {
        Property::Justice(_) => Err(ExitError::BadArgument),
        property => part_of(rt.alloc(), file, property),
    }
}

/// The same of the circuit in the file that is named.
fn part_in(
    rt: &HostRuntime,
    asked: Extraction<'_>,
    word: Asked<'_>,
) -> Result<AigerFile, ExitError> {
    let file = circuit(rt, asked.file)?;
    part_asked(rt, asked, word, &file)
}

/// Makes the file of that name with the circuit of a property, which is no justice property.
pub fn extract(rt: &HostRuntime, asked: Extraction<'_>) -> Result<u8, ExitError> {
    let word = asked_for(asked.property)?;
    let out = asked.out;
    let layout = Layout::of_name(out).ok_or(ExitError::BadArgument)?;
    if matches!(word, Asked::Property(Property::Justice(_))) {
        return Err(ExitError::BadArgument);
    }
    if is_same(rt, out, path_of(asked.file)) {
        return Err(ExitError::Taken);
    }
    let part = part_in(rt, asked, word)?;
    make_fitting(rt, out, part, layout)?;
    Ok(DONE)
}
