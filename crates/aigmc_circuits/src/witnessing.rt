//! The command `witness`: a counterexample of another tool becomes a strict stimulus.

use aigmc_files::{
    DONE, ExitError, Role, about, asked_for, circuit, finished, is_taken, make_bytes,
    make_stimulus, property_in, read_of, read_text,
};
use arguments::Counterexample;
use graph::{AigerFile, Model, Property};
use inputs::is_standard;
use property_names::{Asked, Name};
use stimulus::Stimulus;
use witness::{Loose, WitnessError, asked_of, clear, strict, text_of};

/// The status of a counterexample of which no choice shows a violation.
const NOT_SHOWN: u8 = 1;

/// What is chosen, where something is.
fn chosen<'a>(asked: Counterexample<'a>) -> Result<Option<Asked<'a>>, ExitError> {
    match asked.property {
        Some(word) => Ok(Some(asked_for(word)?)),
        None => Ok(None),
    }
}

/// The property that is chosen, where one is.
fn chosen_in(
    rt: &HostRuntime,
    asked: Counterexample<'_>,
    file: &AigerFile,
    chosen: Option<Asked<'_>>,
) -> Result<Option<Property>, ExitError> {
    match chosen {
        Some(word) => Ok(Some(property_in(rt, asked.file, file, word, asked.verbose)?)),
        None => Ok(None),
    }
}

/// What the file of this name says.
fn read_loose(rt: &HostRuntime, name: &str, circuit: &Model) -> Result<Loose, ExitError> {
    let text = read_text(rt, name)?;
    let loose = witness::read(rt.alloc(), circuit, text.as_slice())?;
    Ok(loose)
}

/// Makes the file of what the stimulus's violation rests on.
fn make_cleared(
    rt: &HostRuntime,
    out: &str,
    circuit: &Model,
    shown: &Stimulus,
) -> Result<(), ExitError> {
    match clear(rt.alloc(), circuit, shown)? {
        Some(cleared) => {
            let text = text_of(rt.alloc(), &cleared)?;
            make_bytes(rt, out, &text)
        }
        None => make_stimulus(rt, out, shown),
    }
}

/// Makes the file that is asked for, and says which property is violated.
fn keep_shown(
    rt: &HostRuntime,
    asked: Counterexample<'_>,
    circuit: &Model,
    shown: &Stimulus,
) -> Result<u8, ExitError> {
    if asked.clear {
        make_cleared(rt, asked.out, circuit, shown)?;
    } else {
        make_stimulus(rt, asked.out, shown)?;
    }
    // the file is there: nothing takes memory any more
    finished(println!(rt; "yes run {}", Name(shown.property())))?;
    Ok(DONE)
}

/// Makes the stimulus of what was read. Where no choice shows a violation, standard error says why the last was refused.
fn witnessed(
    rt: &HostRuntime,
    asked: Counterexample<'_>,
    file: &AigerFile,
    loose: &Loose,
    property: Option<Property>,
) -> Result<u8, ExitError> {
    let properties = asked_of(rt.alloc(), file.model(), loose, property)?;
    match strict(rt.alloc(), file.model(), loose, &properties) {
        Ok(shown) => keep_shown(rt, asked, file.model(), &shown),
        Err(WitnessError::NotShown(error)) => {
            let _ = eprintln!(rt;
                "aigmc: no choice of what doesn't matter shows a violation: no {}",
                error.number()
            );
            Ok(NOT_SHOWN)
        }
        Err(error) => Err(ExitError::from(error)),
    }
}

/// Makes the stimulus of the counterexample in the file that is named, of the circuit.
fn witnessed_of(
    rt: &HostRuntime,
    asked: Counterexample<'_>,
    file: &AigerFile,
    property: Option<Property>,
) -> Result<u8, ExitError> {
    let read = read_loose(rt, asked.stimulus, file.model());
    let loose = read_of(Role::Stimulus, read)?;
    witnessed(rt, asked, file, &loose, property)
}

/// The same of the property that is chosen, where one is.
fn witnessed_in(
    rt: &HostRuntime,
    asked: Counterexample<'_>,
    file: &AigerFile,
    word: Option<Asked<'_>>,
) -> Result<u8, ExitError> {
    let property = chosen_in(rt, asked, file, word)?;
    witnessed_of(rt, asked, file, property)
}

/// Makes the file of that name with the strict stimulus of a counterexample.
pub fn make_witness(rt: &HostRuntime, asked: Counterexample<'_>) -> Result<u8, ExitError> {
    let word = chosen(asked)?;
    let (circuit_name, name) = (asked.file, asked.stimulus);
    if is_standard(circuit_name) && is_standard(name) {
        return Err(ExitError::BadArgument);
    }
    if is_taken(rt, circuit_name, asked.out) || is_taken(rt, name, asked.out) {
        return Err(ExitError::Taken);
    }
    let file = circuit(rt, circuit_name)?;
    witnessed_in(rt, asked, &file, word)
}
