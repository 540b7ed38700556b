//! The command `trace`.

use aigmc_files::{
    DONE, ExitError, circuit, is_same, make_waveform, path_of, print_trace, shown_of,
};
use graph::AigerFile;
use inputs::is_standard;

/// Whether the file to make is the one that is read by that name.
fn is_read(rt: &HostRuntime, out: &str, name: &str) -> bool {
    !is_standard(out) && is_same(rt, out, path_of(name))
}

/// The same as `trace` of a circuit that was read.
fn trace_in(
    rt: &HostRuntime,
    file: &AigerFile,
    stimulus: &str,
    all: bool,
    waveform: Option<&str>,
) -> Result<u8, ExitError> {
    let shown = shown_of(rt, stimulus, file.model())?;
    match waveform {
        None => print_trace(rt, file, &shown, all)?,
        Some(out) => make_waveform(rt, out, file, &shown, all)?,
    }
    Ok(DONE)
}

/// Prints the trace of a stimulus, or of a text that leaves values open, by the names of the signals, or makes the file of
/// that name with its waveform, where one is named.
pub fn trace(
    rt: &HostRuntime,
    name: &str,
    stimulus: &str,
    all: bool,
    waveform: Option<&str>,
) -> Result<u8, ExitError> {
    if is_standard(name) && is_standard(stimulus) {
        return Err(ExitError::BadArgument);
    }
    if waveform.is_some_and(|out| is_read(rt, out, name) || is_read(rt, out, stimulus)) {
        return Err(ExitError::Taken);
    }
    let file = circuit(rt, name)?;
    trace_in(rt, &file, stimulus, all, waveform)
}
