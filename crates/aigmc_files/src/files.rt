//! The files that commands read and make.

ghost use Rattle.std.specs.Prelude.{◌≡◌, ◌≢◌, IfOk, Ok, codes};
ghost use Rattle.verdict.specs.Verdicts.{status_of as wanted_status};

use crate::command_error::CommandError;
use crate::exit_error::{DONE, ExitError, Role, about, at, finished, read_of};
use crate::fitted::EvidenceFile;
use crate::making::{Making, is_same};
use aiger::{Layout, load, put_file};
use base::{FromRead, ReadAllError, Refused, Seq, ToWrite, buffered, read_all};
use graph::{AigerFile, LONGEST_TEXT, Model, Property};
use inputs::{is_standard, open};
use property_names::Name;
use std::fs::File;
use std::io;
use std::io::{BufWriter, Write};
use stimulus::{Stimulus, put_table};
use trace::{put_open_trace, put_open_vcd, put_trace, put_vcd};
use verdict::{Verdict, show};
use witness::{Loose, WitnessError};

/// The status of a violation.
pub const VIOLATED: u8 = 1;
/// The status where nothing is known.
pub const UNKNOWN: u8 = 2;
/// How many bytes a stimulus or clauses may have.
const MOST: usize = 1_073_741_824;
/// The number of a text that is too long.
const TOO_LONG: u8 = 1;

/// What the system calls the file that is read by this name.
pub fn path_of(name: &str) -> &str
    ensures standard { name.now ≡ codes "-" → result.now ≡ codes "/dev/stdin" }
    ensures other { name.now ≢ codes "-" → result.now ≡ name.now }
{
    if is_standard(name) {
        "/dev/stdin"
    } else {
        name
    }
}

/// Whether a file for evidence would be the circuit's, or the one that standard output goes to.
pub fn is_taken(rt: &HostRuntime, circuit: &str, out: &str) -> bool {
    is_standard(out) || is_same(rt, out, path_of(circuit)) || is_same(rt, out, "/dev/stdout")
}

/// The text of at most so many bytes in the file of this name, read whole.
fn text_within(rt: &HostRuntime, name: &str, most: usize) -> Result<Vec<u8>, ExitError> {
    let file = finished(open(rt, name))?;
    match read_all(rt.alloc(), &mut FromRead::new(file), most) {
        Ok(text) => Ok(text),
        Err(ReadAllError::OutOfMemory(refused)) => Err(ExitError::from(refused)),
        Err(ReadAllError::Device) => Err(ExitError::Refused(CommandError::Device)),
        Err(ReadAllError::TooLong) => Err(ExitError::Fault {
            number: TOO_LONG,
            place: most as u64,
        }),
    }
}

/// The text of the file of this name, read whole: a stimulus, or clauses.
pub fn read_text(rt: &HostRuntime, name: &str) -> Result<Vec<u8>, ExitError> {
    text_within(rt, name, MOST)
}

/// The text of the circuit's file of this name and role.
pub fn circuit_text(rt: &HostRuntime, name: &str, role: Role) -> Result<Vec<u8>, ExitError> {
    read_of(role, text_within(rt, name, LONGEST_TEXT))
}

/// The circuit that the file of this name spells.
fn read_circuit(rt: &HostRuntime, name: &str) -> Result<AigerFile, ExitError> {
    let file = finished(open(rt, name))?;
    let file = load(rt.alloc(), &mut FromRead::new(file)).map_err(CommandError::Load)?;
    Ok(file)
}

/// The circuit in the file of this name and role.
pub fn circuit_of(rt: &HostRuntime, name: &str, role: Role) -> Result<AigerFile, ExitError> {
    read_of(role, read_circuit(rt, name))
}

/// The circuit's file of this name.
pub fn circuit(rt: &HostRuntime, name: &str) -> Result<AigerFile, ExitError> {
    circuit_of(rt, name, Role::Circuit)
}

/// The stimulus that the file of this name spells.
fn read_stimulus(rt: &HostRuntime, name: &str) -> Result<Stimulus, ExitError> {
    let text = read_text(rt, name)?;
    let stimulus = stimulus::read(rt.alloc(), text.as_slice()).map_err(CommandError::Stimulus)?;
    Ok(stimulus)
}

/// The stimulus in the file of this name.
pub fn stimulus_of(rt: &HostRuntime, name: &str) -> Result<Stimulus, ExitError> {
    read_of(Role::Stimulus, read_stimulus(rt, name))
}

/// What a trace shows.
#[derive(Drop)]
pub enum Shown {
    /// The replay of a stimulus.
    Whole(Stimulus),
    /// What is known of all replays of a text that leaves values open.
    Open(Loose),
}

/// Whether a value of the row is open.
fn is_open(row: &[Option<bool>]) -> bool {
    row.iter().any(|value| value.is_none())
}

/// Whether a value of the rows is open.
fn has_open(rows: &[Seq<Option<bool>>]) -> bool {
    rows.iter().any(|row| is_open(row.as_slice()))
}

/// What a text says that leaves values open, and that has one property and a first state.
fn open_of(rt: &HostRuntime, circuit: &Model, text: &[u8]) -> Result<Option<Loose>, Refused> {
    let loose = match witness::read(rt.alloc(), circuit, text) {
        Ok(loose) => loose,
        Err(WitnessError::OutOfMemory(refused)) => return Err(refused),
        Err(_) => return Ok(None),
    };
    if loose.has_state && loose.properties.len() == 1 && has_open(loose.rows.as_slice()) {
        return Ok(Some(loose));
    }
    Ok(None)
}

/// What a trace shows of the file of this name. The refusal of a text is that of a stimulus.
fn read_shown(rt: &HostRuntime, name: &str, circuit: &Model) -> Result<Shown, ExitError> {
    let text = read_text(rt, name)?;
    match stimulus::read(rt.alloc(), text.as_slice()) {
        Ok(stimulus) => Ok(Shown::Whole(stimulus)),
        Err(error) => match open_of(rt, circuit, text.as_slice())? {
            Some(loose) => Ok(Shown::Open(loose)),
            None => Err(ExitError::from(CommandError::Stimulus(error))),
        },
    }
}

/// What a trace shows of the file of this name.
pub fn shown_of(rt: &HostRuntime, name: &str, circuit: &Model) -> Result<Shown, ExitError> {
    read_of(Role::Stimulus, read_shown(rt, name, circuit))
}

/// The first state and the inputs at each time.
fn parts_of(loose: &Loose) -> (&[Option<bool>], &[Seq<Option<bool>>]) {
    match loose.rows.as_slice() {
        [] => (&[], &[]),
        [initial, inputs @ ..] => (initial.as_slice(), inputs),
    }
}

/// What a call put to the buffered writer, once all of it stands with the device. After a failure nothing
/// more is written: what the buffer still has is dropped.
fn settled<W: Write + Drop, T: Drop>(
    out: ToWrite<BufWriter<W>>,
    put: Result<T, ExitError>,
) -> Result<T, ExitError>
    ensures { IfOk result (λ value. put ≡ Ok value) }
{
    let mut out = out.into_inner();
    let settled = match put {
        Ok(value) => finished(out.flush()).map(|()| value),
        Err(stop) => Err(stop),
    };
    if settled.is_err() {
        let _ = out.into_parts();
    }
    settled
}

/// Writes the circuit's text.
fn write_circuit<W: Write + Drop>(
    rt: &HostRuntime,
    out: W,
    file: &AigerFile,
    layout: Layout,
) -> Result<(), ExitError> {
    let out = buffered(rt.alloc(), out)?;
    let mut out = ToWrite::new(out);
    let put = put_file(file, layout, &mut out).map_err(CommandError::from);
    settled(out, put.map_err(ExitError::from))
}

/// Makes the file of this name with the circuit's text.
pub fn make(
    rt: &HostRuntime,
    name: &str,
    file: &AigerFile,
    layout: Layout,
) -> Result<(), ExitError> {
    if is_standard(name) {
        return write_circuit(rt, io::writer(rt), file, layout);
    }
    let (making, out) = at(Role::Made, Making::begin(rt, name))?;
    let written = write_circuit(rt, out, file, layout);
    at(Role::Made, making.end(rt, written))
}

/// Writes a verdict's evidence to the file: the certificate, or what is printed.
fn write_evidence(
    rt: &HostRuntime,
    out: File,
    property: Property,
    verdict: &Verdict,
) -> Result<(), ExitError> {
    let out = buffered(rt.alloc(), out)?;
    let mut out = ToWrite::new(out);
    let put = match verdict {
        Verdict::Safe(certificate) => certificate::write(certificate, &mut out).map_err(
            CommandError::from,
        ),
        _ => show(property, verdict, &mut out)
            .map(|_| ())
            .map_err(CommandError::from),
    };
    settled(out, put.map_err(ExitError::from))
}

/// Makes the file with a verdict's evidence, or with the witness circuit that it is to get.
pub fn keep(
    rt: &HostRuntime,
    to: EvidenceFile<'_>,
    property: Property,
    verdict: &Verdict,
) -> Result<(), ExitError> {
    if let Some(witness) = to.witness {
        return make(rt, to.name, &witness.file, witness.layout);
    }
    let (making, out) = at(Role::Made, Making::begin(rt, to.name))?;
    let written = write_evidence(rt, out, property, verdict);
    at(Role::Made, making.end(rt, written))
}

/// Writes the stimulus's text.
fn write_stimulus<W: Write + Drop>(
    rt: &HostRuntime,
    out: W,
    shown: &Stimulus,
) -> Result<(), ExitError> {
    let out = buffered(rt.alloc(), out)?;
    let mut out = ToWrite::new(out);
    let put = stimulus::write(shown, &mut out).map_err(|_| CommandError::Device);
    settled(out, put.map_err(ExitError::from))
}

/// Prints the stimulus's text.
pub fn print_stimulus(rt: &HostRuntime, shown: &Stimulus) -> Result<(), ExitError> {
    write_stimulus(rt, io::writer(rt), shown)
}

/// Makes the file of this name with the stimulus's text.
pub fn make_stimulus(rt: &HostRuntime, name: &str, shown: &Stimulus) -> Result<(), ExitError> {
    let (making, out) = at(Role::Made, Making::begin(rt, name))?;
    let written = write_stimulus(rt, out, shown);
    at(Role::Made, making.end(rt, written))
}

/// Makes the file of this name, with this role, with these bytes.
fn make_as(rt: &HostRuntime, role: Role, name: &str, bytes: &[u8]) -> Result<(), ExitError> {
    let (making, mut out) = at(role, Making::begin(rt, name))?;
    let written = finished(out.write_all(bytes));
    at(role, making.end(rt, written))
}

/// Makes the file of this name with these bytes.
pub fn make_bytes(rt: &HostRuntime, name: &str, bytes: &[u8]) -> Result<(), ExitError> {
    make_as(rt, Role::Made, name, bytes)
}

/// Makes the file of a map of latches with these bytes.
pub fn make_map(rt: &HostRuntime, name: &str, bytes: &[u8]) -> Result<(), ExitError> {
    make_as(rt, Role::Map, name, bytes)
}

/// Prints the values in the replay of a stimulus.
pub fn print_table(
    rt: &HostRuntime,
    file: &AigerFile,
    stimulus: &Stimulus,
) -> Result<(), ExitError> {
    let out = buffered(rt.alloc(), io::writer(rt))?;
    let mut out = ToWrite::new(out);
    let put = put_table(rt.alloc(), file.model(), stimulus, &mut out).map_err(CommandError::from);
    settled(out, about(Role::Stimulus, put.map_err(ExitError::from)))
}

/// Prints a trace by the names of the signals.
pub fn print_trace(
    rt: &HostRuntime,
    file: &AigerFile,
    shown: &Shown,
    all: bool,
) -> Result<(), ExitError> {
    let out = buffered(rt.alloc(), io::writer(rt))?;
    let mut out = ToWrite::new(out);
    let put = match shown {
        Shown::Whole(stimulus) => put_trace(rt.alloc(), file, stimulus, all, &mut out),
        Shown::Open(loose) => {
            let (initial, inputs) = parts_of(loose);
            put_open_trace(rt.alloc(), file, initial, inputs, all, &mut out)
        }
    };
    let put = put.map_err(CommandError::from);
    settled(out, about(Role::Stimulus, put.map_err(ExitError::from)))
}

/// Writes the waveform of a trace.
fn write_waveform<W: Write + Drop>(
    rt: &HostRuntime,
    out: W,
    file: &AigerFile,
    shown: &Shown,
    all: bool,
) -> Result<(), ExitError> {
    let out = buffered(rt.alloc(), out)?;
    let mut out = ToWrite::new(out);
    let put = match shown {
        Shown::Whole(stimulus) => put_vcd(rt.alloc(), file, stimulus, all, &mut out),
        Shown::Open(loose) => {
            let (initial, inputs) = parts_of(loose);
            put_open_vcd(rt.alloc(), file, initial, inputs, all, &mut out)
        }
    };
    let put = put.map_err(CommandError::from);
    settled(out, about(Role::Stimulus, put.map_err(ExitError::from)))
}

/// Makes the file of this name with the waveform of a trace.
pub fn make_waveform(
    rt: &HostRuntime,
    name: &str,
    file: &AigerFile,
    shown: &Shown,
    all: bool,
) -> Result<(), ExitError> {
    if is_standard(name) {
        return write_waveform(rt, io::writer(rt), file, shown, all);
    }
    let (making, out) = at(Role::Made, Making::begin(rt, name))?;
    let written = write_waveform(rt, out, file, shown, all);
    at(Role::Made, making.end(rt, written))
}

/// The status of a verdict.
pub fn status_of(verdict: &Verdict) -> u8
    ensures { result ≡ wanted_status verdict.now }
{
    match verdict {
        Verdict::Safe(_) => DONE,
        Verdict::Unsafe(_) => VIOLATED,
        Verdict::Unknown(_) => UNKNOWN,
    }
}

/// Prints a verdict, and answers its status. Its evidence goes to the file first, where there is to be one. Once there is
/// that file, nothing takes memory.
pub fn keep_and_print(
    rt: &HostRuntime,
    to: Option<EvidenceFile<'_>>,
    property: Property,
    verdict: &Verdict,
) -> Result<u8, ExitError>
    ensures { IfOk result (λ status. status ≡ wanted_status verdict.now) }
{
    let out = buffered(rt.alloc(), io::writer(rt))?;
    let mut out = ToWrite::new(out);
    let kept = match to {
        Some(to) => keep(rt, to, property, verdict),
        None => Ok(()),
    };
    let put = match kept {
        Ok(()) => show(property, verdict, &mut out).map_err(|_| ExitError::Refused(
            CommandError::Device,
        )),
        Err(stop) => Err(stop),
    };
    settled(out, put)
}

/// Prints a verdict without a run, and answers its status. It takes no memory.
pub fn print_alone(rt: &HostRuntime, property: Property, verdict: &Verdict) -> Result<u8, ExitError>
    ensures { IfOk result (λ status. status ≡ wanted_status verdict.now) }
{
    print_status(rt, property, status_of(verdict))
}

/// Prints the status of a property without a run, and answers it. It takes no memory.
pub fn print_status(rt: &HostRuntime, property: Property, status: u8) -> Result<u8, ExitError>
    ensures { IfOk result (λ printed. printed ≡ status) }
{
    finished(println!(rt; "{status}\n{}\n.", Name(property)))?;
    Ok(status)
}
