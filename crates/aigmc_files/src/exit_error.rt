//! Why a command was not done.

ghost use Rattle.std.specs.Prelude.{◌≡◌, ◌↔◌, Ok, IfOk, IfErr, IsErr, IsTrue};
ghost use Rattle.base.specs.Witness.{witness};
ghost use Rattle.graph.specs.Refusals.{number_of as read_number, place_of as read_place};
ghost use Rattle.invariant.specs.Numbers.{number_of as invariant_number, place_of as invariant_place};
ghost use Rattle.witness.specs.Numbers.{number_of as witness_number, place_of as witness_place};
ghost use Rattle.certify.specs.Numbers.{number_of as certify_number, place_of as certify_place};
ghost use Rattle.certify3.specs.Numbers.{number_of as third_number, place_of as third_place};
ghost use Rattle.live_safe.specs.Causes.{number_of as live_number, place_of as live_place};
ghost use Rattle.transforms.specs.Causes.{number_of as transform_number, place_of as transform_place};
ghost use Rattle.witness_circuits.specs.Causes.{number_of as make_number, place_of as make_place};
ghost use Rattle.witness_pairs.specs.Pairs.{number_of as pair_number, place_of as pair_place};
ghost use Rattle.aigmc_files.specs.ExitErrors.{IsAt, IsOfDevice, IsOfFile, IsOfText};
ghost use Rattle.aigmc_files.specs.declared.command_error.CommandError.TheVariants.{OutOfMemory};
ghost use Rattle.aigmc_files.specs.declared.exit_error.ExitError.TheVariants.{Fault, Refused as IsRefused};

use crate::command_error::CommandError;
use base::Refused;
use certify::CertifyError;
use certify3::CertifyError as ThirdError;
use explanations::word_of;
use graph::{Property, ReadError};
use invariant::InvariantError;
use live_safe::LiveError;
use std::io;
use std::process::ExitCode;
use transforms::TransformError;
use witness::WitnessError;
use witness_circuits::MakeError;
use witness_pairs::PairError;

/// The status of a command that was done.
pub const DONE: u8 = 0;
/// The status of a command that failed.
pub const FAULT: u8 = 3;
/// The number of out of memory.
const OUT_OF_MEMORY: u8 = 20;
/// The number of a device's fault.
pub const DEVICE: u8 = 21;
/// The number of a circuit without a header.
pub const NO_HEADER: u8 = 2;
/// The number of a property that the circuit has not.
pub const NO_PROPERTY: u8 = 30;

/// What a file is to a command.
#[derive(Clone, Copy, PartialEq, Eq)]
pub enum Role {
    /// The circuit that is read.
    Circuit,
    /// The circuit that is read to be compared with it.
    Other,
    /// The stimulus that is read.
    Stimulus,
    /// The clauses that are read.
    Invariant,
    /// What is made: a file, or a folder's files.
    Made,
    /// The map of latches that is made beside it.
    Map,
}

/// The properties that a circuit has.
#[derive(Clone, Copy)]
pub struct Has {
    /// how many bad literals
    pub bad: usize,
    /// how many justice properties
    pub justice: usize,
    /// how many outputs that are taken as bad literals
    pub outputs: usize,
}

/// Why a command was not done.
#[derive(Clone, Copy)]
pub enum ExitError {
    /// A word asks for nothing that there is.
    BadArgument,
    /// The file to make is one that is read, or the one that standard output goes to.
    Taken,
    /// Standard error says why already.
    Told,
    /// There is no memory for the words, or for the system at a file.
    Memory,
    /// A call refused.
    Refused(CommandError),
    /// Another call refused, with this number and place.
    Fault {
        /// the refusal's number
        number: u8,
        /// the refusal's place
        place: u64,
    },
    /// The system refused a file, in this word.
    System(&'static str),
    /// The file of this role was refused.
    At {
        /// which file
        role: Role,
        /// the refusal's number
        number: u8,
        /// the refusal's place
        place: u64,
        /// the system's word, or nothing
        word: &'static str,
    },
    /// The circuit has no such property, but these.
    NoProperty {
        /// the property
        property: Property,
        /// the refusal's place
        place: u64,
        /// the properties that it has
        has: Has,
    },
}

impl From<CommandError> for ExitError {
    ghost from_gives = { λ e s. s ≡ IsRefused e };

    fn from(e: CommandError) -> ExitError {
        ExitError::Refused(e)
    }
}

impl From<Refused> for ExitError {
    ghost from_gives = { λ _ s. s ≡ IsRefused (OutOfMemory witness) };

    fn from(refused: Refused) -> ExitError {
        ExitError::Refused(CommandError::from(refused))
    }
}

impl From<InvariantError> for ExitError {
    ghost from_gives = { λ e s. s ≡ Fault (invariant_number e) (invariant_place e) };

    fn from(e: InvariantError) -> ExitError {
        ExitError::Fault {
            number: e.number(),
            place: e.place(),
        }
    }
}

impl From<WitnessError> for ExitError {
    ghost from_gives = { λ e s. s ≡ Fault (witness_number e) (witness_place e) };

    fn from(e: WitnessError) -> ExitError {
        ExitError::Fault {
            number: e.number(),
            place: e.place(),
        }
    }
}

impl From<CertifyError> for ExitError {
    ghost from_gives = { λ e s. s ≡ Fault (certify_number e) (certify_place e) };

    fn from(e: CertifyError) -> ExitError {
        ExitError::Fault {
            number: e.number(),
            place: e.place(),
        }
    }
}

impl From<ThirdError> for ExitError {
    ghost from_gives = { λ e s. s ≡ Fault (third_number e) (third_place e) };

    fn from(e: ThirdError) -> ExitError {
        ExitError::Fault {
            number: e.number(),
            place: e.place(),
        }
    }
}

impl From<LiveError> for ExitError {
    ghost from_gives = { λ e s. s ≡ Fault (live_number e) (live_place e) };

    fn from(e: LiveError) -> ExitError {
        ExitError::Fault {
            number: e.number(),
            place: e.place(),
        }
    }
}

impl From<TransformError> for ExitError {
    ghost from_gives = { λ e s. s ≡ Fault (transform_number e) (transform_place e) };

    fn from(e: TransformError) -> ExitError {
        ExitError::Fault {
            number: e.number(),
            place: e.place(),
        }
    }
}

impl From<MakeError> for ExitError {
    ghost from_gives = { λ e s. s ≡ Fault (make_number e) (make_place e) };

    fn from(e: MakeError) -> ExitError {
        ExitError::Fault {
            number: e.number(),
            place: e.place(),
        }
    }
}

impl From<PairError> for ExitError {
    ghost from_gives = { λ e s. s ≡ Fault (pair_number e) (pair_place e) };

    fn from(e: PairError) -> ExitError {
        ExitError::Fault {
            number: e.number(),
            place: e.place(),
        }
    }
}

impl From<ReadError> for ExitError {
    ghost from_gives = { λ e s. s ≡ Fault (read_number e) (read_place e) };

    fn from(e: ReadError) -> ExitError {
        ExitError::Fault {
            number: e.number(),
            place: e.place(),
        }
    }
}

/// What a file's call gave, or the fault of a file that was not opened, made or finished.
pub fn finished<T>(given: io::Result<T>) -> Result<T, ExitError> {
    match given {
        Ok(value) => Ok(value),
        Err(error) => Err(match error.kind() {
            io::ErrorKind::OutOfMemory => ExitError::Memory,
            kind => ExitError::System(word_of(kind)),
        }),
    }
}

/// A refusal of the file with this role.
fn refused_at(role: Role, number: u8, place: u64) -> ExitError
    ensures { IsAt role number place result }
{
    ExitError::At {
        role,
        number,
        place,
        word: "",
    }
}

/// Whether a refusal with this number is about what a file has.
fn is_of_text(number: u8) -> bool
    ensures { IsTrue result ↔ IsOfText number }
{
    number != OUT_OF_MEMORY && number != DEVICE
}

impl ExitError {
    /// The same, where it is the system's, as that of the file with this role.
    fn of_device(self, role: Role) -> ExitError
        ensures { IsOfDevice role self result }
    {
        match self {
            ExitError::System(word) => ExitError::At {
                role,
                number: DEVICE,
                place: 0,
                word,
            },
            ExitError::Refused(error) if error.number() == DEVICE => refused_at(role, DEVICE, 0),
            stop => stop,
        }
    }

    /// The same, where it is a refusal of what a file has, as that of the file with this role.
    fn of_text(self, role: Role) -> ExitError
        ensures { IsOfFile role self result }
    {
        match self {
            ExitError::Refused(error) if is_of_text(error.number()) => {
                refused_at(role, error.number(), error.place())
            }
            ExitError::Fault { number, place } if is_of_text(number) => refused_at(
                role, number, place,
            ),
            stop => stop,
        }
    }
}

/// What was given, or a fault of the system at the file with this role.
pub fn at<T>(role: Role, given: Result<T, ExitError>) -> Result<T, ExitError>
    ensures ok { IfOk given (λ x. result ≡ Ok x) }
    ensures refused { IfErr given (λ s. IsErr result × IfErr result (IsOfDevice role s)) }
{
    match given {
        Ok(value) => Ok(value),
        Err(stop) => Err(stop.of_device(role)),
    }
}

/// What was given, or a refusal of what the file with this role has.
pub fn about<T>(role: Role, given: Result<T, ExitError>) -> Result<T, ExitError>
    ensures ok { IfOk given (λ x. result ≡ Ok x) }
    ensures refused { IfErr given (λ s. IsErr result × IfErr result (IsOfFile role s)) }
{
    match given {
        Ok(value) => Ok(value),
        Err(stop) => Err(stop.of_text(role)),
    }
}

/// What was read of the file with this role, or its fault.
pub fn read_of<T>(role: Role, given: Result<T, ExitError>) -> Result<T, ExitError> {
    about(role, at(role, given))
}

/// Tells the number and the place of a refusal, or what stands for them.
fn tell_fault(rt: &HostRuntime, number: u8, place: u64) -> io::Result<()> {
    match number {
        OUT_OF_MEMORY => eprintln!(rt; "aigmc: out of memory"),
        DEVICE => eprintln!(rt; "aigmc: read or write failed"),
        number => eprintln!(rt; "aigmc: fault {number} at {place}"),
    }
}

/// Tells why a command was not done.
pub fn tell(rt: &HostRuntime, stop: ExitError) -> ExitCode {
    let _ = match stop {
        ExitError::BadArgument | ExitError::Taken => eprintln!(rt; "aigmc: bad argument"),
        ExitError::Told => Ok(()),
        ExitError::Memory => eprintln!(rt; "aigmc: out of memory"),
        ExitError::Refused(error) => tell_fault(rt, error.number(), error.place()),
        ExitError::Fault { number, place } => tell_fault(rt, number, place),
        ExitError::System(_) => tell_fault(rt, DEVICE, 0),
        ExitError::At { number, place, .. } => tell_fault(rt, number, place),
        ExitError::NoProperty { place, .. } => tell_fault(rt, NO_PROPERTY, place),
    };
    ExitCode::from(FAULT)
}
