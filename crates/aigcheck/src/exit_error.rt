//! Why there is no answer.

use crate::status::FAULT;
use base::Refused;
use checker::RunError;
use explanations::word_of;
use std::io;
use std::process::ExitCode;

/// What a file is to a command.
#[derive(Clone, Copy, PartialEq, Eq)]
pub enum Role {
    /// The circuit.
    Circuit,
    /// The certificate, the stimulus, or the folder.
    Evidence,
}

/// Why there is no answer.
#[derive(Clone, Copy)]
pub enum ExitError {
    /// Both files are the standard input, or a word names no property.
    BadArgument,
    /// There is no memory for the words, or for the system at a file.
    Memory,
    /// Standard error says why already.
    Told,
    /// The system refused the file of this role, in this word.
    At {
        /// which file
        role: Role,
        /// the system's word
        word: &'static str,
    },
    /// The call that was asked gave none.
    Call(RunError),
}

impl From<RunError> for ExitError {
    fn from(e: RunError) -> ExitError {
        ExitError::Call(e)
    }
}

impl From<Refused> for ExitError {
    fn from(refused: Refused) -> ExitError {
        ExitError::Call(RunError::OutOfMemory(refused))
    }
}

/// What a call of the system gave, or the fault of one that failed.
pub fn given<T>(got: io::Result<T>) -> Result<T, ExitError> {
    match got {
        Ok(value) => Ok(value),
        Err(error) => Err(match error.kind() {
            io::ErrorKind::OutOfMemory => ExitError::Memory,
            _ => ExitError::Call(RunError::Device),
        }),
    }
}

/// The file of this role, or the fault of one that was not opened.
pub fn opened<T>(role: Role, got: io::Result<T>) -> Result<T, ExitError> {
    match got {
        Ok(file) => Ok(file),
        Err(error) => Err(match error.kind() {
            io::ErrorKind::OutOfMemory => ExitError::Memory,
            kind => ExitError::At {
                role,
                word: word_of(kind),
            },
        }),
    }
}

/// Tells a fault, and the status of one.
pub fn fault(rt: &HostRuntime, why: ExitError) -> ExitCode {
    let _ = match why {
        ExitError::BadArgument => eprintln!(rt; "aigcheck: bad argument"),
        ExitError::Memory => eprintln!(rt; "aigcheck: out of memory"),
        ExitError::Told => Ok(()),
        ExitError::At { .. } => eprintln!(rt; "aigcheck: {}", RunError::Device),
        ExitError::Call(error) => eprintln!(rt; "aigcheck: {error}"),
    };
    ExitCode::from(FAULT)
}
