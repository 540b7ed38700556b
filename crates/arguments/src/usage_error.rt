//! What is wrong with the words of a command line.

use clap::Error;
use clap::error::ErrorKind;
use std::alloc::AllocError;
use std::io;

/// Why words ask for nothing that is to be done: they are wrong, or they ask for help.
#[derive(Drop)]
pub struct UsageError {
    error: Error,
}

impl From<Error> for UsageError {
    fn from(error: Error) -> UsageError {
        UsageError { error }
    }
}

impl From<AllocError> for UsageError {
    fn from(e: AllocError) -> UsageError {
        UsageError {
            error: Error::from(e),
        }
    }
}

impl UsageError {
    /// Whether memory ran out.
    pub fn is_out_of_memory(&self) -> bool {
        self.error.kind() == ErrorKind::OutOfMemory
    }

    /// Whether help was asked for.
    pub fn is_help(&self) -> bool {
        self.error.exit_code() == 0
    }

    /// Prints the help to the output, or what is wrong to the error output.
    pub fn print(&self, rt: &HostRuntime) -> io::Result<()> {
        self.error.print(rt)
    }
}
