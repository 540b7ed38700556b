//! Why nothing is answered.

ghost use Rattle.std.specs.Prelude.{◌≡◌};
ghost use Rattle.base.specs.Witness.{witness};
ghost use Rattle.checker.specs.Numbers.{run_number_of};
ghost use Rattle.checker.specs.declared.run_error.RunError.TheVariants.{OutOfMemory, Device};

use base::{Failed, Refused};
use thiserror::Error;

/// Why neither yes nor no is answered.
#[derive(Clone, Copy, Debug, Error)]
pub enum RunError {
    /// out of memory
    #[error("{0}")]
    OutOfMemory(Refused),
    /// a source or the sink failed
    #[error("read or write failed")]
    Device,
}

impl From<Refused> for RunError {
    ghost from_gives = { λ _ e. e ≡ OutOfMemory witness };

    fn from(refused: Refused) -> RunError {
        RunError::OutOfMemory(refused)
    }
}

impl From<Failed> for RunError {
    ghost from_gives = { λ _ e. e ≡ Device };

    fn from(_e: Failed) -> RunError {
        RunError::Device
    }
}

impl RunError {
    /// The refusal's number.
    pub fn number(self) -> u8
        ensures { result ≡ run_number_of self }
    {
        match self {
            RunError::OutOfMemory(_) => 20,
            RunError::Device => 21,
        }
    }

    /// The refusal's place, which is 0.
    pub fn place(self) -> u64
        ensures { result ≡ 0 }
    {
        0
    }
}
