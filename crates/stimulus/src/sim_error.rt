//! Why there is no table of a stimulus.

ghost use Rattle.std.specs.Prelude.{◌≡◌};
ghost use Rattle.stimulus.specs.Numbers.{sim_number_of, sim_place_of};

use base::{Failed, Refused};
use simulate::ReplayError;
use thiserror::Error;

/// Why the table of a stimulus is not put whole.
#[derive(Clone, Copy, Debug, Error)]
pub enum SimError {
    /// it does not tell of a violation
    #[error("the stimulus reports no violation")]
    NotViolated,
    /// a line has not one value for each latch or each input: 0 for the latch line, the time and
    /// one more for an input line
    #[error("line {line} has another length")]
    LineLength { line: u64 },
    /// no time passes
    #[error("there is no input line")]
    NoInputLine,
    /// the first latch whose initial value is not that of its reset, by its position
    #[error("latch {latch} is against its reset")]
    InitialReset { latch: u32 },
    /// the sink failed
    #[error("the device failed")]
    Device,
    /// out of memory
    #[error("{0}")]
    OutOfMemory(Refused),
}

impl From<Failed> for SimError {
    ghost use Rattle.std.specs.Prelude.{◌≡◌};
    ghost use Rattle.stimulus.specs.declared.sim_error.SimError.TheVariants.{Device};

    ghost from_gives = { λ _ e. e ≡ Device };

    fn from(_e: Failed) -> SimError {
        SimError::Device
    }
}

impl From<Refused> for SimError {
    ghost use Rattle.std.specs.Prelude.{◌≡◌};
    ghost use Rattle.base.specs.Witness.{witness};
    ghost use Rattle.stimulus.specs.declared.sim_error.SimError.TheVariants.{OutOfMemory};

    ghost from_gives = { λ _ e. e ≡ OutOfMemory witness };

    fn from(refused: Refused) -> SimError {
        SimError::OutOfMemory(refused)
    }
}

impl From<ReplayError> for SimError {
    ghost use Rattle.std.specs.Prelude.{◌≡◌};
    ghost use Rattle.stimulus.specs.Numbers.{untold};

    ghost from_gives = { λ e f. f ≡ untold e };

    fn from(e: ReplayError) -> SimError {
        match e {
            ReplayError::InitialReset { latch } => SimError::InitialReset { latch },
            ReplayError::OutOfMemory(refused) => SimError::OutOfMemory(refused),
        }
    }
}

impl SimError {
    /// The refusal's number.
    pub fn number(self) -> u8
        ensures { result ≡ sim_number_of self }
    {
        match self {
            SimError::NotViolated => 65,
            SimError::LineLength { .. } => 66,
            SimError::NoInputLine => 64,
            SimError::InitialReset { .. } => 60,
            SimError::Device => 21,
            SimError::OutOfMemory(_) => 20,
        }
    }

    /// The refusal's place: the line or the latch, and otherwise 0.
    pub fn place(self) -> u64
        ensures { result ≡ sim_place_of self }
    {
        match self {
            SimError::LineLength { line } => line,
            SimError::InitialReset { latch } => u64::from(latch),
            SimError::NotViolated
            | SimError::NoInputLine
            | SimError::Device
            | SimError::OutOfMemory(_) => 0,
        }
    }
}
