//! Why a call for a command refused.

ghost use Rattle.std.specs.Prelude.{◌≡◌};
ghost use Rattle.base.specs.Witness.{witness};
ghost use Rattle.aigmc_files.specs.Numbers.{number_of, place_of, written};
ghost use Rattle.aigmc_files.specs.declared.command_error.CommandError.TheVariants.{Load, Stimulus, Sim, Decide, Certificate, OutOfMemory, Device};

use aig::AigWriteError;
use aiger::LoadError;
use base::Refused;
use certificate::CertWriteError;
use shrink::ShrinkError;
use stimulus::{SimError, StimError, StimWriteError};
use thiserror::Error;
use verdict::DecideError;

/// Why a call for a command refused.
#[derive(Clone, Copy, Debug, Error)]
pub enum CommandError {
    /// the circuit's file was not read
    #[error("{0}")]
    Load(LoadError),
    /// the stimulus was not read
    #[error("{0}")]
    Stimulus(StimError),
    /// there is no table of the stimulus
    #[error("{0}")]
    Sim(SimError),
    /// there is no verdict on the property
    #[error("{0}")]
    Decide(DecideError),
    /// the certificate was not written
    #[error("{0}")]
    Certificate(CertWriteError),
    /// the circuit is not in the numbering of the binary layout
    #[error("the circuit is not ordered")]
    Unordered,
    /// out of memory
    #[error("{0}")]
    OutOfMemory(Refused),
    /// a device failed
    #[error("read or write failed")]
    Device,
}

impl From<LoadError> for CommandError {
    ghost from_gives = { λ e c. c ≡ Load e };

    fn from(e: LoadError) -> CommandError {
        CommandError::Load(e)
    }
}

impl From<StimError> for CommandError {
    ghost from_gives = { λ e c. c ≡ Stimulus e };

    fn from(e: StimError) -> CommandError {
        CommandError::Stimulus(e)
    }
}

impl From<SimError> for CommandError {
    ghost from_gives = { λ e c. c ≡ Sim e };

    fn from(e: SimError) -> CommandError {
        CommandError::Sim(e)
    }
}

impl From<DecideError> for CommandError {
    ghost from_gives = { λ e c. c ≡ Decide e };

    fn from(e: DecideError) -> CommandError {
        CommandError::Decide(e)
    }
}

impl From<CertWriteError> for CommandError {
    ghost from_gives = { λ e c. c ≡ Certificate e };

    fn from(e: CertWriteError) -> CommandError {
        CommandError::Certificate(e)
    }
}

impl From<StimWriteError> for CommandError {
    ghost from_gives = { λ _ c. c ≡ Device };

    fn from(e: StimWriteError) -> CommandError {
        match e {
            StimWriteError::Device => CommandError::Device,
        }
    }
}

impl From<AigWriteError> for CommandError {
    ghost from_gives = { λ e c. c ≡ written e };

    fn from(e: AigWriteError) -> CommandError {
        match e {
            AigWriteError::Unordered => CommandError::Unordered,
            AigWriteError::Device => CommandError::Device,
        }
    }
}

impl From<ShrinkError> for CommandError {
    ghost from_gives = { λ _ c. c ≡ OutOfMemory witness };

    fn from(e: ShrinkError) -> CommandError {
        match e {
            ShrinkError::OutOfMemory(refused) => CommandError::OutOfMemory(refused),
        }
    }
}

impl From<Refused> for CommandError {
    ghost from_gives = { λ _ c. c ≡ OutOfMemory witness };

    fn from(refused: Refused) -> CommandError {
        CommandError::OutOfMemory(refused)
    }
}

impl CommandError {
    /// The refusal's number.
    pub fn number(self) -> u8
        ensures { result ≡ number_of self }
    {
        match self {
            CommandError::Load(e) => e.number(),
            CommandError::Stimulus(e) => e.number(),
            CommandError::Sim(e) => e.number(),
            CommandError::Decide(e) => e.number(),
            CommandError::Certificate(e) => e.number(),
            CommandError::Unordered => 17,
            CommandError::OutOfMemory(_) => 20,
            CommandError::Device => 21,
        }
    }

    /// The refusal's place: that of the call that refused, and else 0.
    pub fn place(self) -> u64
        ensures { result ≡ place_of self }
    {
        match self {
            CommandError::Load(e) => e.place(),
            CommandError::Stimulus(e) => e.place(),
            CommandError::Sim(e) => e.place(),
            CommandError::Decide(e) => e.place(),
            CommandError::Certificate(e) => e.place(),
            CommandError::Unordered | CommandError::OutOfMemory(_) | CommandError::Device => 0,
        }
    }
}
