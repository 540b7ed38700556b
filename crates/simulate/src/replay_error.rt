//! Why there is no replay.

ghost use Rattle.std.specs.Prelude.{◌≡◌};
ghost use Rattle.simulate.specs.Refusals.{number_of, place_of};

use base::Refused;
use thiserror::Error;

/// Why a replay is refused.
#[derive(Clone, Copy, Debug, Error)]
pub enum ReplayError {
    /// The first latch whose initial value is not that of its reset, by its position.
    #[error("latch {latch} is against its reset")]
    InitialReset { latch: u32 },
    #[error("{0}")]
    OutOfMemory(Refused),
}

impl From<Refused> for ReplayError {
    ghost use Rattle.std.specs.Prelude.{◌≡◌};
    ghost use Rattle.base.specs.Witness.{witness};
    ghost use Rattle.simulate.specs.declared.replay_error.ReplayError.TheVariants.{OutOfMemory};

    ghost from_gives = { λ _ e. e ≡ OutOfMemory witness };

    fn from(refused: Refused) -> ReplayError {
        ReplayError::OutOfMemory(refused)
    }
}

impl ReplayError {
    /// The refusal's number.
    pub fn number(&self) -> u8
        ensures { result ≡ number_of self.now }
    {
        match self {
            ReplayError::InitialReset { latch: _ } => 60,
            ReplayError::OutOfMemory(_) => 20,
        }
    }

    /// The refusal's place: the latch, and 0 for out of memory.
    pub fn place(&self) -> u64
        ensures { result ≡ place_of self.now }
    {
        match self {
            ReplayError::InitialReset { latch } => u64::from(*latch),
            ReplayError::OutOfMemory(_) => 0,
        }
    }
}
