//! Why an engine gave up.

ghost use Rattle.std.specs.Prelude.{◌≡◌};
ghost use Rattle.base.specs.Witness.{witness};
ghost use Rattle.engine.specs.Numbers.{number_of, of_solver};

use base::Refused;
use solver::{Full, SatError};
use thiserror::Error;

/// Why an engine gave up.
#[derive(Clone, Copy, Debug, Error)]
pub enum EngineError {
    /// its solver has used up its ids
    #[error("{0}")]
    Limit(Full),
    /// out of memory
    #[error("{0}")]
    OutOfMemory(Refused),
}

impl From<SatError> for EngineError {
    ghost from_gives = { λ e c. c ≡ of_solver e };

    fn from(e: SatError) -> EngineError {
        match e {
            SatError::Limit(full) => EngineError::Limit(full),
            SatError::OutOfMemory(refused) => EngineError::OutOfMemory(refused),
        }
    }
}

impl From<Refused> for EngineError {
    ghost use Rattle.engine.specs.declared.engine_error.EngineError.TheVariants.{OutOfMemory};

    ghost from_gives = { λ _ e. e ≡ OutOfMemory witness };

    fn from(refused: Refused) -> EngineError {
        EngineError::OutOfMemory(refused)
    }
}

impl EngineError {
    /// The refusal's number.
    pub fn number(self) -> u8
        ensures { result ≡ number_of self }
    {
        match self {
            EngineError::Limit(_) => 4,
            EngineError::OutOfMemory(_) => 20,
        }
    }

    /// The refusal's place, which is always 0: there is no text.
    pub fn place(self) -> u64
        ensures { result ≡ 0 }
    {
        0
    }
}
