//! Why nothing is answered.

ghost use Rattle.std.specs.Prelude.{◌≡◌};
ghost use Rattle.base.specs.Witness.{witness};
ghost use Rattle.verdict.specs.Numbers.{number_of, of_engine, place_of};

use base::Refused;
use engine::EngineError;
use solver::Full;
use thiserror::Error;

/// Why nothing is answered of a property.
#[derive(Clone, Copy, Debug, Error)]
pub enum DecideError {
    /// the circuit has no property of this position
    #[error("there is no property {0}")]
    NoProperty(u32),
    /// the shadow circuit has too many variables, or an engine found more clauses than a certificate may have
    #[error("over a limit")]
    Limit,
    /// a solver has used up its ids: an engine's, or one that `certify` asked about clauses that one found
    #[error("{0}")]
    IdsTaken(Full),
    /// out of memory
    #[error("{0}")]
    OutOfMemory(Refused),
}

impl From<EngineError> for DecideError {
    ghost from_gives = { λ e d. d ≡ of_engine e };

    fn from(e: EngineError) -> DecideError {
        match e {
            EngineError::Limit(full) => DecideError::IdsTaken(full),
            EngineError::OutOfMemory(refused) => DecideError::OutOfMemory(refused),
        }
    }
}

impl From<Refused> for DecideError {
    ghost use Rattle.verdict.specs.declared.decide_error.DecideError.TheVariants.{OutOfMemory};

    ghost from_gives = { λ _ e. e ≡ OutOfMemory witness };

    fn from(refused: Refused) -> DecideError {
        DecideError::OutOfMemory(refused)
    }
}

impl DecideError {
    /// The refusal's number.
    pub fn number(self) -> u8
        ensures { result ≡ number_of self }
    {
        match self {
            DecideError::Limit | DecideError::IdsTaken(_) => 4,
            DecideError::OutOfMemory(_) => 20,
            DecideError::NoProperty(_) => 30,
        }
    }

    /// The refusal's place: the property's position, and else 0.
    pub fn place(self) -> u64
        ensures { result ≡ place_of self }
    {
        match self {
            DecideError::NoProperty(position) => u64::from(position),
            DecideError::Limit | DecideError::IdsTaken(_) | DecideError::OutOfMemory(_) => 0,
        }
    }
}
