//! Why a justice property has no shadow circuit.

ghost use Rattle.std.specs.Prelude.{◌≡◌};
ghost use Rattle.live_safe.specs.Causes.{number_of, place_of};

use base::Refused;
use thiserror::Error;

/// Why there is no shadow circuit. Each refusal has a number and a place.
#[derive(Clone, Copy, Debug, Error)]
pub enum LiveError {
    /// Its position.
    #[error("there is no justice property {0}")]
    NoProperty(u32),
    /// The greatest variable would be over 4194303.
    #[error("the shadow circuit has too many variables")]
    Limit,
    #[error("{0}")]
    OutOfMemory(Refused),
}

impl From<Refused> for LiveError {
    ghost use Rattle.std.specs.Prelude.{◌≡◌};
    ghost use Rattle.base.specs.Witness.{witness};
    ghost use Rattle.live_safe.specs.declared.error.LiveError.TheVariants.{OutOfMemory};

    ghost from_gives = { λ _ e. e ≡ OutOfMemory witness };

    fn from(refused: Refused) -> LiveError {
        LiveError::OutOfMemory(refused)
    }
}

impl LiveError {
    /// The refusal's number.
    pub fn number(&self) -> u8
        ensures { result ≡ number_of self.now }
    {
        match self {
            LiveError::NoProperty(_) => 30,
            LiveError::Limit => 4,
            LiveError::OutOfMemory(_) => 20,
        }
    }

    /// The refusal's place: the property's position, or 0.
    pub fn place(&self) -> u64
        ensures { result ≡ place_of self.now }
    {
        match self {
            LiveError::NoProperty(position) => u64::from(*position),
            LiveError::Limit | LiveError::OutOfMemory(_) => 0,
        }
    }
}
