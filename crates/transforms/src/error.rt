//! Why a circuit was not made.

ghost use Rattle.std.specs.Prelude.{◌≡◌};
ghost use Rattle.transforms.specs.Causes.{number_of, place_of};

use base::Refused;
use graph::ReadError;
use live_safe::LiveError;
use thiserror::Error;

/// Why a circuit was not made. Each refusal has a number and a place.
#[derive(Clone, Copy, Debug, Error)]
pub enum TransformError {
    /// Its position.
    #[error("there is no property {0}")]
    NoProperty(u32),
    #[error("{0}")]
    Circuit(ReadError),
    #[error("{0}")]
    Shadow(LiveError),
    #[error("{0}")]
    OutOfMemory(Refused),
    /// There is no memory for a name.
    #[error("out of memory")]
    Name,
}

impl From<ReadError> for TransformError {
    ghost use Rattle.std.specs.Prelude.{◌≡◌};
    ghost use Rattle.transforms.specs.declared.error.TransformError.TheVariants.{Circuit};

    ghost from_gives = { λ error e. e ≡ Circuit error };

    fn from(error: ReadError) -> TransformError {
        TransformError::Circuit(error)
    }
}

impl From<LiveError> for TransformError {
    ghost use Rattle.std.specs.Prelude.{◌≡◌};
    ghost use Rattle.transforms.specs.declared.error.TransformError.TheVariants.{Shadow};

    ghost from_gives = { λ error e. e ≡ Shadow error };

    fn from(error: LiveError) -> TransformError {
        TransformError::Shadow(error)
    }
}

impl From<Refused> for TransformError {
    ghost use Rattle.std.specs.Prelude.{◌≡◌};
    ghost use Rattle.base.specs.Witness.{witness};
    ghost use Rattle.transforms.specs.declared.error.TransformError.TheVariants.{OutOfMemory};

    ghost from_gives = { λ _ e. e ≡ OutOfMemory witness };

    fn from(refused: Refused) -> TransformError {
        TransformError::OutOfMemory(refused)
    }
}

impl TransformError {
    /// The refusal's number.
    pub fn number(&self) -> u8
        ensures { result ≡ number_of self.now }
    {
        match self {
            TransformError::NoProperty(_) => 30,
            TransformError::Circuit(error) => error.number(),
            TransformError::Shadow(error) => error.number(),
            TransformError::OutOfMemory(_) | TransformError::Name => 20,
        }
    }

    /// The refusal's place: the property's position, that of a circuit's fault, or 0.
    pub fn place(&self) -> u64
        ensures { result ≡ place_of self.now }
    {
        match self {
            TransformError::NoProperty(position) => u64::from(*position),
            TransformError::Circuit(error) => error.place(),
            TransformError::Shadow(error) => error.place(),
            TransformError::OutOfMemory(_) | TransformError::Name => 0,
        }
    }
}
