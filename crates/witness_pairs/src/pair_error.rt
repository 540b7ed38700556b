//! Why a circuit is taken as no witness circuit of another one.

ghost use Rattle.std.specs.Prelude.{◌≡◌};
ghost use Rattle.witness_pairs.specs.Pairs.{number_of, place_of};

use base::Refused;
use thiserror::Error;

/// Why a circuit is taken as no witness circuit of another one. Each refusal has a number and a place.
#[derive(Clone, Copy, Debug, Error)]
pub enum PairError {
    /// The witness has so many bad literals, and not one.
    #[error("the witness has {0} bad literals, and not one")]
    Bad(u64),
    /// The name of the input or latch at the position begins with an equals sign, and names no input or latch of the
    /// model, or one that another one names.
    #[error("the symbol at {0} names no input or latch of the model, or one twice")]
    Symbol(u32),
    /// The model with what the witness adds would have more than 4,194,303 variables.
    #[error("over a limit")]
    Limit,
    #[error("{0}")]
    OutOfMemory(Refused),
}

impl From<Refused> for PairError {
    ghost use Rattle.std.specs.Prelude.{◌≡◌};
    ghost use Rattle.base.specs.Witness.{witness};
    ghost use Rattle.witness_pairs.specs.declared.pair_error.PairError.TheVariants.{OutOfMemory};

    ghost from_gives = { λ _ e. e ≡ OutOfMemory witness };

    fn from(refused: Refused) -> PairError {
        PairError::OutOfMemory(refused)
    }
}

impl PairError {
    /// The refusal's number.
    pub fn number(self) -> u8
        ensures { result ≡ number_of self }
    {
        match self {
            PairError::Bad(_) => 58,
            PairError::Symbol(_) => 57,
            PairError::Limit => 4,
            PairError::OutOfMemory(_) => 20,
        }
    }

    /// The refusal's place: how many bad literals there are, or the position of the input or latch; else 0.
    pub fn place(self) -> u64
        ensures { result ≡ place_of self }
    {
        match self {
            PairError::Bad(count) => count,
            PairError::Symbol(position) => u64::from(position),
            PairError::Limit | PairError::OutOfMemory(_) => 0,
        }
    }
}
