//! Why a circuit is not made smaller.

ghost use Rattle.std.specs.Prelude.{◌≡◌};
ghost use Rattle.base.specs.Witness.{witness};
ghost use Rattle.shrink.specs.declared.shrink_error.ShrinkError.TheVariants.{OutOfMemory};

use base::Refused;
use thiserror::Error;

/// Why a circuit is not made smaller.
#[derive(Clone, Copy, Debug, Error)]
pub enum ShrinkError {
    /// out of memory
    #[error("{0}")]
    OutOfMemory(Refused),
}

impl From<Refused> for ShrinkError {
    ghost from_gives = { λ _ e. e ≡ OutOfMemory witness };

    fn from(refused: Refused) -> ShrinkError {
        ShrinkError::OutOfMemory(refused)
    }
}

impl ShrinkError {
    /// The refusal's number.
    pub fn number(self) -> u8
        ensures { result ≡ 20 }
    {
        20
    }

    /// The refusal's place, which is 0.
    pub fn place(self) -> u64
        ensures { result ≡ 0 }
    {
        0
    }
}
