//! Why lines and texts of proofs are refused.

ghost use Rattle.base.specs.Witness.{witness};
ghost use Rattle.std.specs.Prelude.{◌≡◌};
ghost use Rattle.lrat.specs.declared.lrat_error.LratError.TheVariants.{OutOfMemory};
ghost use Rattle.lrat.specs.Numbers.{lrat_number_of, lrat_place_of};

use base::Refused;
use thiserror::Error;

/// Why a line, or the text of a proof, is refused. A place is a byte of the text.
#[derive(Clone, Copy, Debug, PartialEq, Eq, Error)]
pub enum LratError {
    /// no number stands here, or one that is 0 or over its limit
    #[error("byte {place}: no number in its limits")]
    Number { place: u64 },
    /// another byte is needed here
    #[error("byte {place}: another byte is needed")]
    Byte { place: u64 },
    /// the text ends too early
    #[error("byte {place}: the text ends too early")]
    Truncated { place: u64 },
    /// out of memory
    #[error("{0}")]
    OutOfMemory(Refused),
}

impl From<Refused> for LratError {
    ghost from_gives = { λ _ e. e ≡ OutOfMemory witness };

    fn from(refused: Refused) -> LratError {
        LratError::OutOfMemory(refused)
    }
}

impl LratError {
    /// The refusal's number.
    pub fn number(self) -> u8
        ensures { result ≡ lrat_number_of self }
    {
        match self {
            LratError::Number { .. } => 3,
            LratError::Byte { .. } => 5,
            LratError::Truncated { .. } => 6,
            LratError::OutOfMemory(_) => 20,
        }
    }

    /// The refusal's place, 0 for out of memory.
    pub fn place(self) -> u64
        ensures { result ≡ lrat_place_of self }
    {
        match self {
            LratError::Number { place } => place,
            LratError::Byte { place } => place,
            LratError::Truncated { place } => place,
            LratError::OutOfMemory(_) => 0,
        }
    }
}
