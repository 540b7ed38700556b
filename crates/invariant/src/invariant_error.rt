//! Why texts of invariants are refused.

ghost use Rattle.std.specs.Prelude.{◌≡◌};
ghost use Rattle.invariant.specs.Numbers.{number_of, place_of};
ghost use Rattle.invariant.specs.Refusals.{of_certificate};

use base::Refused;
use certificate::CertError;
use thiserror::Error;

/// Why a text spells no clauses. A place is a byte of the text.
#[derive(Clone, Copy, Debug, Error)]
pub enum InvariantError {
    /// no number stands here, or one that is out of its limits
    #[error("byte {place}: no number in its limits")]
    Number { place: u64 },
    /// another byte is needed here
    #[error("byte {place}: another byte is needed")]
    Byte { place: u64 },
    /// the text ends too early
    #[error("byte {place}: the text ends too early")]
    Truncated { place: u64 },
    /// columns of a PLA that are no latches of the circuit
    #[error("byte {place}: a column is no latch of the circuit")]
    Latch { place: u64 },
    /// the text begins as a certificate, and is none
    #[error("{0}")]
    Certificate(CertError),
    /// out of memory
    #[error("{0}")]
    OutOfMemory(Refused),
}

impl From<CertError> for InvariantError {
    ghost from_gives = { λ c e. e ≡ of_certificate c };

    fn from(e: CertError) -> InvariantError {
        match e {
            CertError::OutOfMemory(refused) => InvariantError::OutOfMemory(refused),
            CertError::Number { .. }
            | CertError::Byte { .. }
            | CertError::Truncated { .. }
            | CertError::Version { .. }
            | CertError::PropertyLine { .. }
            | CertError::Section { .. } => InvariantError::Certificate(e),
        }
    }
}

impl InvariantError {
    /// The refusal's number.
    pub fn number(self) -> u8
        ensures { result ≡ number_of self }
    {
        match self {
            InvariantError::Number { .. } => 3,
            InvariantError::Byte { .. } => 5,
            InvariantError::Truncated { .. } => 6,
            InvariantError::Latch { .. } => 32,
            InvariantError::Certificate(e) => e.number(),
            InvariantError::OutOfMemory(_) => 20,
        }
    }

    /// The refusal's place, 0 for out of memory.
    pub fn place(self) -> u64
        ensures { result ≡ place_of self }
    {
        match self {
            InvariantError::Number { place }
            | InvariantError::Byte { place }
            | InvariantError::Truncated { place }
            | InvariantError::Latch { place } => place,
            InvariantError::Certificate(e) => e.place(),
            InvariantError::OutOfMemory(_) => 0,
        }
    }
}
