//! Why texts of stimuli are refused.

ghost use Rattle.std.specs.Prelude.{◌≡◌};
ghost use Rattle.stimulus.specs.Numbers.{stim_number_of, stim_place_of};

use base::Refused;
use thiserror::Error;

/// Why a text spells no stimulus. A place is a byte of the text.
#[derive(Clone, Copy, Debug, Error)]
pub enum StimError {
    /// the first line is not 0, 1 or 2
    #[error("byte {place}: no status")]
    Status { place: u64 },
    /// the second line is not a property
    #[error("byte {place}: no property")]
    PropertyLine { place: u64 },
    /// another character than the line needs
    #[error("byte {place}: another character is needed")]
    Character { place: u64 },
    /// the text ends too early
    #[error("byte {place}: the text ends too early")]
    Truncated { place: u64 },
    /// more bytes follow the last line
    #[error("byte {place}: bytes behind the last line")]
    AfterEnd { place: u64 },
    /// out of memory
    #[error("{0}")]
    OutOfMemory(Refused),
}

impl StimError {
    /// The refusal's number.
    pub fn number(self) -> u8
        ensures { result ≡ stim_number_of self }
    {
        match self {
            StimError::Status { .. } => 80,
            StimError::PropertyLine { .. } => 81,
            StimError::Character { .. } => 83,
            StimError::Truncated { .. } => 84,
            StimError::AfterEnd { .. } => 85,
            StimError::OutOfMemory(_) => 20,
        }
    }

    /// The refusal's place, 0 for out of memory.
    pub fn place(self) -> u64
        ensures { result ≡ stim_place_of self }
    {
        match self {
            StimError::Status { place } => place,
            StimError::PropertyLine { place } => place,
            StimError::Character { place } => place,
            StimError::Truncated { place } => place,
            StimError::AfterEnd { place } => place,
            StimError::OutOfMemory(_) => 0,
        }
    }
}
