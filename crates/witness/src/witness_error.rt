//! Why no strict stimulus is made of a text.

ghost use Rattle.std.specs.Prelude.{◌≡◌};
ghost use Rattle.base.specs.Witness.{witness};
ghost use Rattle.witness.specs.Numbers.{number_of, place_of};
ghost use Rattle.witness.specs.declared.witness_error.WitnessError.TheVariants.{OutOfMemory};

use base::Refused;
use stimulus::JudgeError;
use thiserror::Error;

/// Why no strict stimulus is made of a loose text. A place is a byte of the text.
#[derive(Clone, Copy, Debug, Error)]
pub enum WitnessError {
    /// the status reports no violation
    #[error("byte {place}: the status reports no violation")]
    NoViolation { place: u64 },
    /// no property stands here
    #[error("byte {place}: no property")]
    Property { place: u64 },
    /// no value stands here
    #[error("byte {place}: no value")]
    Character { place: u64 },
    /// the text ends before any value
    #[error("byte {place}: the text has no values")]
    Truncated { place: u64 },
    /// the line that begins here has not one value for each input, or each latch
    #[error("byte {place}: a line of another length")]
    LineLength { place: u64 },
    /// no choice of the values that don't matter shows a violation: why the last was refused
    #[error("no choice of what doesn't matter shows a violation: {0}")]
    NotShown(JudgeError),
    /// out of memory
    #[error("{0}")]
    OutOfMemory(Refused),
}

impl From<Refused> for WitnessError {
    ghost from_gives = { λ _ e. e ≡ OutOfMemory witness };

    fn from(refused: Refused) -> WitnessError {
        WitnessError::OutOfMemory(refused)
    }
}

impl WitnessError {
    /// The refusal's number.
    pub fn number(self) -> u8
        ensures { result ≡ number_of self }
    {
        match self {
            WitnessError::NoViolation { .. } => 65,
            WitnessError::Property { .. } => 81,
            WitnessError::Character { .. } => 83,
            WitnessError::Truncated { .. } => 84,
            WitnessError::LineLength { .. } => 66,
            WitnessError::NotShown(e) => e.number(),
            WitnessError::OutOfMemory(_) => 20,
        }
    }

    /// The refusal's place: a byte of the text, what the judge says of the last stimulus, and 0 for out of memory.
    pub fn place(self) -> u64
        ensures { result ≡ place_of self }
    {
        match self {
            WitnessError::NoViolation { place }
            | WitnessError::Property { place }
            | WitnessError::Character { place }
            | WitnessError::Truncated { place }
            | WitnessError::LineLength { place } => place,
            WitnessError::NotShown(e) => e.place(),
            WitnessError::OutOfMemory(_) => 0,
        }
    }
}
