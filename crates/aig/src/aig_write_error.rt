//! Why texts of files are not written.

ghost use Rattle.std.specs.Prelude.{◌≡◌};
ghost use Rattle.aig.specs.declared.aig_write_error.AigWriteError.TheVariants.{Device};
ghost use Rattle.aig.specs.WriteRefusals.{number_of};

use aag::AagWriteError;
use base::Failed;
use thiserror::Error;

/// Why the text of a file is not written whole.
#[derive(Clone, Copy, Debug, Error)]
pub enum AigWriteError {
    /// inputs, latches and gates don't have the literals 2, 4, 6 and so on, or those of a gate don't
    /// descend
    #[error("the circuit is not ordered")]
    Unordered,
    /// the sink failed
    #[error("the device failed")]
    Device,
}

impl From<Failed> for AigWriteError {
    ghost from_gives = { λ _ e. e ≡ Device };

    fn from(_e: Failed) -> AigWriteError {
        AigWriteError::Device
    }
}

impl From<AagWriteError> for AigWriteError {
    ghost from_gives = { λ _ e. e ≡ Device };

    fn from(e: AagWriteError) -> AigWriteError {
        match e {
            AagWriteError::Device => AigWriteError::Device,
        }
    }
}

impl AigWriteError {
    /// The refusal's number.
    pub fn number(self) -> u8
        ensures { result ≡ number_of self }
    {
        match self {
            AigWriteError::Unordered => 17,
            AigWriteError::Device => 21,
        }
    }

    /// The refusal's place, which is 0.
    pub fn place(self) -> u64
        ensures { result ≡ 0 }
    {
        0
    }
}
