//! Why texts of files are not written.

ghost use Rattle.std.specs.Prelude.{◌≡◌};
ghost use Rattle.aag.specs.declared.aag_write_error.AagWriteError.TheVariants.{Device};

use base::Failed;
use thiserror::Error;

/// Why the text of a file is not written whole.
#[derive(Clone, Copy, Debug, Error)]
pub enum AagWriteError {
    /// the sink failed
    #[error("the device failed")]
    Device,
}

impl From<Failed> for AagWriteError {
    ghost from_gives = { λ _ e. e ≡ Device };

    fn from(_e: Failed) -> AagWriteError {
        AagWriteError::Device
    }
}

impl AagWriteError {
    /// The refusal's number.
    pub fn number(self) -> u8
        ensures { result ≡ 21 }
    {
        21
    }

    /// The refusal's place, which is 0.
    pub fn place(self) -> u64
        ensures { result ≡ 0 }
    {
        0
    }
}
