//! Why texts of proofs are not written.

ghost use Rattle.std.specs.Prelude.{◌≡◌};
ghost use Rattle.lrat.specs.declared.lrat_write_error.LratWriteError.TheVariants.{Device};

use base::Failed;
use thiserror::Error;

/// Why the text of a proof is not written whole.
#[derive(Clone, Copy, Debug, Error)]
pub enum LratWriteError {
    /// the sink failed
    #[error("the device failed")]
    Device,
}

impl From<Failed> for LratWriteError {
    ghost from_gives = { λ _ e. e ≡ Device };

    fn from(_e: Failed) -> LratWriteError {
        LratWriteError::Device
    }
}

impl LratWriteError {
    /// The refusal's number.
    pub fn number(self) -> u8
        ensures { result ≡ 21 }
    {
        21
    }

    /// The refusal's place, which is 0.
    pub fn place(self) -> u64
        ensures { result ≡ 0 }
    {
        0
    }
}
