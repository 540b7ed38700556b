//! Why texts of stimuli are not written.

ghost use Rattle.std.specs.Prelude.{◌≡◌};
ghost use Rattle.stimulus.specs.declared.stim_write_error.StimWriteError.TheVariants.{Device};

use base::Failed;
use thiserror::Error;

/// Why the text of a stimulus is not written whole.
#[derive(Clone, Copy, Debug, Error)]
pub enum StimWriteError {
    /// the sink failed
    #[error("the device failed")]
    Device,
}

impl From<Failed> for StimWriteError {
    ghost from_gives = { λ _ e. e ≡ Device };

    fn from(_e: Failed) -> StimWriteError {
        StimWriteError::Device
    }
}

impl StimWriteError {
    /// The refusal's number.
    pub fn number(self) -> u8
        ensures { result ≡ 21 }
    {
        21
    }

    /// The refusal's place, which is 0.
    pub fn place(self) -> u64
        ensures { result ≡ 0 }
    {
        0
    }
}
