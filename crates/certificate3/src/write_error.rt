//! Why certificates are not written.

ghost use Rattle.std.specs.Prelude.{◌≡◌};
ghost use Rattle.certificate3.specs.declared.write_error.WriteError.TheVariants.{Device};

use base::Failed;
use thiserror::Error;

/// Why a certificate is not written whole.
#[derive(Clone, Copy, Debug, Error)]
pub enum WriteError {
    /// no text spells it: a number or a count over its limit, other lists of hints than clauses, or
    /// rounds of a safety property; nothing was put
    #[error("no text spells the certificate")]
    Unspelled,
    /// the sink failed; a beginning of the text was put
    #[error("the device failed")]
    Device,
}

impl From<Failed> for WriteError {
    ghost from_gives = { λ _ e. e ≡ Device };

    fn from(_e: Failed) -> WriteError {
        WriteError::Device
    }
}
