//! Why certificates are not written.

ghost use Rattle.std.specs.Prelude.{◌≡◌};
ghost use Rattle.certificate.specs.Numbers.{write_number_of, write_place_of};
ghost use Rattle.certificate.specs.declared.cert_write_error.CertWriteError.TheVariants.{Device};

use base::Failed;
use thiserror::Error;

/// Why a certificate is not written whole.
#[derive(Clone, Copy, Debug, Error)]
pub enum CertWriteError {
    /// the invariant does not have as many cases, the lemmas not counted; nothing was put
    #[error("{found} sections are not those of the invariant")]
    Sections { found: u64 },
    /// the invariant has too many clauses, or a clause too many literals; nothing was put
    #[error("too many clauses, or literals in a clause")]
    Number,
    /// the sink failed; a beginning of the text was put
    #[error("the device failed")]
    Device,
}

impl From<Failed> for CertWriteError {
    ghost from_gives = { λ _ e. e ≡ Device };

    fn from(_e: Failed) -> CertWriteError {
        CertWriteError::Device
    }
}

impl CertWriteError {
    /// The refusal's number.
    pub fn number(self) -> u8
        ensures { result ≡ write_number_of self }
    {
        match self {
            CertWriteError::Number => 3,
            CertWriteError::Device => 21,
            CertWriteError::Sections { .. } => 34,
        }
    }

    /// The refusal's place: how many sections there are, or 0.
    pub fn place(self) -> u64
        ensures { result ≡ write_place_of self }
    {
        match self {
            CertWriteError::Sections { found } => found,
            CertWriteError::Number | CertWriteError::Device => 0,
        }
    }
}
