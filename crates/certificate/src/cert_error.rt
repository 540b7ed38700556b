//! Why texts of certificates are refused.

ghost use Rattle.std.specs.Prelude.{◌≡◌};
ghost use Rattle.base.specs.Witness.{witness};
ghost use Rattle.certificate.specs.Numbers.{number_of, place_of};
ghost use Rattle.certificate.specs.declared.cert_error.CertError.TheVariants.{OutOfMemory};

use base::Refused;
use thiserror::Error;

/// Why the text of a certificate is refused. A place is a byte of the text.
#[derive(Clone, Copy, Debug, Error)]
pub enum CertError {
    /// no number stands here, or one that is out of its limits
    #[error("byte {place}: no number in its limits")]
    Number { place: u64 },
    /// another byte is needed here
    #[error("byte {place}: another byte is needed")]
    Byte { place: u64 },
    /// the text ends too early
    #[error("byte {place}: the text ends too early")]
    Truncated { place: u64 },
    /// the first line is neither `aigcert 1` nor `aigcert 2`
    #[error("byte {place}: not a certificate of version 1 or 2")]
    Version { place: u64 },
    /// the second line names no property
    #[error("byte {place}: no property")]
    PropertyLine { place: u64 },
    /// another section is due, or none
    #[error("byte {place}: not the section that is due")]
    Section { place: u64 },
    /// out of memory
    #[error("{0}")]
    OutOfMemory(Refused),
}

impl From<Refused> for CertError {
    ghost from_gives = { λ _ e. e ≡ OutOfMemory witness };

    fn from(refused: Refused) -> CertError {
        CertError::OutOfMemory(refused)
    }
}

impl CertError {
    /// The refusal's number.
    pub fn number(self) -> u8
        ensures { result ≡ number_of self }
    {
        match self {
            CertError::Number { .. } => 3,
            CertError::Byte { .. } => 5,
            CertError::Truncated { .. } => 6,
            CertError::OutOfMemory(_) => 20,
            CertError::Version { .. } => 70,
            CertError::PropertyLine { .. } => 71,
            CertError::Section { .. } => 72,
        }
    }

    /// The refusal's place, 0 for out of memory.
    pub fn place(self) -> u64
        ensures { result ≡ place_of self }
    {
        match self {
            CertError::Number { place }
            | CertError::Byte { place }
            | CertError::Truncated { place }
            | CertError::Version { place }
            | CertError::PropertyLine { place }
            | CertError::Section { place } => place,
            CertError::OutOfMemory(_) => 0,
        }
    }
}
