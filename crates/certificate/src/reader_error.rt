//! Why a reader has no further part.

ghost use Rattle.std.specs.Prelude.{◌≡◌};
ghost use Rattle.certificate.specs.Numbers.{reader_number_of, reader_place_of};
ghost use Rattle.certificate.specs.Refusals.{of_line};
ghost use Rattle.base.specs.Witness.{witness};
ghost use Rattle.certificate.specs.declared.cert_error.CertError.TheVariants.{OutOfMemory};
ghost use Rattle.certificate.specs.declared.reader_error.ReaderError.TheVariants.{Refused};

use crate::cert_error::CertError;
use crate::cert_fault::{CertFault, error};
use base::Refused;
use pieces::LineError;
use thiserror::Error;

/// Why the parts of a certificate's text are not read on.
#[derive(Clone, Copy, Debug, Error)]
pub enum ReaderError {
    /// the text is refused, or memory is refused
    #[error("{0}")]
    Refused(CertError),
    /// the source failed
    #[error("read failed")]
    Device,
}

impl From<Refused> for ReaderError {
    ghost from_gives = { λ _ e. e ≡ Refused (OutOfMemory witness) };

    fn from(refused: Refused) -> ReaderError {
        ReaderError::Refused(CertError::OutOfMemory(refused))
    }
}

impl From<LineError<CertFault>> for ReaderError {
    ghost from_gives = { λ e r. r ≡ of_line e };

    fn from(e: LineError<CertFault>) -> ReaderError {
        match e {
            LineError::Refused { length, fault } => ReaderError::Refused(error(length, fault)),
            LineError::Device => ReaderError::Device,
        }
    }
}

impl From<CertError> for ReaderError {
    ghost from_gives = { λ e r. r ≡ Refused e };

    fn from(e: CertError) -> ReaderError {
        ReaderError::Refused(e)
    }
}

impl ReaderError {
    /// The refusal's number.
    pub fn number(self) -> u8
        ensures { result ≡ reader_number_of self }
    {
        match self {
            ReaderError::Refused(e) => e.number(),
            ReaderError::Device => 21,
        }
    }

    /// The refusal's place: a byte of the text; 0 where the source failed.
    pub fn place(self) -> u64
        ensures { result ≡ reader_place_of self }
    {
        match self {
            ReaderError::Refused(e) => e.place(),
            ReaderError::Device => 0,
        }
    }
}
