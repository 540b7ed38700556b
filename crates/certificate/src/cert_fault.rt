//! Why a text is refused.

ghost use Rattle.std.specs.Prelude.{◌≡◌};
ghost use Rattle.certificate.specs.Refusals.{error_of};

use crate::cert_error::CertError;
use scan::{Fault, Kinds, place};

/// What is wrong in a text, before its place is known as a byte of the whole.
#[derive(Clone, Copy)]
pub enum CertFault {
    /// Not the first line of a certificate.
    Version,
    /// No property on the second line.
    PropertyLine,
    /// No number, or one over its limit.
    Number,
    /// Another section than the one that is due, or one behind the last.
    Section,
    /// Another byte than the line needs.
    Byte,
    /// A byte that is needed is missing.
    Truncated,
}

/// The faults of the first line.
pub const IN_VERSION: Kinds<CertFault> = Kinds {
    truncated: CertFault::Truncated,
    number: CertFault::Version,
    over: CertFault::Version,
    byte: CertFault::Version,
};

/// The faults of the second line.
pub const IN_PROPERTY: Kinds<CertFault> = Kinds {
    truncated: CertFault::Truncated,
    number: CertFault::PropertyLine,
    over: CertFault::PropertyLine,
    byte: CertFault::PropertyLine,
};

/// The faults of counts, literals and lines of proofs.
pub const IN_LINE: Kinds<CertFault> = Kinds {
    truncated: CertFault::Truncated,
    number: CertFault::Number,
    over: CertFault::Number,
    byte: CertFault::Byte,
};

/// The faults of a section's letter.
pub const IN_LETTER: Kinds<CertFault> = Kinds {
    truncated: CertFault::Truncated,
    number: CertFault::Section,
    over: CertFault::Section,
    byte: CertFault::Section,
};

/// The error that a fault is in a text of `length` bytes.
pub fn error(length: usize, fault: Fault<CertFault>) -> CertError
    ensures { result ≡ error_of length fault }
{
    let (kind, place) = match fault {
        Fault::Memory(refused) => return CertError::OutOfMemory(refused),
        Fault::Text { kind, left } => (kind, place(length, left)),
    };
    match kind {
        CertFault::Version => CertError::Version { place },
        CertFault::PropertyLine => CertError::PropertyLine { place },
        CertFault::Number => CertError::Number { place },
        CertFault::Section => CertError::Section { place },
        CertFault::Byte => CertError::Byte { place },
        CertFault::Truncated => CertError::Truncated { place },
    }
}
