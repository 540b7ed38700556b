//! Why nothing came of clauses.

ghost use Rattle.std.specs.Prelude.{◌≡◌};
ghost use Rattle.base.specs.Witness.{witness};
ghost use Rattle.certify.specs.Numbers.{number_of, place_of};
ghost use Rattle.certify.specs.declared.certify_error.CertifyError.TheVariants.{OutOfMemory};

use base::Refused;
use solver::Full;
use thiserror::Error;

/// Why nothing came of the clauses.
#[derive(Clone, Copy, Debug, Error)]
pub enum CertifyError {
    /// the circuit has no property of this position
    #[error("there is no property {0}")]
    NoProperty(u32),
    /// the shadow circuit has too many variables, or the clauses are more than a certificate may have
    #[error("over a limit")]
    Limit,
    /// a solver has used up its ids
    #[error("{0}")]
    IdsTaken(Full),
    /// the clause, from 0, has a literal that is not a latch's
    #[error("clause {clause}: a literal is not a latch's")]
    NotLatch { clause: u64 },
    /// the clause, from 0, has a literal that is repeated or opposed
    #[error("clause {clause}: a literal is repeated or opposed")]
    Repeated { clause: u64 },
    /// out of memory
    #[error("{0}")]
    OutOfMemory(Refused),
}

impl From<Refused> for CertifyError {
    ghost from_gives = { λ _ e. e ≡ OutOfMemory witness };

    fn from(refused: Refused) -> CertifyError {
        CertifyError::OutOfMemory(refused)
    }
}

impl CertifyError {
    /// The refusal's number.
    pub fn number(self) -> u8
        ensures { result ≡ number_of self }
    {
        match self {
            CertifyError::Limit | CertifyError::IdsTaken(_) => 4,
            CertifyError::OutOfMemory(_) => 20,
            CertifyError::NoProperty(_) => 30,
            CertifyError::NotLatch { .. } => 32,
            CertifyError::Repeated { .. } => 33,
        }
    }

    /// The refusal's place: the property's position, or the clause; else 0.
    pub fn place(self) -> u64
        ensures { result ≡ place_of self }
    {
        match self {
            CertifyError::NoProperty(position) => u64::from(position),
            CertifyError::NotLatch { clause } | CertifyError::Repeated { clause } => clause,
            CertifyError::Limit | CertifyError::IdsTaken(_) | CertifyError::OutOfMemory(_) => 0,
        }
    }
}
