//! Why nothing came of clauses.

ghost use Rattle.std.specs.Prelude.{◌≡◌};
ghost use Rattle.base.specs.Witness.{witness};
ghost use Rattle.certify3.specs.Numbers.{number_of, place_of};
ghost use Rattle.certify3.specs.declared.certify_error.CertifyError.TheVariants.{OutOfMemory};

use base::Refused;
use checker3::CheckError;
use solver::Full;
use thiserror::Error;

/// Why nothing came of the clauses.
#[derive(Clone, Copy, Debug, Error)]
pub enum CertifyError {
    /// the circuit has no property of this position
    #[error("there is no property {0}")]
    NoProperty(u32),
    /// no certificate of this claim, with these latches, gates and clauses, is accepted
    #[error("{0}")]
    Refused(CheckError),
    /// there are more clauses than a certificate may have
    #[error("over a limit")]
    TooMany,
    /// the clause, from 0, has a literal that is repeated or opposed
    #[error("clause {clause}: a literal is repeated or opposed")]
    Repeated { clause: u64 },
    /// a solver has used up its ids
    #[error("{0}")]
    IdsTaken(Full),
    /// out of memory
    #[error("{0}")]
    OutOfMemory(Refused),
}

impl From<Refused> for CertifyError {
    ghost from_gives = { λ _ e. e ≡ OutOfMemory witness };

    fn from(refused: Refused) -> CertifyError {
        CertifyError::OutOfMemory(refused)
    }
}

impl CertifyError {
    /// The refusal's number.
    pub fn number(self) -> u8
        ensures { result ≡ number_of self }
    {
        match self {
            CertifyError::NoProperty(_) => 30,
            CertifyError::Refused(refusal) => refusal.number(),
            CertifyError::TooMany | CertifyError::IdsTaken(_) => 4,
            CertifyError::Repeated { .. } => 33,
            CertifyError::OutOfMemory(_) => 20,
        }
    }

    /// The refusal's place: the property's position, or the clause; else 0.
    pub fn place(self) -> u64
        ensures { result ≡ place_of self }
    {
        match self {
            CertifyError::NoProperty(position) => u64::from(position),
            CertifyError::Refused(refusal) => refusal.place(),
            CertifyError::Repeated { clause } => clause,
            CertifyError::TooMany | CertifyError::IdsTaken(_) | CertifyError::OutOfMemory(_) => 0,
        }
    }
}
