//! Why certificates are refused.

ghost use Rattle.std.specs.Prelude.{◌≡◌};
ghost use Rattle.base.specs.Witness.{witness};
ghost use Rattle.checker2.specs.Causes.{of_clauses};
ghost use Rattle.checker2.specs.Numbers.{number_of, place_of, section_of};
ghost use Rattle.checker2.specs.declared.check_error.CheckError.TheVariants.{OutOfMemory};

use crate::clause_error::ClauseError;
use base::Refused;
use lrat::StepError;
use thiserror::Error;

/// Why a certificate is not accepted for a circuit.
#[derive(Clone, Copy, Debug, Error)]
pub enum CheckError {
    /// the circuit has no such property
    #[error("there is no property {property}")]
    NoProperty { property: u32 },
    /// the invariant has more clauses than the limit allows
    #[error("too many invariant clauses")]
    Limit,
    /// the invariant has another number of cases
    #[error("{found} sections are not those of the invariant")]
    Sections { found: u64 },
    /// the clause, from 0, has a literal that is not a latch's
    #[error("clause {clause}: a literal is not a latch's")]
    NotLatch { clause: u64 },
    /// the clause, from 0, has a literal that is repeated or opposed
    #[error("clause {clause}: a literal is repeated or opposed")]
    Repeated { clause: u64 },
    /// the section, from 0 and with that of the lemmas where there is one, is no proof of its case,
    /// or has a line that is no lemma
    #[error("section {section}: {error}")]
    Section { error: StepError, section: u64 },
    /// out of memory
    #[error("{0}")]
    OutOfMemory(Refused),
}

impl From<Refused> for CheckError {
    ghost from_gives = { λ _ e. e ≡ OutOfMemory witness };

    fn from(refused: Refused) -> CheckError {
        CheckError::OutOfMemory(refused)
    }
}

impl From<ClauseError> for CheckError {
    ghost from_gives = { λ e r. r ≡ of_clauses e };

    fn from(e: ClauseError) -> CheckError {
        match e {
            ClauseError::NotLatch { clause } => CheckError::NotLatch { clause },
            ClauseError::Repeated { clause } => CheckError::Repeated { clause },
            ClauseError::OutOfMemory(refused) => CheckError::OutOfMemory(refused),
        }
    }
}

impl CheckError {
    /// The refusal's number.
    pub fn number(self) -> u8
        ensures { result ≡ number_of self }
    {
        match self {
            CheckError::Limit => 4,
            CheckError::OutOfMemory(_) => 20,
            CheckError::NoProperty { .. } => 30,
            CheckError::NotLatch { .. } => 32,
            CheckError::Repeated { .. } => 33,
            CheckError::Sections { .. } => 34,
            CheckError::Section { error, .. } => error.number(),
        }
    }

    /// The refusal's place: the property's number, how many sections there are but that of the
    /// lemmas, the clause, or the line in the section; else 0.
    pub fn place(self) -> u64
        ensures { result ≡ place_of self }
    {
        match self {
            CheckError::NoProperty { property } => u64::from(property),
            CheckError::Sections { found } => found,
            CheckError::NotLatch { clause } | CheckError::Repeated { clause } => clause,
            CheckError::Section { error, .. } => error.place(),
            CheckError::Limit | CheckError::OutOfMemory(_) => 0,
        }
    }

    /// The position of the section that is refused, from 0, where that of the lemmas counts: in
    /// version 2 it is at 0, and the first initial case at 1. Else 0.
    pub fn section(self) -> u64
        ensures { result ≡ section_of self }
    {
        match self {
            CheckError::Section { section, .. } => section,
            _ => 0,
        }
    }
}
