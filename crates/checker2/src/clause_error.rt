//! Why the clauses of an invariant are refused.

ghost use Rattle.std.specs.Prelude.{◌≡◌};
ghost use Rattle.base.specs.Witness.{witness};
ghost use Rattle.checker2.specs.declared.clause_error.ClauseError.TheVariants.{OutOfMemory};

use base::Refused;
use thiserror::Error;

/// Why the clauses of an invariant are refused.
#[derive(Clone, Copy, Debug, Error)]
pub enum ClauseError {
    /// the clause, from 0, has a literal that is not a latch's
    #[error("clause {clause}: a literal is not a latch's")]
    NotLatch { clause: u64 },
    /// the clause, from 0, has a literal that is repeated or opposed
    #[error("clause {clause}: a literal is repeated or opposed")]
    Repeated { clause: u64 },
    /// out of memory
    #[error("{0}")]
    OutOfMemory(Refused),
}

impl From<Refused> for ClauseError {
    ghost from_gives = { λ _ e. e ≡ OutOfMemory witness };

    fn from(refused: Refused) -> ClauseError {
        ClauseError::OutOfMemory(refused)
    }
}
