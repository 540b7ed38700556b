//! Why no further case is proved.

ghost use Rattle.std.specs.Prelude.{◌≡◌};
ghost use Rattle.base.specs.Witness.{witness};
ghost use Rattle.inductive_proofs.specs.ProveErrors.{of_solver};
ghost use Rattle.inductive_proofs.specs.declared.prove_error.ProveError.TheVariants.{OutOfMemory};

use crate::counterexample::Counterexample;
use base::Refused;
use solver::{Full, SatError};

/// Why no further case is proved.
#[derive(Drop)]
pub enum ProveError {
    /// What satisfies a case.
    NotInvariant(Counterexample),
    /// The budget is exhausted.
    Spent,
    /// A solver has used up its ids.
    IdsTaken(Full),
    /// Out of memory.
    OutOfMemory(Refused),
}

impl From<SatError> for ProveError {
    ghost from_gives = { λ e h. h ≡ of_solver e };

    fn from(e: SatError) -> ProveError {
        match e {
            SatError::Limit(full) => ProveError::IdsTaken(full),
            SatError::OutOfMemory(refused) => ProveError::OutOfMemory(refused),
        }
    }
}

impl From<Refused> for ProveError {
    ghost from_gives = { λ _ h. h ≡ OutOfMemory witness };

    fn from(refused: Refused) -> ProveError {
        ProveError::OutOfMemory(refused)
    }
}
