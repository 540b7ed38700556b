//! Why a solver refuses.

ghost use Rattle.base.specs.Witness.{witness};
ghost use Rattle.std.specs.Prelude.{◌≡◌};
ghost use Rattle.solver.specs.Numbers.{number_of};
ghost use Rattle.solver.specs.declared.sat_error.SatError.TheVariants.{Limit, OutOfMemory};
ghost use Rattle.solver.specs.Full.{full};

use crate::full::Full;
use base::Refused;
use thiserror::Error;

/// Why a solver refuses.
#[derive(Clone, Copy, Debug, PartialEq, Eq, Error)]
pub enum SatError {
    /// all ids of clauses are taken
    #[error("{0}")]
    Limit(Full),
    /// out of memory
    #[error("{0}")]
    OutOfMemory(Refused),
}

impl From<Full> for SatError {
    ghost from_gives = { λ _ e. e ≡ Limit full };

    fn from(full: Full) -> SatError {
        SatError::Limit(full)
    }
}

impl From<Refused> for SatError {
    ghost from_gives = { λ _ e. e ≡ OutOfMemory witness };

    fn from(refused: Refused) -> SatError {
        SatError::OutOfMemory(refused)
    }
}

impl SatError {
    /// The refusal's number.
    pub fn number(self) -> u8
        ensures { result ≡ number_of self }
    {
        match self {
            SatError::Limit(_) => 4,
            SatError::OutOfMemory(_) => 20,
        }
    }

    /// The refusal's place, which is always 0: there is no text.
    pub fn place(self) -> u64
        ensures { result ≡ 0 }
    {
        0
    }
}
