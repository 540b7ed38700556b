//! Why there is no formula.

ghost use Rattle.base.specs.Witness.{witness};
ghost use Rattle.std.specs.Prelude.{◌≡◌};
ghost use Rattle.cnf.specs.Numbers.{number_of};
ghost use Rattle.cnf.specs.declared.error.CnfError.TheVariants.{OutOfMemory};

use base::Refused;
use thiserror::Error;

/// Why there is no formula.
#[derive(Clone, Copy, Debug, Error)]
pub enum CnfError {
    /// more steps than an unrolling may have
    #[error("more than 255 steps")]
    Limit,
    /// out of memory
    #[error("{0}")]
    OutOfMemory(Refused),
}

impl From<Refused> for CnfError {
    ghost from_gives = { λ _ e. e ≡ OutOfMemory witness };

    fn from(refused: Refused) -> CnfError {
        CnfError::OutOfMemory(refused)
    }
}

impl CnfError {
    /// The refusal's number.
    pub fn number(self) -> u8
        ensures { result ≡ number_of self }
    {
        match self {
            CnfError::Limit => 4,
            CnfError::OutOfMemory(_) => 20,
        }
    }

    /// The refusal's place, which is always 0: there is no text.
    pub fn place(self) -> u64
        ensures { result ≡ 0 }
    {
        0
    }
}
