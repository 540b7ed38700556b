//! Why a source gives no circuit.

ghost use Rattle.std.specs.Prelude.{◌≡◌};
ghost use Rattle.aiger.specs.Numbers.{number_of, place_of};
ghost use Rattle.aiger.specs.declared.load_error.LoadError.TheVariants.{Refused};

use graph::ReadError;
use thiserror::Error;

/// Why a source gives no circuit.
#[derive(Clone, Copy, Debug, Error)]
pub enum LoadError {
    /// its bytes spell none, or memory is refused
    #[error("{0}")]
    Refused(ReadError),
    /// the source failed
    #[error("read failed")]
    Device,
}

impl From<ReadError> for LoadError {
    ghost from_gives = { λ e l. l ≡ Refused e };

    fn from(e: ReadError) -> LoadError {
        LoadError::Refused(e)
    }
}

impl LoadError {
    /// The refusal's number.
    pub fn number(self) -> u8
        ensures { result ≡ number_of self }
    {
        match self {
            LoadError::Refused(e) => e.number(),
            LoadError::Device => 21,
        }
    }

    /// The refusal's place: a byte of the text, or what the reader's refusal says; 0 where the source
    /// failed.
    pub fn place(self) -> u64
        ensures { result ≡ place_of self }
    {
        match self {
            LoadError::Refused(e) => e.place(),
            LoadError::Device => 0,
        }
    }
}
