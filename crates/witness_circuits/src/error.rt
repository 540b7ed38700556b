//! Why a witness circuit was not made.

ghost use Rattle.std.specs.Prelude.{◌≡◌};
ghost use Rattle.witness_circuits.specs.Causes.{number_of, place_of};

use base::Refused;
use graph::ReadError;
use thiserror::Error;

/// Why a witness circuit was not made. Each refusal has a number and a place.
#[derive(Clone, Copy, Debug, Error)]
pub enum MakeError {
    /// The circuit has no bad literal of this position, and no output that is taken as one.
    #[error("there is no property {0}")]
    NoProperty(u32),
    /// The circuit would have more than 4,194,303 variables.
    #[error("over a limit")]
    Limit,
    /// The clause, from 0, has a literal that is no literal of the circuit with its latches and gates.
    #[error("clause {0}: a literal is outside of the circuit")]
    Outside(u64),
    /// The latches and gates make no circuit.
    #[error("{0}")]
    Circuit(ReadError),
    #[error("{0}")]
    OutOfMemory(Refused),
    /// There is no memory for a name.
    #[error("out of memory")]
    Name,
}

impl From<ReadError> for MakeError {
    ghost use Rattle.std.specs.Prelude.{◌≡◌};
    ghost use Rattle.witness_circuits.specs.declared.error.MakeError.TheVariants.{Circuit};

    ghost from_gives = { λ error e. e ≡ Circuit error };

    fn from(error: ReadError) -> MakeError {
        MakeError::Circuit(error)
    }
}

impl From<Refused> for MakeError {
    ghost use Rattle.std.specs.Prelude.{◌≡◌};
    ghost use Rattle.base.specs.Witness.{witness};
    ghost use Rattle.witness_circuits.specs.declared.error.MakeError.TheVariants.{OutOfMemory};

    ghost from_gives = { λ _ e. e ≡ OutOfMemory witness };

    fn from(refused: Refused) -> MakeError {
        MakeError::OutOfMemory(refused)
    }
}

impl MakeError {
    /// The refusal's number.
    pub fn number(self) -> u8
        ensures { result ≡ number_of self }
    {
        match self {
            MakeError::NoProperty(_) => 30,
            MakeError::Limit => 4,
            MakeError::Outside(_) => 55,
            MakeError::Circuit(error) => error.number(),
            MakeError::OutOfMemory(_) | MakeError::Name => 20,
        }
    }

    /// The refusal's place: the property's position, the clause, that of a circuit's fault, or 0.
    pub fn place(self) -> u64
        ensures { result ≡ place_of self }
    {
        match self {
            MakeError::NoProperty(position) => u64::from(position),
            MakeError::Outside(clause) => clause,
            MakeError::Circuit(error) => error.place(),
            MakeError::Limit | MakeError::OutOfMemory(_) | MakeError::Name => 0,
        }
    }
}
