//! Why certificates of version 3 are refused.

ghost use Rattle.std.specs.Prelude.{◌≡◌};
ghost use Rattle.checker3.specs.Numbers.{number_of, place_of};

use lrat::Fault;
use thiserror::Error;

/// Why a certificate is not accepted for a circuit: the first cause.
#[derive(Clone, Copy, Debug, Error)]
pub enum CheckError {
    /// the circuit has no such property
    #[error("there is no such property")]
    NoProperty,
    /// more rounds of justice than the circuit has states
    #[error("more rounds than states")]
    TooManyRounds,
    /// the circuit that is spoken of has a variable over the limit
    #[error("too many variables")]
    Limit,
    /// the latches and gates do not extend the circuit to a well-formed one
    #[error("the latches and gates do not extend the circuit")]
    NotExtension,
    /// the clause, from 0, has a literal outside of the extended circuit
    #[error("clause {0}: a literal is outside of the circuit")]
    Outside(u64),
    /// a line is refused, or hints do not show their clause
    #[error("{0}")]
    Line(Fault),
}

impl CheckError {
    /// The refusal's number.
    pub fn number(self) -> u8
        ensures { result ≡ number_of self }
    {
        match self {
            CheckError::NoProperty => 30,
            CheckError::TooManyRounds => 56,
            CheckError::Limit => 4,
            CheckError::NotExtension => 54,
            CheckError::Outside(_) => 55,
            CheckError::Line(fault) => fault.number(),
        }
    }

    /// The refusal's place: the clause; else 0.
    pub fn place(self) -> u64
        ensures { result ≡ place_of self }
    {
        match self {
            CheckError::Outside(clause) => clause,
            _ => 0,
        }
    }
}
