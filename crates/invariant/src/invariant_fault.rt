//! Why a text is refused.

ghost use Rattle.std.specs.Prelude.{◌≡◌};
ghost use Rattle.invariant.specs.Refusals.{error_of};

use crate::invariant_error::InvariantError;
use scan::{Fault, Kinds, place};

/// What is wrong in a text, before its place is known as a byte of the whole.
#[derive(Clone, Copy)]
pub enum InvariantFault {
    /// No number, or one over its limit.
    Number,
    /// Another byte than the line needs.
    Byte,
    /// A byte that is needed is missing.
    Truncated,
    /// Columns that are no latches of the circuit.
    Latch,
}

/// The faults of a line.
pub const IN_LINE: Kinds<InvariantFault> = Kinds {
    truncated: InvariantFault::Truncated,
    number: InvariantFault::Number,
    over: InvariantFault::Number,
    byte: InvariantFault::Byte,
};

/// The error that a fault is in a text of `length` bytes.
pub fn error(length: usize, fault: Fault<InvariantFault>) -> InvariantError
    ensures { result ≡ error_of length fault }
{
    let (kind, place) = match fault {
        Fault::Memory(refused) => return InvariantError::OutOfMemory(refused),
        Fault::Text { kind, left } => (kind, place(length, left)),
    };
    match kind {
        InvariantFault::Number => InvariantError::Number { place },
        InvariantFault::Byte => InvariantError::Byte { place },
        InvariantFault::Truncated => InvariantError::Truncated { place },
        InvariantFault::Latch => InvariantError::Latch { place },
    }
}
