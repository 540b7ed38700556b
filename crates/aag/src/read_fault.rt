//! Why a text is refused.

ghost use Rattle.std.specs.Prelude.{◌≡◌};
ghost use Rattle.aag.specs.Refusals.{error_of};

use graph::ReadError;
use scan::{Fault, Kinds, place};

/// What is wrong in a text, before its place is known as a byte of the whole. `L` is what only the
/// text's layout refuses.
#[derive(Clone, Copy)]
pub enum ReadFault<L> {
    /// Not the word that begins a text, or a byte that may not end a count.
    Header,
    /// No digit, or a 0 before another digit.
    Number,
    /// A count over its limit, or justice literals over theirs in all.
    Limit,
    /// Another byte than the line needs.
    Byte,
    /// A byte that is needed is missing.
    Truncated,
    /// A literal of no variable.
    LiteralRange,
    /// A reset that is neither 0, 1 nor the latch's literal.
    Reset,
    /// A number of variables that does not fit those of inputs, latches and gates.
    Counts,
    /// No symbol of anything that there is, or a second one of the same.
    Symbol,
    /// What only this layout refuses.
    Layout(L),
}

impl<L> ReadFault<L> {
    /// The faults in a header.
    pub const IN_HEADER: Kinds<ReadFault<L>> = Kinds {
        truncated: ReadFault::Truncated,
        number: ReadFault::Number,
        over: ReadFault::Limit,
        byte: ReadFault::Header,
    };

    /// The faults of a literal.
    pub const IN_LITERAL: Kinds<ReadFault<L>> = Kinds {
        truncated: ReadFault::Truncated,
        number: ReadFault::Number,
        over: ReadFault::LiteralRange,
        byte: ReadFault::Byte,
    };

    /// The faults of a reset.
    pub const IN_RESET: Kinds<ReadFault<L>> = Kinds {
        truncated: ReadFault::Truncated,
        number: ReadFault::Number,
        over: ReadFault::Reset,
        byte: ReadFault::Byte,
    };

    /// The faults of a justice property's size.
    pub const IN_SIZE: Kinds<ReadFault<L>> = Kinds {
        truncated: ReadFault::Truncated,
        number: ReadFault::Number,
        over: ReadFault::Limit,
        byte: ReadFault::Byte,
    };

    /// The faults of a symbol's position and the space behind it.
    pub const IN_SYMBOL: Kinds<ReadFault<L>> = Kinds {
        truncated: ReadFault::Truncated,
        number: ReadFault::Symbol,
        over: ReadFault::Symbol,
        byte: ReadFault::Symbol,
    };
}

/// What only one layout refuses.
pub trait LayoutFault {
    ghost use Rattle.std.specs.Prelude.{ℕ};
    ghost use Rattle.graph.specs.declared.error.ReadError.{ReadError};

    /// The error at a byte.
    ghost at_byte: { Self → ℕ → ReadError };

    /// The error at this byte.
    fn at(self, place: u64) -> ReadError
        ensures { result ≡ at_byte self place };
}

/// The error that a fault is in a text of this length.
pub fn told<L: LayoutFault>(fault: Fault<ReadFault<L>>, length: usize) -> ReadError
    ensures { result ≡ error_of L.at_byte length fault }
{
    let (kind, place) = match fault {
        Fault::Memory(refused) => return ReadError::OutOfMemory(refused),
        Fault::Text { kind, left } => (kind, place(length, left)),
    };
    match kind {
        ReadFault::Header => ReadError::Header(place),
        ReadFault::Number => ReadError::Number(place),
        ReadFault::Limit => ReadError::Limit(place),
        ReadFault::Byte => ReadError::Byte(place),
        ReadFault::Truncated => ReadError::Truncated(place),
        ReadFault::LiteralRange => ReadError::LiteralRange(place),
        ReadFault::Reset => ReadError::Reset(place),
        ReadFault::Counts => ReadError::Counts(place),
        ReadFault::Symbol => ReadError::Symbol(place),
        ReadFault::Layout(refusal) => refusal.at(place),
    }
}
