//! Why no line is read.

ghost use Rattle.std.specs.Prelude.{◌≡◌};
ghost use Rattle.pieces.specs.Lines.{of_piece};

use crate::pieces::PieceError;
use scan::Fault;

/// Why the lines of a text are not read on. Each kind of line has refusals `K` of its own.
#[derive(Clone, Copy)]
pub enum LineError<K> {
    /// The text is refused, or memory is refused.
    Refused {
        /// How many bytes the text has up to the end of those that the fault was found in.
        length: usize,
        /// What is wrong in them.
        fault: Fault<K>,
    },
    /// The source failed.
    Device,
}

impl<K> From<PieceError> for LineError<K> {
    ghost from_gives = { λ e r. r ≡ of_piece e };

    fn from(e: PieceError) -> LineError<K> {
        match e {
            PieceError::OutOfMemory(refused) => LineError::Refused {
                length: 0,
                fault: Fault::Memory(refused),
            },
            PieceError::Device => LineError::Device,
        }
    }
}
