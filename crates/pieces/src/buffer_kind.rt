//! Lines that are read into a buffer.

ghost use Rattle.scan.specs.Reading.{Gives};

use scan::Fault;
use std::alloc::Global;

/// One kind of line that is read into a buffer, which keeps its memory from line to line.
pub trait BufferKind {
    ghost use Rattle.std.specs.Prelude.{ℕ, List, Option};

    /// What a line is read into.
    type Buffer;

    /// What is answered of a line, beside the buffer.
    type Item: Drop;

    /// What a line's meaning depends on, as the greatest variable.
    type Context: Copy;

    /// What the reader finds wrong in a text.
    type Fault: Copy;

    /// What a line holds.
    ghost Value: { Type 0 };

    /// What has to hold of the context.
    ghost allows: { Self.Context → Type 0 };

    /// How a line is read.
    ghost at: { Self.Context → List ℕ → Option (Value × List ℕ) };

    /// What an answer and the buffer say that a line holds.
    ghost seen: { Self.Item → Self.Buffer → Value };

    /// Reads one line into the buffer. What follows it comes with the answer.
    fn line_into<'t>(
        alloc: Global,
        buffer: &mut Self::Buffer,
        text: &'t [u8],
        context: Self::Context,
    ) -> Result<(Self::Item, &'t [u8]), Fault<Self::Fault>>
        requires { allows context }
        ensures { Gives (λ x. (seen x.0 buffer.new, x.1.now)) result (at context text.now) };
}
