//! Names of symbols.

ghost use Rattle.std.specs.Prelude.{IfOk};
ghost use Rattle.scan.specs.Reading.{Gives};
ghost use Rattle.graph.specs.Symbols.{IsName};
ghost use Rattle.aag.specs.Symbols.{named_at};

use crate::read_fault::ReadFault;
use base::Seq;
use memchr::memchr;
use scan::Fault;
use std::alloc::Global;

/// The name up to the line end, and what follows that. It takes one byte or more.
pub fn name<L>(alloc: Global, text: &[u8]) -> Result<(Seq<u8>, &[u8]), Fault<ReadFault<L>>>
    ensures value { Gives (λ x. (x.0, x.1.now)) result (named_at text.now) }
    ensures named { IfOk result (λ x. IsName x.0) }
{
    match memchr(b'\n', text) {
        None => Err(Fault::Text {
            kind: ReadFault::Truncated,
            left: 0,
        }),
        Some(0) => Err(Fault::Text {
            kind: ReadFault::Symbol,
            left: text.len(),
        }),
        Some(end) => Ok((Seq::from_slice(alloc, &text[..end])?, &text[end + 1..])),
    }
}
