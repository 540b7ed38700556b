//! Where the symbols end, and the comment behind them.

ghost use Rattle.std.specs.Prelude.{◌≡◌, IfOk};
ghost use Rattle.aag.specs.Symbols.{ends_symbols, comment_of};

use base::{Refused, Seq};
use std::alloc::Global;

/// Whether no symbol follows: the text ends here, or a `c` that no digit follows begins the comment.
pub fn ends_symbols(text: &[u8]) -> bool
    ensures { result ≡ ends_symbols text.now }
{
    match text {
        [] | [b'c'] => true,
        [b'c', next, ..] => !next.is_ascii_digit(),
        _ => false,
    }
}

/// The comment, where the symbols end: all bytes behind the `c`, without a line end that follows it
/// at once.
pub fn comment(alloc: Global, text: &[u8]) -> Result<Option<Seq<u8>>, Refused>
    ensures { IfOk result (λ c. c ≡ comment_of text.now) }
{
    match text {
        [] => Ok(None),
        [_, b'\n', bytes @ ..] => Ok(Some(Seq::from_slice(alloc, bytes)?)),
        [_, bytes @ ..] => Ok(Some(Seq::from_slice(alloc, bytes)?)),
    }
}
