//! Where the pieces end among bytes.

ghost use Rattle.std.specs.Prelude.{◌≡◌, ◌<◌, IfNone, IfSome, IsTrue};
ghost use Rattle.pieces.specs.Pieces.{GoesOn, IsReady, is_inner};

use memchr::memrchr;

/// Whether the byte may stand in a line before its end, without a branch on it.
fn inner(byte: u8) -> bool
    ensures { result ≡ is_inner byte }
{
    byte.is_ascii_digit()
        | ((byte == b' ') | ((byte == b'-') | ((byte == b'.') | byte.is_ascii_lowercase())))
}

/// Whether each byte may stand in a line before its end. It looks at all of them, many at once.
fn are_inner(bytes: &[u8]) -> bool
    ensures { IsTrue result → GoesOn bytes.now }
{
    let mut are = true;
    for byte in bytes {
        are &= inner(*byte);
    }
    are
}

/// How many bytes there are up to the first that may stand in no line before its end, with that.
fn first_other(bytes: &[u8]) -> Option<usize>
    ensures ready { IfSome result (λ n. 0 < n × IsReady bytes.now n) }
    ensures none { IfNone result (GoesOn bytes.now) }
{
    for (i, byte) in bytes.iter().enumerate() {
        if !inner(*byte) {
            return Some(i + 1);
        }
    }
    None
}

/// How many bytes there are up to the last line end, with that; where there is none, up to the first
/// byte that may stand in no line before its end.
pub fn last_end(bytes: &[u8]) -> Option<usize>
    ensures ready { IfSome result (λ n. 0 < n × IsReady bytes.now n) }
    ensures none { IfNone result (GoesOn bytes.now) }
{
    match memrchr(b'\n', bytes) {
        Some(end) => Some(end + 1),
        None if are_inner(bytes) => None,
        None => first_other(bytes),
    }
}
