//! The names of a PLA's columns.

ghost use Rattle.std.specs.Prelude.{◌≡◌, option_map};
ghost use Rattle.scan.specs.Bytes.{tag_at};
ghost use Rattle.scan.specs.Numbers.{begins_digit, digits_after};
ghost use Rattle.invariant.specs.Plas.{ends_name, latch_at, name_at, own_name_at};

use crate::invariant_fault::IN_LINE;
use scan::tag;

/// What follows these bytes, where they come next.
pub fn behind<'a>(text: &'a [u8], wanted: &[u8]) -> Option<&'a [u8]>
    ensures { option_map (λ rest. rest.now) result ≡ tag_at wanted.now text.now }
{
    match tag(text, wanted, IN_LINE) {
        Ok(rest) => Some(rest),
        Err(_) => None,
    }
}

/// Whether a name ends here.
fn ends_name(text: &[u8]) -> bool
    ensures { result ≡ ends_name text.now }
{
    match text {
        [] => false,
        [c, ..] => *c == b' ' || *c == b'\n',
    }
}

/// What follows a space and the name, where they come next.
fn behind_name<'a>(text: &'a [u8], name: &[u8]) -> Option<&'a [u8]>
    ensures { option_map (λ rest. rest.now) result ≡ name_at name.now text.now }
{
    let rest = behind(text, b" ")?;
    let rest = behind(rest, name)?;
    if ends_name(rest) { Some(rest) } else { None }
}

/// Whether a digit comes next.
fn begins_digit(text: &[u8]) -> bool
    ensures { result ≡ begins_digit text.now }
{
    match text {
        [] => false,
        [c, ..] => c.is_ascii_digit(),
    }
}

/// The number in the digits that come next, and what follows them. A number past 2^32 - 1 stays what it is.
fn digits(text: &[u8]) -> (u64, &[u8])
    ensures { (result.0, result.1.now) ≡ digits_after 4294967295 0 text.now }
{
    let mut value = 0_u64;
    for (i, c) in text.iter().enumerate() {
        if !c.is_ascii_digit() {
            return (value, &text[i..]);
        }
        if value <= u64::from(u32::MAX) {
            value = value * 10 + u64::from(*c - b'0');
        }
    }
    (value, &text[text.len()..])
}

/// The number in ABC's own name of a latch, and what follows it, where such a name comes next.
pub fn own_name(text: &[u8]) -> Option<(u64, &[u8])>
    ensures { option_map (λ own. (own.0, own.1.now)) result ≡ own_name_at text.now }
{
    let rest = behind(text, b" lo")?;
    if !begins_digit(rest) {
        return None;
    }
    let (number, rest) = digits(rest);
    if ends_name(rest) {
        Some((number, rest))
    } else {
        None
    }
}

/// What follows the name of the latch at position `k`, where it comes next: `name`, or ABC's own.
pub fn behind_latch<'a>(
    text: &'a [u8],
    name: Option<&[u8]>,
    k: usize,
    own: Option<(u64, &'a [u8])>,
) -> Option<&'a [u8]>
    ensures { option_map (λ rest. rest.now) result ≡ latch_at (option_map (λ n. n.now) name.entry) k (option_map (λ own. (own.0, own.1.now)) own.entry) text.now }
{
    if let Some(name) = name {
        if let Some(rest) = behind_name(text, name) {
            return Some(rest);
        }
    }
    match own {
        Some((number, rest)) if number == k as u64 => Some(rest),
        _ => None,
    }
}
