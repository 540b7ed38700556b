//! Names of bits, and of the vectors that they are of.

ghost use Rattle.std.specs.Prelude.{◌≡◌, ◌<◌, ◌++◌, codes, decimal, length, slice_index, IfSome};
ghost use Rattle.wave_signals.specs.Bits.{IsSplit};

use scan::{Kinds, number};

/// What a fault of a number is called here.
const NO_NUMBER: Kinds<()> = Kinds {
    truncated: (),
    number: (),
    over: (),
    byte: (),
};

/// The position of the last bracket that opens, where a byte stands before it.
fn last_open(name: &[u8]) -> Option<usize>
    ensures { IfSome result (λ k. (k < length name.now) × (slice_index name.now k ≡ 91)) }
{
    for k in (1..name.len()).rev() {
        if name[k] == b'[' {
            return Some(k);
        }
    }
    None
}

/// The two parts of a name `base[number]`, the number in its shortest decimal digits.
fn indexed(name: &[u8]) -> Option<(&[u8], u32)>
    ensures { IfSome result (λ x. name.now ≡ x.0.now ++ codes "[" ++ decimal x.1 ++ codes "]") }
{
    let Some(open) = last_open(name) else {
        return None;
    };
    let Ok((index, rest)) = number(&name[open + 1..], u32::MAX, NO_NUMBER) else {
        return None;
    };
    if rest != b"]".as_slice() {
        return None;
    }
    Some((&name[..open], index))
}

/// The name without the index that it ends in, and that index, where it ends in one.
pub fn split_name(name: &[u8]) -> (&[u8], Option<u32>)
    ensures { IsSplit name.now result.0.now result.1 }
{
    match indexed(name) {
        Some((base, index)) => (base, Some(index)),
        None => (name, None),
    }
}
