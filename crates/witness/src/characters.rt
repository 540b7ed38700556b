//! The characters and the words of loose texts.

use graph::Property;
use scan::{Kinds, number};

/// The faults of a position, of which none is reported.
const IN_POSITION: Kinds<()> = Kinds {
    truncated: (),
    number: (),
    over: (),
    byte: (),
};

/// What parts words: a space, a tab, or what else ends a line.
pub fn is_blank(byte: u8) -> bool {
    byte.is_ascii_whitespace() || byte == 11
}

/// The value that a character stands for, if it is one.
pub fn value_of(byte: u8) -> Option<Option<bool>> {
    match byte {
        b'0' => Some(Some(false)),
        b'1' => Some(Some(true)),
        b'x' | b'X' | b'?' | b'-' => Some(None),
        _ => None,
    }
}

/// The position that the digits spell, in canonical decimal.
fn position_of(digits: &[u8]) -> Option<u32> {
    match number(digits, u32::MAX, IN_POSITION) {
        Ok((position, [])) => Some(position),
        _ => None,
    }
}

/// The property that a word names, if it names one.
pub fn property_of(word: &[u8]) -> Option<Property> {
    let [kind, digits @ ..] = word else {
        return None;
    };
    let position = position_of(digits)?;
    match kind {
        b'b' => Some(Property::Bad(position)),
        b'j' => Some(Property::Justice(position)),
        b'o' => Some(Property::Output(position)),
        _ => None,
    }
}
