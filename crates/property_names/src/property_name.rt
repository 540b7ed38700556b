//! Properties by their names.

ghost use Rattle.std.specs.Prelude.{◌≡◌, ◌<◌, ◌^◌, ℕ, Some, IfSome, decimal};
ghost use Rattle.graph.specs.Circuits.{position_of, property_text};
ghost use Rattle.graph.specs.declared.circuit.Property.{Property as AProperty};

use graph::Property;
use scan::{Kinds, number};

/// Faults of a position, which are not told apart.
const FAULTS: Kinds<()> = Kinds {
    truncated: (),
    number: (),
    over: (),
    byte: (),
};

/// The number that the digits are in canonical decimal.
fn position(digits: &[u8]) -> Option<u32>
    ensures spelled { IfSome result (λ n. digits.now ≡ decimal n) }
    ensures only { (n : ℕ) → digits.now ≡ decimal n → n < 2 ^ 32 → result ≡ Some n }
{
    let Ok((position, rest)) = number(digits, u32::MAX, FAULTS) else {
        return None;
    };
    if rest.is_empty() {
        Some(position)
    } else {
        None
    }
}

/// The property that a word names: `b` for a bad literal, `j` for a justice property or `o` for an
/// output, and its position without needless zeros.
pub fn property_named(word: &str) -> Option<Property>
    ensures named { IfSome result (λ p. word.now ≡ property_text p) }
    ensures only { (p : AProperty) → word.now ≡ property_text p → position_of p < 2 ^ 32 → result ≡ Some p }
{
    match word.as_bytes() {
        [b'b', digits @ ..] => Some(Property::Bad(position(digits)?)),
        [b'j', digits @ ..] => Some(Property::Justice(position(digits)?)),
        [b'o', digits @ ..] => Some(Property::Output(position(digits)?)),
        _ => None,
    }
}
