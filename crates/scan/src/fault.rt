//! Why a text is refused.

ghost use Rattle.base.specs.Witness.{witness};
ghost use Rattle.std.specs.Prelude.{◌≡◌, ◌-◌};
ghost use Rattle.scan.specs.declared.fault.Fault.TheVariants.{Memory};

use base::Refused;

/// What a reading function answers where it has no value. Each reader has refusals `K` of its
/// own, so that its type says which of them can come.
#[derive(Clone, Copy)]
pub enum Fault<K> {
    /// A growth was refused.
    Memory(Refused),
    /// The text is refused at a place from which `left` bytes of it remain.
    Text {
        /// What is wrong there.
        kind: K,
        /// How many bytes of the text remain from that place on.
        left: usize,
    },
}

impl<K> From<Refused> for Fault<K> {
    ghost from_gives = { λ _ e. e ≡ Memory witness };

    fn from(refused: Refused) -> Fault<K> {
        Fault::Memory(refused)
    }
}

/// What a reader calls the faults of a number and of the bytes about it.
#[derive(Clone, Copy)]
pub struct Kinds<K> {
    /// The text ends where a byte is needed. Its place is the text's end.
    pub truncated: K,
    /// No digit, or a 0 before another digit. Its place is the number's first byte.
    pub number: K,
    /// A number over its limit. Its place is the number's first byte.
    pub over: K,
    /// Another byte than is needed. Its place is that byte.
    pub byte: K,
}

/// The place of a fault in a text of `length` bytes: how many bytes stand before it.
pub fn place(length: usize, left: usize) -> u64
    ensures { result ≡ length - left }
{
    length.saturating_sub(left) as u64
}
