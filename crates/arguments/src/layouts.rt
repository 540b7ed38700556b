//! The layout in which a circuit is to be written.

ghost use Rattle.std.specs.Prelude.{◌≡◌, Some, None, true, false};
ghost use Rattle.arguments.specs.declared.layouts.AskedLayout.TheVariants.{Ascii, Binary, Named};

use clap::ArgMatches;

/// The layout that is asked for.
#[derive(Clone, Copy)]
pub enum AskedLayout {
    /// The one that the file's name ends in.
    Named,
    /// ASCII.
    Ascii,
    /// Binary.
    Binary,
}

/// The layout that is asked for, or nothing where both are.
fn layout_of(is_ascii: bool, is_binary: bool) -> Option<AskedLayout>
    ensures named { is_ascii ≡ false → is_binary ≡ false → result ≡ Some Named }
    ensures ascii { is_ascii ≡ true → is_binary ≡ false → result ≡ Some Ascii }
    ensures binary { is_ascii ≡ false → is_binary ≡ true → result ≡ Some Binary }
    ensures both { is_ascii ≡ true → is_binary ≡ true → result ≡ None }
{
    match (is_ascii, is_binary) {
        (false, false) => Some(AskedLayout::Named),
        (true, false) => Some(AskedLayout::Ascii),
        (false, true) => Some(AskedLayout::Binary),
        (true, true) => None,
    }
}

/// The layout that the words ask for, or nothing where they ask for both.
pub fn asked_layout(words: &ArgMatches<'_>) -> Option<AskedLayout> {
    layout_of(words.get_flag("ascii"), words.get_flag("binary"))
}
