//! How the program ends.

ghost use Rattle.std.specs.Prelude.{◌≡◌, IsTrue, false};

/// The status of a yes, and of `all` where each property is shown safe and the circuit has one.
pub const YES: u8 = 0;
/// The status of a no, and of `all` where a property is shown violated.
pub const NO: u8 = 1;
/// The status of `all` where no property is shown violated, but one is without accepted evidence, or the
/// circuit has none.
pub const UNKNOWN: u8 = 2;
/// The status where there is no answer.
pub const FAULT: u8 = 3;

/// The status of an answer.
pub fn status_of(yes: bool) -> u8
    ensures yes { IsTrue yes → result ≡ 0 }
    ensures no { yes ≡ false → result ≡ 1 }
{
    if yes { YES } else { NO }
}
