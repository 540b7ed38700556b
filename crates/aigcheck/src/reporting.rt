//! What JSON says of a property that was judged.

ghost use Rattle.std.specs.Prelude.{◌≡◌, None, IfSome, IsTrue, false, codes};
ghost use Rattle.aigcheck.specs.declared.counts.Shown.TheVariants.{Nothing, Safe, Violated};

use crate::counts::Shown;
use crate::exit_error::{ExitError, given};
use graph::{AigerFile, Property};
use property_names::{Line, symbol_of};
use std::time::{Duration, Instant};

/// What the judge says of a file with evidence.
#[derive(Drop)]
pub struct Said {
    /// the file's name
    pub name: String,
    /// whether it is accepted
    pub is_yes: bool,
    /// the number of the no, where it is one
    pub number: Option<u8>,
}

/// The word for what is shown, by the file that was judged last, where there is one.
fn word_of(shown: Shown, last: &Option<Said>) -> &'static str
    ensures safe { shown ≡ Safe → result.now ≡ codes "safe" }
    ensures violated { shown ≡ Violated → result.now ≡ codes "violated" }
    ensures refused { shown ≡ Nothing → IfSome last.now (λ _. result.now ≡ codes "refused") }
    ensures none { shown ≡ Nothing → last.now ≡ None → result.now ≡ codes "none" }
{
    match shown {
        Shown::Safe => "safe",
        Shown::Violated => "violated",
        Shown::Nothing if last.is_some() => "refused",
        Shown::Nothing => "none",
    }
}

/// Whether the file that was judged last is accepted, or nothing where none was judged.
fn checked(last: &Option<Said>) -> &'static str
    ensures yes { IfSome last.now (λ said. IsTrue said.is_yes → result.now ≡ codes "true") }
    ensures no { IfSome last.now (λ said. said.is_yes ≡ false → result.now ≡ codes "false") }
    ensures none { last.now ≡ None → result.now ≡ codes "null" }
{
    match last {
        Some(said) if said.is_yes => "true",
        Some(_) => "false",
        None => "null",
    }
}

/// How long it took since then, where the clock says so.
fn time_since(rt: &HostRuntime, begun: Option<Instant>) -> Option<Duration> {
    let begun = begun?;
    match Instant::now(rt) {
        Ok(now) => Some(now.duration_since(begun)),
        Err(_) => None,
    }
}

/// Puts what JSON says of the property of the circuit in the file of this name: what is shown of it, the file that was
/// judged last, whether it is accepted, and the number of its no. It takes no memory.
pub fn put_shown(
    rt: &HostRuntime,
    circuit: &str,
    file: &AigerFile,
    property: Property,
    shown: Shown,
    last: &Option<Said>,
    begun: Option<Instant>,
) -> Result<(), ExitError> {
    let (evidence, number) = match last {
        Some(said) => (Some(said.name.as_str()), said.number),
        None => (None, None),
    };
    let line = Line {
        file: circuit,
        property,
        symbol: symbol_of(file, property),
        verdict: word_of(shown, last),
        evidence,
        time: time_since(rt, begun),
    };
    let checked = checked(last);
    given(match number {
        Some(number) => println!(rt; "{line},\"checked\":{checked},\"number\":{number}}}"),
        None => println!(rt; "{line},\"checked\":{checked},\"number\":null}}"),
    })
}
