//! An answer about one property alone.

ghost use Rattle.std.specs.Prelude.{◌≡◌, ◌≢◌, ◌⊎◌, ◌↔◌, Ok, Err, IsOkAnd, MatchResult};
ghost use Rattle.checker.specs.declared.answer_error.AnswerError.TheVariants.{Device, No};

use crate::answer_error::AnswerError;
use graph::Property;

/// The number of the refusal: the evidence is of another property.
const ANOTHER_PROPERTY: u8 = 30;

/// The answer to a question about this property: a yes to another one becomes a no.
pub fn about(
    property: Property,
    answer: Result<Property, AnswerError>,
) -> Result<Property, AnswerError>
    ensures says { MatchResult result (λ p. (p ≡ property) × (answer ≡ Ok p)) (λ s. (answer ≡ Err s) ⊎ ((s ≡ No 30) × IsOkAnd answer (λ p. p ≢ property))) }
    ensures device { (result ≡ Err Device) ↔ (answer ≡ Err Device) }
{
    match answer {
        Ok(named) if named != property => Err(AnswerError::No(ANOTHER_PROPERTY)),
        _ => answer,
    }
}
