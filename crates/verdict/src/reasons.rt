//! Which of two reasons is reported, and the reason of an answer.

ghost use Rattle.std.specs.Prelude.{◌≡◌};
ghost use Rattle.verdict.specs.Reasons.{reason_in, reason_of, weightier_of};

use crate::decide_error::DecideError;
use crate::verdict::Verdict;
use engine::Reason;

/// The reason that is reported where there are two: that the budget is exhausted, or else the
/// greater depth, or else that there was no evidence.
pub fn weightier(told: Reason, found: Reason) -> Reason
    ensures { result ≡ weightier_of told found }
{
    match (told, found) {
        (Reason::Budget, _) | (_, Reason::Budget) => Reason::Budget,
        (Reason::Depth(steps), Reason::Depth(more)) => Reason::Depth(steps.max(more)),
        (Reason::Depth(steps), Reason::NoEvidence) => Reason::Depth(steps),
        (Reason::NoEvidence, found) => found,
    }
}

/// The reason of a verdict that is unknown.
fn verdict_reason(verdict: &Verdict) -> Option<Reason>
    ensures { result ≡ reason_in verdict.now }
{
    match verdict {
        Verdict::Safe(_) => None,
        Verdict::Unsafe(_) => None,
        Verdict::Unknown(reason) => Some(*reason),
    }
}

/// The reason of an answer that is such a verdict; evidence and a refusal have none.
pub fn reason(answer: &Result<Verdict, DecideError>) -> Option<Reason>
    ensures { result ≡ reason_of answer.now }
{
    match answer {
        Ok(verdict) => verdict_reason(verdict),
        Err(_) => None,
    }
}
