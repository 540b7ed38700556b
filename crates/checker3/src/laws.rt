//! What a refusal says, as a law: the function does nothing when it runs.

ghost use Rattle.checker3.specs.Laws.{RefusedLaw};

/// A certificate with a cause is not accepted: each certificate that is accepted gets a yes.
pub fn refused_law()
    ensures { RefusedLaw }
{}
