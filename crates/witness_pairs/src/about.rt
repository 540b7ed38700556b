//! The literal that a witness circuit is about.

ghost use Rattle.std.specs.Prelude.{◌≡◌, ◌≢◌, ◌∷◌, [], IfErr, IfOk, length};
ghost use Rattle.witness_pairs.specs.Pairs.{IsAbout, IsRefused};
ghost use Rattle.witness_pairs.specs.declared.pair_error.PairError.TheVariants.{Bad};

use crate::pair_error::PairError;
use graph::{Lit, Model};

/// The only one of the literals.
fn only(lits: &[Lit]) -> Result<Lit, PairError>
    ensures about { IfOk result (λ a. lits.now ≡ a ∷ []) }
    ensures refused { IfErr result (λ e. (e ≡ Bad (length lits.now)) × (length lits.now ≢ 1)) }
{
    match lits {
        [lit] => Ok(*lit),
        _ => Err(PairError::Bad(lits.len() as u64)),
    }
}

/// The literal that a witness is about: its one bad literal, or the one output that is taken as one.
pub fn bad_of(witness: &Model) -> Result<Lit, PairError>
    ensures about { IfOk result (IsAbout witness.now) }
    ensures refused { IfErr result (IsRefused witness.now) }
{
    if witness.parts().are_outputs_bad() {
        only(witness.outputs())
    } else {
        only(witness.bad())
    }
}
