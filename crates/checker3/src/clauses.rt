//! The clauses of a certificate.

ghost use Rattle.std.specs.Prelude.{◌↔◌, All, IfNone, IfSome, IsTrue};
ghost use Rattle.extension.specs.Inductive.{IsOverAll};
ghost use Rattle.checker3.specs.Judged.{IsOutside};

use base::Lists;
use graph::{Lit, Model};

/// Whether each literal is one of the circuit's, or constant.
fn is_over(circuit: &Model, clause: &[Lit]) -> bool
    ensures { IsTrue result ↔ IsOverAll circuit.now clause.now }
{
    circuit.well_formed();
    let most = 2 * circuit.max_var() + 1;
    clause.iter().all(|lit| lit.0 <= most)
}

/// The first clause with a literal outside of the circuit.
pub fn first_outside(circuit: &Model, invariant: &Lists<Lit>) -> Option<u64>
    ensures none { IfNone result (All (IsOverAll circuit.now) invariant.now) }
    ensures some { IfSome result (λ k. IsOutside circuit.now invariant.now k) }
{
    for k in 0..invariant.len() {
        if !is_over(circuit, invariant.list(k)) {
            return Some(k as u64);
        }
    }
    None
}
