//! Whether clauses are over a circuit.

ghost use Rattle.std.specs.Prelude.{◌↔◌, ◌≤◌, All, IsTrue, length};
ghost use Rattle.extension.specs.Inductive.{IsOverAll};

use base::Lists;
use graph::{Lit, MOST_VARIABLES, Model};

/// The most clauses that a certificate may have.
const MOST_CLAUSES: usize = MOST_VARIABLES as usize;

/// Whether each literal is one of the circuit's, or constant.
pub fn is_over(circuit: &Model, clause: &[Lit]) -> bool
    ensures { IsTrue result ↔ IsOverAll circuit.now clause.now }
{
    circuit.well_formed();
    let most = 2 * circuit.max_var() + 1;
    clause.iter().all(|lit| lit.0 <= most)
}

/// Whether each literal of the clauses is.
fn are_all_over(circuit: &Model, invariant: &Lists<Lit>) -> bool
    ensures { IsTrue result → All (IsOverAll circuit.now) invariant.now }
{
    for k in 0..invariant.len() {
        if !is_over(circuit, invariant.list(k)) {
            return false;
        }
    }
    true
}

/// Whether the clauses are no more than a certificate may have, each over the circuit.
pub fn are_over(circuit: &Model, invariant: &Lists<Lit>) -> bool
    ensures few { IsTrue result → length invariant.now ≤ 4194303 }
    ensures over { IsTrue result → All (IsOverAll circuit.now) invariant.now }
{
    invariant.len() <= MOST_CLAUSES && are_all_over(circuit, invariant)
}
