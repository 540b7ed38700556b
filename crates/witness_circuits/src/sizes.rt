//! How many variables there are.

ghost use Rattle.std.specs.Prelude.{◌≡◌, ◌+◌, ◌<◌, ◌≤◌, length, MatchOption};
ghost use Rattle.witness_circuits.specs.Witnesses.{gate_count as gate_count_of};

use base::Lists;
use graph::Lit;

/// The greatest variable that a circuit may have.
const MAX_VAR: usize = 4_194_303;

/// How many gates say whether all clauses are true, where these are no more than so many.
#[tactic(auto, using(crate::proofs::Rows::count_more))]
pub fn gate_count(invariant: &Lists<Lit>, most: usize) -> Option<usize>
    requires { most ≤ 4194303 }
    ensures { MatchOption result (most < gate_count_of invariant.now) (λ n. (n ≡ gate_count_of invariant.now) × (n ≤ most)) }
{
    let mut count = 0usize;
    for k in 0..invariant.len() {
        let length = invariant.list(k).len();
        if length >= most - count {
            return None;
        }
        count += length + 1;
    }
    Some(count)
}

/// How many variables are left behind so many, and these latches and gates.
pub fn variables_left(max_var: u32, latches: usize, gates: usize) -> Option<usize>
    requires { max_var ≤ 4194303 }
    ensures { MatchOption result (4194303 < max_var + latches + gates) (λ n. n + max_var + latches + gates ≡ 4194303) }
{
    let left = MAX_VAR - max_var as usize;
    if latches > left || gates > left - latches {
        return None;
    }
    Some(left - latches - gates)
}
