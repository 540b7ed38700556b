//! A signal that is true where another one is.

ghost use Rattle.std.specs.Prelude.{◌≡◌, IfOk, IsSome};
ghost use Rattle.signal_implications.specs.Implied.{clause_of};

use base::{Refused, Seq};
use graph::Lit;
use random_runs::Runs;
use signal_classes::Signal;
use simulate::lanes::{both, negated_if};
use std::alloc::Global;
use std::simd::u64x4;

/// Two signals, of which the second may be true wherever the first is.
#[derive(Clone, Copy)]
pub struct Implication {
    pub high: Signal,
    pub low: Signal,
}

impl Implication {
    /// The clause that says so.
    pub fn clause(self, alloc: Global) -> Result<Seq<Lit>, Refused>
        ensures { IfOk result (λ c. c ≡ clause_of self.high.now self.low.now) }
    {
        Seq::from_slice(alloc, &[self.high.negated().now, self.low.now])
    }

    /// The runs that violate it, a step later where that is wanted.
    pub fn violating(self, runs: &Runs<'_>, is_later: bool) -> u64x4
        requires stepped { IsSome runs.now.wide.now }
    {
        let low = negated_if(runs.value(self.low.at(is_later)), true);
        both(runs.value(self.high.at(is_later)), low)
    }
}
