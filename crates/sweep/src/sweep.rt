//! The questions.

ghost use Rattle.std.specs.Prelude.{◌≡◌, ◌+◌, All, IfOk, IfSome};
ghost use Rattle.lrat.specs.Literals.{IsLiteral};

use crate::equal_latches::EqualLatches;
use crate::equal_signals::EqualSignals;
use crate::near::Near;
use crate::pairs::{Pair, Pairs};
use crate::signals::signals_of;
use crate::unit::unit;
use base::{Refused, Seq, push};
use graph::{Lit, Model};
use solver::Part;
use std::alloc::Global;

/// How many steps a question may cost.
pub const STEPS: u64 = 2_000;

/// Whether two signals can differ: nothing satisfies these units where they cannot, in this direction.
#[derive(Drop)]
pub struct Question {
    /// the gates near the signals
    pub part: Part,
    /// the units
    pub units: Vec<i32>,
}

/// Questions about the signals of a circuit, one after the other.
#[derive(Drop)]
pub struct Sweep {
    near: Near,
    pairs: Pairs,
    /// what was asked about last
    pair: Option<Pair>,
    truth: u32,
}

impl std::marker::Model for Sweep {
    ghost use Rattle.std.specs.Prelude.{ℕ, ◌<◌, ◌≤◌};

    ghost Value = { ℕ };

    ghost view = { λ s. s.truth };

    ghost invariant = { λ s. (0 < s.truth) × (s.truth ≤ 2147483647) };
}

impl Sweep {
    /// The circuit's signals, where the latches are equal that the clauses say are so.
    pub fn new(alloc: Global, circuit: &Model, clauses: &[Seq<Lit>]) -> Result<Sweep, Refused>
        ensures { IfOk result (λ s. s ≡ circuit.now.max_var + 1) }
    {
        circuit.well_formed();
        let latches = EqualLatches::of(alloc, circuit, clauses)?;
        let signals = signals_of(alloc, circuit, latches.equal.as_slice())?;
        let equal = EqualSignals::new(alloc, circuit, latches.equal.as_slice())?;
        Ok(Sweep {
            near: Near::new(alloc, circuit)?,
            pairs: Pairs::new(alloc, signals, equal),
            pair: None,
            truth: circuit.max_var() + 1,
        })
    }

    /// How many signals there are.
    pub fn len(&self) -> usize {
        self.pairs.len()
    }

    /// The question whether the signal at an index can be true where an earlier one is false that it may be equal to. None where
    /// there is no such one. Each index is asked about once, in order.
    pub fn question(&mut self, alloc: Global, index: usize) -> Result<Option<Question>, Refused>
        ensures same { self.new ≡ self.old }
        ensures units { IfOk result (λ r. IfSome r (λ q. All (IsLiteral self.old) q.units.items)) }
    {
        self.pair = self.pairs.pair(self.near.table(), index)?;
        match self.pair {
            Some(pair) => Ok(Some(self.question_of(alloc, pair, pair.one, pair.other)?)),
            None => Ok(None),
        }
    }

    /// The last question the other way round.
    pub fn turned(&mut self, alloc: Global) -> Result<Option<Question>, Refused>
        ensures same { self.new ≡ self.old }
        ensures units { IfOk result (λ r. IfSome r (λ q. All (IsLiteral self.old) q.units.items)) }
    {
        match self.pair {
            Some(pair) => Ok(Some(self.question_of(alloc, pair, pair.other, pair.one)?)),
            None => Ok(None),
        }
    }

    /// Whether of a pair's literals this one can be true where that one is false. What is false comes first: so a search that
    /// shows that it is not so learns the clause of both.
    fn question_of(
        &mut self,
        alloc: Global,
        pair: Pair,
        high: Lit,
        low: Lit,
    ) -> Result<Question, Refused>
        ensures same { self.new ≡ self.old }
        ensures units { IfOk result (λ q. All (IsLiteral self.old) q.units.items) }
    {
        let part = self.near.part_of_pair(alloc, &self.pairs.equal, pair)?;
        let mut units = Vec::new(alloc);
        push(&mut units, unit(self.truth, Lit(low.0 ^ 1)))?;
        push(&mut units, unit(self.truth, high))?;
        Ok(Question { part, units })
    }

    /// Notes that the signals that were asked about last are equal. Later questions read the earlier one in place of the other.
    pub fn merge(&mut self)
        ensures { self.new ≡ self.old }
    {
        if let Some(pair) = self.pair {
            self.pairs.equal.merge(pair.one, pair.other);
        }
    }
}
