//! Pairs of signals that may be equal.

use crate::equal_signals::EqualSignals;
use crate::signals::Signals;
use base::{Refused, insert};
use cones::GateTable;
use graph::Lit;
use std::alloc::Global;
use std::collections::BTreeMap;

/// How many gates are looked at for two signals that have equal values.
const MANY: usize = 100;

/// How many for two gates that read equal signals.
const FEW: usize = 2;

/// Two literals that may be equal.
#[derive(Clone, Copy)]
pub(crate) struct Pair {
    pub one: Lit,
    pub other: Lit,
    /// how many gates are looked at to see it
    pub gates: usize,
}

/// The signals of a circuit, and what is known of those before one.
#[derive(Drop)]
pub(crate) struct Pairs {
    signals: Signals,
    pub equal: EqualSignals,
    /// the first signal with each number
    firsts: BTreeMap<u64, Lit>,
}

impl Pairs {
    /// Nothing is known but of latches.
    pub(crate) fn new(alloc: Global, signals: Signals, equal: EqualSignals) -> Pairs {
        Pairs {
            signals,
            equal,
            firsts: BTreeMap::new(alloc),
        }
    }

    /// How many signals there are.
    pub(crate) fn len(&self) -> usize {
        self.signals.lits.len()
    }

    /// The signal with an earlier one that has the same number. Where none has it, this is the first.
    fn numbered(&mut self, one: Lit, number: u64) -> Result<Option<Pair>, Refused> {
        if let Some(other) = self.firsts.get(&number) {
            let other = *other;
            return Ok(Some(Pair {
                one,
                other,
                gates: MANY,
            }));
        }
        insert(&mut self.firsts, number, one)?;
        Ok(None)
    }

    /// The signal at an index with an earlier one that it may be equal to, and is not known to be: a gate with one that reads
    /// equal signals, else a signal with one that has the same values in all states. Each index is asked about once, in order.
    pub(crate) fn pair(
        &mut self,
        table: &GateTable,
        index: usize,
    ) -> Result<Option<Pair>, Refused> {
        let Some(one) = self.signals.lits.get(index).copied() else {
            return Ok(None);
        };
        if self.equal.first(one).0 != one.0 {
            return Ok(None);
        }
        if let Some(gate) = table.gate_of(one.variable())
            && let Some(other) = self.equal.hashed(gate)?
        {
            return Ok(Some(Pair {
                one: gate.lhs,
                other,
                gates: FEW,
            }));
        }
        let number = self.signals.numbers.get(index).copied().unwrap_or(0);
        self.numbered(one, number)
    }
}
