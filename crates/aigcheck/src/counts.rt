//! How many properties the evidence in a folder shows safe, and how many violated.

ghost use Rattle.std.specs.Prelude.{◌≡◌, ◌+◌, ◌<◌, ◌⊎◌, ◌↔◌};
ghost use Rattle.aigcheck.specs.declared.counts.Shown.TheVariants.{Safe, Violated, Nothing};

use crate::status::{NO, UNKNOWN, YES};

/// What accepted evidence shows of a property.
#[derive(Clone, Copy, PartialEq, Eq)]
pub enum Shown {
    /// A certificate is accepted: it holds.
    Safe,
    /// A stimulus is accepted: it is violated.
    Violated,
    /// No evidence is accepted, or none is there.
    Nothing,
}

/// How many properties are shown safe, how many violated, and how many are without accepted evidence.
#[derive(Clone, Copy)]
pub struct Counts {
    /// how many are shown safe
    pub safe: u32,
    /// how many are shown violated
    pub violated: u32,
    /// how many are without accepted evidence
    pub without: u32,
}

impl Counts {
    /// No property is counted.
    pub const NONE: Counts = Counts {
        safe: 0,
        violated: 0,
        without: 0,
    };

    /// The counts with one property more: 4,294,967,295 is the most of each.
    pub fn with(self, shown: Shown) -> Counts
        ensures one_safe { shown ≡ Safe → self.safe < 4294967295 → result ≡ record self { safe = self.safe + 1 } }
        ensures one_violated { shown ≡ Violated → self.violated < 4294967295 → result ≡ record self { violated = self.violated + 1 } }
        ensures one_without { shown ≡ Nothing → self.without < 4294967295 → result ≡ record self { without = self.without + 1 } }
        ensures safe { (0 < result.safe) ↔ ((0 < self.safe) ⊎ (shown ≡ Safe)) }
        ensures violated { (0 < result.violated) ↔ ((0 < self.violated) ⊎ (shown ≡ Violated)) }
        ensures without { (0 < result.without) ↔ ((0 < self.without) ⊎ (shown ≡ Nothing)) }
    {
        let mut counts = self;
        match shown {
            Shown::Safe => counts.safe = counts.safe.saturating_add(1),
            Shown::Violated => counts.violated = counts.violated.saturating_add(1),
            Shown::Nothing => counts.without = counts.without.saturating_add(1),
        }
        counts
    }

    /// The status of `all`: 1 where a property is shown violated; else 2 where one is without accepted
    /// evidence, or none is counted; else 0.
    pub fn status(self) -> u8
        ensures violated { 0 < self.violated → result ≡ 1 }
        ensures unknown { self.violated ≡ 0 → 0 < self.without → result ≡ 2 }
        ensures none { self.violated ≡ 0 → self.safe ≡ 0 → result ≡ 2 }
        ensures safe { self.violated ≡ 0 → self.without ≡ 0 → 0 < self.safe → result ≡ 0 }
    {
        if self.violated > 0 {
            NO
        } else if self.without > 0 || self.safe == 0 {
            UNKNOWN
        } else {
            YES
        }
    }
}
