//! The steps that a search may still take.

ghost use Rattle.std.specs.Prelude.{◌≡◌, ◌+◌, ◌-◌, ◌<◌, true, false};

use std::marker::Model;

/// A budget of steps. What is spent and what is left are together what it began with.
#[derive(Drop)]
pub struct Budget {
    total: u64,
    spent: u64,
}

impl Model for Budget {
    ghost use Rattle.std.specs.Prelude.{◌≤◌, ◌-◌};
    ghost use Rattle.base.specs.Budget.{Steps};

    ghost Value = { Steps };

    ghost view = { λ b. record { spent = b.spent; left = b.total - b.spent } };

    ghost invariant = { λ b. b.spent ≤ b.total };
}

impl Budget {
    ghost use Rattle.base.specs.Budget.{Spends};

    /// A budget of `n` steps, of which none is spent.
    pub fn new(n: u64) -> Budget
        ensures { result ≡ record { spent = 0; left = n } }
    {
        Budget { total: n, spent: 0 }
    }

    /// Spends one step and answers true, where one is left.
    pub fn tick(&mut self) -> bool
        ensures some { 0 < self.old.left → (result ≡ true) × (self.new.spent ≡ self.old.spent + 1) × (self.new.left + 1 ≡ self.old.left) }
        ensures none { self.old.left ≡ 0 → (result ≡ false) × (self.new ≡ self.old) }
        ensures spends { Spends self.old self.new }
    {
        if self.spent < self.total {
            self.spent += 1;
            true
        } else {
            false
        }
    }

    /// Spends so many steps, or all that are left where these are fewer.
    pub fn spend(&mut self, steps: u64)
        ensures left { self.new.left ≡ self.old.left - steps }
        ensures spends { Spends self.old self.new }
    {
        self.spent += steps.min(self.total - self.spent);
    }

    /// How many steps are spent.
    pub fn spent(&self) -> u64
        ensures { result ≡ self.now.spent }
    {
        self.spent
    }

    /// How many steps are left.
    pub fn left(&self) -> u64
        ensures { result ≡ self.now.left }
    {
        self.total - self.spent
    }
}
