//! Values that satisfy a case of clauses.

ghost use Rattle.std.specs.Prelude.{◌≡◌};
ghost use Rattle.graph.specs.Circuits.{value_of};

use graph::Lit;

/// One of the cases of clauses that are to be inductive. The clauses count from 0.
#[derive(Clone, Copy)]
pub enum Case {
    /// resets, gates and constraints hold, and the clause is false
    First(u64),
    /// gates and constraints hold at two times, all clauses at the first, and the clause is false at the second
    Step(u64),
    /// gates, constraints and all clauses hold, and the literal that is to be excluded is 1
    Last,
}

/// Values that satisfy a case. For a step they are a counterexample to induction (IC3 2011).
#[derive(Drop)]
pub struct Counterexample {
    /// the case
    pub case: Case,
    /// the value of each variable of the extended circuit, at the variable's place, and behind them
    /// for a step those of the next time
    pub values: Vec<bool>,
}

impl Counterexample {
    /// The value of a literal of the extended circuit at the first time. A variable beyond the values
    /// is false.
    pub fn value(&self, lit: Lit) -> bool
        ensures { result ≡ value_of self.now.values.items lit }
    {
        let at = match self.values.get(lit.variable() as usize) {
            Some(at) => *at,
            None => false,
        };
        if lit.is_negated() { !at } else { at }
    }
}
