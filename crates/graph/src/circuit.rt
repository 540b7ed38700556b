//! What a circuit is made of.

ghost use Rattle.std.specs.Prelude.{◌≡◌, ◌%◌, ◌↔◌, IsTrue};
ghost use Rattle.graph.specs.Circuits.{variable as variable_of};

/// A literal (AIGER): variable `v` is `2v` and its negation is `2v + 1`; 0 is false and 1 is true.
#[derive(Clone, Copy, PartialEq, Eq)]
pub struct Lit(pub u32);

impl Lit {
    /// The variable, 0 for the constant.
    pub fn variable(self) -> u32
        ensures { result ≡ variable_of self }
    {
        self.0 / 2
    }

    /// Whether the literal is its variable's negation.
    pub fn is_negated(self) -> bool
        ensures { IsTrue result ↔ (self.0 % 2 ≡ 1) }
    {
        self.0 % 2 == 1
    }
}

/// A latch gets the value of `next` at each step. It begins with the value of `reset`: 0, 1,
/// or its own literal, which leaves it open.
#[derive(Clone, Copy, PartialEq, Eq)]
pub struct Latch {
    pub lit: Lit,
    pub next: Lit,
    pub reset: Lit,
}

/// A gate makes `lhs` the conjunction of its two right sides.
#[derive(Clone, Copy, PartialEq, Eq)]
pub struct Gate {
    pub lhs: Lit,
    pub rhs0: Lit,
    pub rhs1: Lit,
}

/// A property, by its position among its kind.
#[derive(Clone, Copy, PartialEq, Eq)]
pub enum Property {
    /// A bad literal: violated where a run sets it.
    Bad(u32),
    /// A justice property: violated by an infinite run that sets each wanted literal infinitely often.
    Justice(u32),
    /// An output of a circuit without bad literals, constraints, justice properties and fairness
    /// literals, taken as a bad literal: violated where a run sets it.
    Output(u32),
}

/// How a literal stands in a circuit's lists.
#[derive(Clone, Copy)]
pub(crate) enum Use {
    /// An input, a latch's literal or a gate's left side.
    Defines(Lit),
    /// A literal that is only used.
    Mentions(Lit),
    /// The reset of a latch.
    Resets(Latch),
}
