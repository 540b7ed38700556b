//! The bytes that a reader has given, for clauses alone.

ghost use Rattle.std.specs.Prelude.{◌≡◌, ℕ, List, [], ◌++◌};
ghost use Rattle.std.specs.Borrow.{ftrue};

use std::marker::Model;

/// A list of bytes that only clauses read. It takes no memory, and its methods do nothing.
#[derive(Drop)]
pub struct Given {
    pub ghost bytes: { List ℕ },
}

impl Model for Given {
    ghost also_owns = { λ _. ftrue };
}

impl Given {
    /// No bytes.
    pub fn new() -> Given
        ensures { result.bytes ≡ [] }
    {
        Given {}
    }

    /// The same, and these bytes behind them.
    pub fn and(&self, _bytes: &[u8]) -> Given
        ensures { result.bytes ≡ self.now.bytes ++ _bytes.now }
    {
        Given {}
    }
}
