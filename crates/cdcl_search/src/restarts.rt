//! When to restart: to backtrack and begin anew.
//!
//! A search that decided badly first stays in a bad place for long; so after some conflicts it
//! backtracks, and keeps what it learned. The conflicts from one restart to the next follow the
//! sequence 1 1 2 1 1 2 4 .. (Luby, Sinclair, Zuckerman 1993), in hundreds, as in MiniSat.

/// The conflicts of the sequence's first term.
const UNIT: u64 = 100;

/// How far the sequence has come.
#[derive(Drop)]
pub struct Restarts {
    /// how many restarts there were
    count: u64,
    /// how many conflicts are left before the next
    left: u64,
}

impl Restarts {
    /// Before the first conflict.
    pub fn new() -> Restarts {
        Restarts {
            count: 0,
            left: UNIT,
        }
    }

    /// Counts a conflict, and tells whether a restart is due.
    pub fn is_due(&mut self) -> bool {
        self.left = self.left.saturating_sub(1);
        if self.left > 0 {
            return false;
        }
        self.count = self.count.saturating_add(1);
        self.left = luby(self.count).saturating_mul(UNIT);
        true
    }
}

/// The sequence 1 1 2 1 1 2 4 .., from index 0 on.
fn luby(index: u64) -> u64 {
    let mut rest = index.saturating_add(1);
    for _ in 0..64 {
        let size = block_of(rest);
        if size == rest {
            return size / 2 + 1;
        }
        rest = rest.saturating_sub(size / 2);
    }
    1
}

/// The least of 1, 3, 7, 15 .. that is not below the index.
fn block_of(index: u64) -> u64 {
    let mut size = 1u64;
    for _ in 0..63 {
        if size >= index {
            break;
        }
        size = size.saturating_mul(2).saturating_add(1);
    }
    size
}
