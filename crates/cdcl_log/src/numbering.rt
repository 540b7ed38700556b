//! The ids of a log's lines.
//!
//! The kernel gives the ids 1, 2 and so on. In a proof of the clauses with some units those have the ids
//! behind the clauses that were added. So the log leaves room for them.

ghost use Rattle.std.specs.Prelude.{◌≡◌, ◌<◌, ◌+◌, pos};
ghost use Rattle.cdcl_log.specs.Logged.{first_id, shifted};

/// How the ids of the lines follow from the kernel's, and which lines closings rest on.
#[derive(Clone, Copy)]
pub struct Numbering {
    /// how many clauses were added
    pub base: u32,
    /// how many ids are left out behind them
    pub room: u32,
    /// how many lines, the first ones, closings may rest on
    pub shared: usize,
}

impl Numbering {
    /// The id that a clause of the kernel has in the log.
    pub fn shifted(self, id: u32) -> i64
        ensures { result ≡ pos (shifted self id) }
    {
        if id > self.base {
            i64::from(id) + i64::from(self.room)
        } else {
            i64::from(id)
        }
    }

    /// The id of the first line.
    pub fn first_id(self) -> u64
        ensures { result ≡ first_id self }
    {
        u64::from(self.base) + u64::from(self.room) + 1
    }

    /// The id of the unit at an index, from 0.
    pub fn unit_id(self, index: usize) -> i64
        requires { index < 4294967296 }
        ensures { result ≡ pos (self.base + index + 1) }
    {
        i64::from(self.base) + index as i64 + 1
    }
}
