//! The witness that all ids of clauses are taken.

ghost use Rattle.std.specs.Prelude.{◌≡◌, ◌≤◌, ◌<◌, ◌+◌, IfOk, OnOk, OnErr, length};
ghost use Rattle.std.specs.Mem.{type_size};
ghost use Rattle.base.specs.Sizes.{IsItemSize};

use std::fmt;

/// How many ids there are.
const IDS: u64 = 4_294_967_295;

/// All 4,294,967,295 ids of clauses are taken. Only `Taken::next_id` makes one, behind lists whose entries
/// have ids. A contract sees all of them as one value.
#[derive(Clone, Copy, Debug, PartialEq, Eq)]
pub struct Full {
    all_taken: (),
}

impl fmt::Display for Full {
    fn fmt<W: fmt::Write>(&self, f: &mut fmt::Formatter<W>) -> fmt::Result {
        write!(f, "more than 4294967295 clauses")
    }
}

/// How many ids are taken: one by each entry of a list, and those of a room that is left out.
#[derive(Clone, Copy, PartialEq, Eq)]
pub struct Taken {
    ids: u64,
}

impl Taken {
    /// The ids of the entries, which lie in memory, and a room for less than half of all ids.
    pub fn by<T>(entries: &[T], room: u32) -> Taken
        requires item { IsItemSize (type_size T.row) }
        requires room { room ≤ 2147483647 }
        requires few { length entries.now ≤ 4294967295 }
        ensures { result.ids ≡ length entries.now + room }
    {
        Taken {
            ids: entries.len() as u64 + u64::from(room),
        }
    }

    /// The id behind these and those of some units. It is refused where that would be over 4,294,967,295.
    pub fn next_id(self, units: &[i32]) -> Result<u32, Full>
        ensures value { IfOk result (λ id. id ≡ self.ids + length units.now + 1) }
        ensures few { OnOk result (self.ids + length units.now < 4294967295) }
        ensures full { OnErr result (4294967295 ≤ self.ids + length units.now) }
    {
        let taken = self.ids.saturating_add(units.len() as u64);
        if taken >= IDS {
            return Err(Full { all_taken: () });
        }
        Ok(taken as u32 + 1)
    }
}
