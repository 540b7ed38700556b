//! One run's values among those of 256.

ghost use Rattle.std.specs.Prelude.{◌≡◌, ◌<◌, IfOk};
ghost use Rattle.simulate.specs.Lanes.{row_of, rows_of};

use base::{Refused, Seq, push};
use simulate::lanes::value;
use std::alloc::Global;
use std::simd::u64x4;

/// One run's values.
pub fn row(alloc: Global, lanes: &[u64x4], run: u32) -> Result<Seq<bool>, Refused>
    requires { run < 256 }
    ensures { IfOk result (λ row. row ≡ row_of run lanes.now) }
{
    let mut values = Vec::new(alloc);
    for each in lanes {
        push(&mut values, value(*each, run))?;
    }
    Ok(Seq::from_vec(values))
}

/// One run's values at each time.
pub fn rows(alloc: Global, times: &[Seq<u64x4>], run: u32) -> Result<Seq<Seq<bool>>, Refused>
    requires { run < 256 }
    ensures { IfOk result (λ rows. rows ≡ rows_of run times.now) }
{
    let mut lines = Vec::new(alloc);
    for time in times {
        push(&mut lines, row(alloc, time.as_slice(), run)?)?;
    }
    Ok(Seq::from_vec(lines))
}
