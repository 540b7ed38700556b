//! Random simulation of 256 runs at once.
//!
//! - `Random` is an engine. Each run that it finds was judged (`stimulus::judge`), and so shows the
//!   bad literal; where it finds none, the budget is exhausted. It has no other answer. Where its `Watch`
//!   says that it is over, it spends what is left of the budget.
//! - `LongRuns` is another one, whose inputs keep their values for a while, so that runs come far.
//! - `draw` gives a generator's next four words (PCG XSL RR 128/64, O'Neill 2014, as `rand_pcg` has
//!   it), one bit for each run: that of run `r` is bit `r mod 64` of word `r / 64`.
//!
//! A time costs one pass over the gates for all 256 runs (`simulate::Wide`). The memory is a bit for each run,
//! input and time played in one batch, and for each run, latch and variable.
#![tactic(auto)]

mod batch;
mod drawing;
mod long_runs;
mod random;
mod rows;
mod toggling;
mod watch;

pub use drawing::draw;
pub use long_runs::LongRuns;
pub use random::Random;
pub use watch::{Unwatched, Watch};
