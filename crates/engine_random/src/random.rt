//! The engine.

ghost use Rattle.std.specs.Prelude.{◌≡◌, ◌≤◌, IfErr, IfOk};
ghost use Rattle.base.specs.Budget.{Spends};
ghost use Rattle.base.specs.Witness.{witness};
ghost use Rattle.engine.specs.Findings.{IsForBad, IsSo};
ghost use Rattle.engine_random.specs.Findings.{IsRunOrSpent};

use crate::batch::Batch;
use crate::watch::{Unwatched, Watch};
use base::{Budget, Refused};
use engine::{Counters, Engine, EngineError, Finding, Reason};
use graph::Model;
use rand_core::SeedableRng;
use rand_pcg::Lcg128Xsl64;
use std::alloc::Global;

/// Random simulation of 256 runs at once, for up to `depth` steps, batch after batch.
///
/// Each call draws anew from `Lcg128Xsl64::seed_from_u64(seed)`: at a batch's start for each latch that
/// its reset leaves open, then at each time for each input, in their order. A time that is played is a
/// step of the budget, and is counted before its words are drawn. A batch ends at its depth or where no
/// run is in. Where the watch says that it is over, what is left of the budget is spent.
#[derive(Drop)]
pub struct Random<W> {
    seed: u64,
    depth: u32,
    watch: W,
    /// how many batches were begun
    batches: u64,
}

impl<W> std::marker::Model for Random<W> {
    ghost use Rattle.std.specs.Prelude.{◌≤◌};
    ghost use Rattle.engine_random.specs.Settings.{Settings};

    ghost Value = { Settings };

    ghost view = { λ r. record { seed = r.seed; depth = r.depth } };

    ghost invariant = { λ r. r.depth ≤ 255 };
}

impl Random<Unwatched> {
    /// Random simulation from this seed, of runs of up to `depth` steps.
    pub fn new(seed: u64, depth: u32) -> Random<Unwatched>
        requires { depth ≤ 255 }
        ensures { result ≡ record { seed = seed; depth = depth } }
    {
        Random {
            seed,
            depth,
            watch: Unwatched,
            batches: 0,
        }
    }

    /// The same, until the watch says that it is over.
    pub fn with_watch<W: Watch>(self, watch: W) -> Random<W>
        ensures { result ≡ self }
    {
        Random {
            seed: self.seed,
            depth: self.depth,
            watch,
            batches: self.batches,
        }
    }
}

/// Plays batch after batch of 256 runs, from the seed on, and counts them. Answers the first run that sets the bad literal.
fn play_all<W: Watch>(
    alloc: Global,
    circuit: &Model,
    seed: u64,
    depth: u32,
    watch: &W,
    batches: &mut u64,
    budget: &mut Budget,
) -> Result<Finding, EngineError>
    requires for_bad { IsForBad circuit.now }
    requires small { depth ≤ 255 }
    ensures spends { Spends budget.old budget.new }
    ensures so { IfOk result (IsSo circuit.now budget.new) }
    ensures kinds { IfOk result IsRunOrSpent }
    ensures memory { IfErr result (λ e. e ≡ EngineError.OutOfMemory witness) }
{
    let mut generator = Lcg128Xsl64::seed_from_u64(seed);
    'playing: while !watch.is_over() && budget.tick() {
        *batches = batches.saturating_add(1);
        let mut batch = Batch::begin(alloc, circuit, &mut generator)?;
        let found = batch.play(alloc, &mut generator, depth, watch, budget)?;
        if let Some(finding) = found {
            return Ok(finding);
        }
    }
    let left = budget.left();
    budget.spend(left);
    Ok(Finding::Unknown(Reason::Budget))
}

impl<W: Watch> Engine for Random<W> {
    ghost use Rattle.engine.specs.declared.engine_error.EngineError.TheVariants.{OutOfMemory};

    ghost honest = { λ _. Unit {0} };

    ghost answers = { λ _ m _ r after. IfOk r (IsSo m after) × IfOk r IsRunOrSpent × IfErr r (λ e. e ≡ OutOfMemory witness) };

    /// Plays batch after batch of 256 runs, from the seed on, and answers the first run that sets the
    /// bad literal.
    fn find(
        &mut self,
        alloc: Global,
        circuit: &Model,
        budget: &mut Budget,
    ) -> Result<Finding, EngineError>
        requires { IsForBad circuit.now }
        ensures spends { Spends budget.old budget.new }
        ensures same { self.new ≡ self.old }
        ensures so { IfOk result (IsSo circuit.now budget.new) }
        ensures kinds { IfOk result IsRunOrSpent }
        ensures memory { IfErr result (λ e. e ≡ EngineError.OutOfMemory witness) }
    {
        play_all(
            alloc,
            circuit,
            self.seed,
            self.depth,
            &self.watch,
            &mut self.batches,
            budget,
        )
    }

    fn count(&self, counters: &mut Counters) -> Result<(), Refused> {
        counters.add("random", "batches of 256 runs", self.batches)
    }
}
