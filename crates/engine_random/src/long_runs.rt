//! The engine for long runs.

ghost use Rattle.std.specs.Prelude.{◌≡◌, ◌<◌, IfErr, IfOk, IfSome, IsSome};
ghost use Rattle.base.specs.Budget.{Spends};
ghost use Rattle.base.specs.Witness.{witness};
ghost use Rattle.engine.specs.Findings.{IsForBad, IsSo};
ghost use Rattle.engine_random.specs.Findings.{IsJudged, IsRunOrSpent};

use crate::batch::judged;
use crate::rows::row;
use crate::toggling::{BatchPlan, Toggled};
use crate::watch::{Unwatched, Watch};
use base::{Budget, Refused, Seq};
use engine::{Counters, Engine, EngineError, Finding, Reason};
use graph::Model;
use random_runs::Runs;
use simulate::lanes::{both, lowest};
use std::alloc::Global;
use std::simd::u64x4;

/// So many inputs are looked at in 256 runs for a step, so many latches, and so many gates.
const SIZE_A_STEP: usize = 64;

/// Random simulation of 256 runs at once, whose inputs keep their values for a while, batch after batch. Some batches are long.
///
/// A batch costs a step, and so does a time, with one more for each 64 inputs, each 64 latches and each 64 gates. Where the watch
/// says that it is over, what is left of the budget is spent.
#[derive(Drop)]
pub struct LongRuns<W> {
    seed: u64,
    watch: W,
    /// how many batches were begun
    batches: u64,
}

impl<W> std::marker::Model for LongRuns<W> {
    ghost use Rattle.std.specs.Prelude.{ℕ};

    ghost Value = { ℕ };

    ghost view = { λ r. r.seed };
}

impl LongRuns<Unwatched> {
    /// Random simulation of long runs from this seed.
    pub fn new(seed: u64) -> LongRuns<Unwatched>
        ensures { result ≡ seed }
    {
        LongRuns {
            seed,
            watch: Unwatched,
            batches: 0,
        }
    }

    /// The same, until the watch says that it is over.
    pub fn with_watch<W: Watch>(self, watch: W) -> LongRuns<W>
        ensures { result ≡ self }
    {
        LongRuns {
            seed: self.seed,
            watch,
            batches: self.batches,
        }
    }
}

/// How many steps a time costs besides the first.
fn price_of(circuit: &Model) -> u64 {
    let latches = circuit.latches().len() / SIZE_A_STEP;
    let gates = circuit.gates().len() / SIZE_A_STEP;
    (circuit.inputs().len() / SIZE_A_STEP) as u64 + latches as u64 + gates as u64
}

/// The runs that are in and set the bad literal at the time that was stepped last.
fn bad_runs(runs: &Runs, circuit: &Model) -> u64x4
    requires { IsSome runs.now.wide.now }
{
    let mut bad = runs.running();
    for lit in circuit.parts().bad.as_slice() {
        bad = both(bad, runs.value(*lit));
    }
    bad
}

/// The run of a batch that is drawn once more, up to so many times, where it is judged to show the bad literal.
fn drawn_again(
    alloc: Global,
    circuit: &Model,
    plan: BatchPlan,
    times: u64,
    run: u32,
) -> Result<Option<Finding>, EngineError>
    requires { run < 256 }
    ensures so { IfOk result (λ found. IfSome found (IsJudged circuit.now)) }
    ensures memory { IfErr result (λ e. e ≡ EngineError.OutOfMemory witness) }
{
    let mut drawn = Toggled::begin(alloc, circuit, plan)?;
    let initial = row(alloc, drawn.first(), run)?;
    let mut inputs = Seq::new(alloc);
    for _ in 0..times {
        drawn.advance();
        inputs.push(row(alloc, drawn.inputs(), run)?)?;
    }
    judged(alloc, circuit, initial, inputs)
}

/// Plays a batch until a run that is in sets the bad literal, all its times are played, no run is in, the watch says that it is
/// over, or the budget is exhausted.
fn play<W: Watch>(
    alloc: Global,
    circuit: &Model,
    plan: BatchPlan,
    watch: &W,
    budget: &mut Budget,
) -> Result<Option<Finding>, EngineError>
    ensures spends { Spends budget.old budget.new }
    ensures so { IfOk result (λ found. IfSome found (IsJudged circuit.now)) }
    ensures memory { IfErr result (λ e. e ≡ EngineError.OutOfMemory witness) }
{
    let mut drawn = Toggled::begin(alloc, circuit, plan)?;
    let Some(mut runs) = Runs::begin(alloc, circuit, drawn.first())? else {
        return Ok(None);
    };
    let price = price_of(circuit);
    let mut times: u64 = 0;
    'playing: while times < plan.times() && !watch.is_over() && budget.tick() {
        budget.spend(price);
        drawn.advance();
        times += 1;
        if !runs.step(drawn.inputs()) {
            return Ok(None);
        }
        if let Some(run) = lowest(bad_runs(&runs, circuit)) {
            return drawn_again(alloc, circuit, plan, times, run);
        }
        if runs.is_over() {
            return Ok(None);
        }
    }
    Ok(None)
}

/// Plays batch after batch, from the seed on, and counts them. Answers the first run that sets the bad literal.
fn play_all<W: Watch>(
    alloc: Global,
    circuit: &Model,
    seed: u64,
    watch: &W,
    batches: &mut u64,
    budget: &mut Budget,
) -> Result<Finding, EngineError>
    requires for_bad { IsForBad circuit.now }
    ensures spends { Spends budget.old budget.new }
    ensures so { IfOk result (IsSo circuit.now budget.new) }
    ensures kinds { IfOk result IsRunOrSpent }
    ensures memory { IfErr result (λ e. e ≡ EngineError.OutOfMemory witness) }
{
    let mut number: u64 = 0;
    'playing: while !watch.is_over() && budget.tick() {
        number = number.saturating_add(1);
        *batches = batches.saturating_add(1);
        let plan = BatchPlan::of(seed, number, circuit.inputs().len());
        if let Some(finding) = play(alloc, circuit, plan, watch, budget)? {
            return Ok(finding);
        }
    }
    let left = budget.left();
    budget.spend(left);
    Ok(Finding::Unknown(Reason::Budget))
}

impl<W: Watch> Engine for LongRuns<W> {
    ghost use Rattle.engine.specs.declared.engine_error.EngineError.TheVariants.{OutOfMemory};

    ghost honest = { λ _. Unit {0} };

    ghost answers = { λ _ m _ r after. IfOk r (IsSo m after) × IfOk r IsRunOrSpent × IfErr r (λ e. e ≡ OutOfMemory witness) };

    /// Plays batch after batch of 256 runs, from the seed on, and answers the first run that sets the
    /// bad literal.
    fn find(
        &mut self,
        alloc: Global,
        circuit: &Model,
        budget: &mut Budget,
    ) -> Result<Finding, EngineError>
        requires { IsForBad circuit.now }
        ensures spends { Spends budget.old budget.new }
        ensures same { self.new ≡ self.old }
        ensures so { IfOk result (IsSo circuit.now budget.new) }
        ensures kinds { IfOk result IsRunOrSpent }
        ensures memory { IfErr result (λ e. e ≡ EngineError.OutOfMemory witness) }
    {
        play_all(
            alloc,
            circuit,
            self.seed,
            &self.watch,
            &mut self.batches,
            budget,
        )
    }

    fn count(&self, counters: &mut Counters) -> Result<(), Refused> {
        counters.add("long runs", "batches of 256 runs", self.batches)
    }
}
