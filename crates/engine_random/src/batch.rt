//! 256 runs at once.

ghost use Rattle.std.specs.Prelude.{◌≡◌, ◌⊎◌, [], true, ◌<◌, ◌≤◌, ℕ, ◌↔◌, IsTrue, false, length, All, IsSome, IfOk, IfErr, IfSome};
ghost use Rattle.base.specs.Budget.{Spends};
ghost use Rattle.base.specs.Witness.{witness};
ghost use Rattle.graph.specs.declared.circuit.Property.TheVariants.{Bad};
ghost use Rattle.graph.specs.Circuits.{variable};
ghost use Rattle.stimulus.specs.declared.value.Stimulus.TheVariants.{Violated};
ghost use Rattle.stimulus.specs.Shown.{ShowsBad};
ghost use Rattle.simulate.specs.Lanes.{value_in};
ghost use Rattle.simulate.specs.Wides.{AllStart, wide_begun};
ghost use Rattle.engine.specs.declared.finding.Finding.TheVariants.{Run};
ghost use Rattle.engine_random.specs.Words.{words};
ghost use Rattle.engine_random.specs.Batches.{Marks, Plays};
ghost use Rattle.engine_random.specs.Findings.{IsLowestOf, IsRunOf, run_of};

use crate::drawing::{draw_lanes, draw_row};
use crate::rows::{row, rows};
use crate::watch::Watch;
use base::{Budget, Refused, Seq, filled_like};
use engine::{EngineError, Finding};
use graph::{Latch, Lit, Model, Property};
use rand_pcg::Lcg128Xsl64;
use simulate::lanes::{all, both, lowest, none};
use simulate::{ReplayError, Wide};
use std::alloc::Global;
use std::simd::u64x4;
use stimulus::{JudgeError, Stimulus, judge};

/// 256 runs of a circuit, time after time. A run is in until it breaks a constraint.
#[derive(Drop)]
pub struct Batch<'a> {
    circuit: &'a Model,
    // the latches' first values, in their order
    first: Vec<u64x4>,
    // the inputs' values in their order, at each time
    inputs: Seq<Seq<u64x4>>,
    // the runs, as far as they are played
    wide: Wide<'a>,
    // those that are still in
    running: [u64; 4],
}

impl<'a> std::marker::Model for Batch<'a> {
    ghost use Rattle.std.specs.Prelude.{◌≡◌, length, All};
    ghost use Rattle.engine_random.specs.Batches.{Played};

    ghost Value = { Played };

    ghost view = { λ b. record { circuit = b.circuit.now; first = b.first.items; inputs = b.inputs; wide = b.wide; running = b.running } };

    ghost invariant = { λ b. b.wide.circuit ≡ b.circuit.now };
}

/// The first values of a latch: its reset, or words that are drawn.
fn first_value(latch: Latch, generator: &mut Lcg128Xsl64) -> u64x4
    ensures fixed { latch.reset.0 < 2 → generator.new ≡ generator.old }
    ensures low { latch.reset.0 ≡ 0 → (r : ℕ) → r < 256 → value_in result r ≡ false }
    ensures high { latch.reset.0 ≡ 1 → (r : ℕ) → r < 256 → value_in result r ≡ true }
    ensures open { 1 < latch.reset.0 → (result, generator.new) ≡ words 4 generator.old }
{
    if latch.reset.0 == 0 {
        return all(false);
    }
    if latch.reset.0 == 1 {
        return all(true);
    }
    draw_lanes(generator)
}

/// Gives the latches their first values, in their order.
pub fn first_values(latches: &[Latch], generator: &mut Lcg128Xsl64, first: &mut [u64x4])
    requires { length first.old ≡ length latches.now }
    ensures { AllStart latches.now first.new }
{
    for (i, latch) in latches.iter().enumerate() {
        first[i] = first_value(*latch, generator);
    }
}

/// The runs that are marked and set every one of the literals.
fn setting(wide: &Wide, marked: u64x4, lits: &[Lit]) -> u64x4
    requires stepped { IsSome wide.now.now }
    requires in_range { All (λ a. variable a ≤ wide.now.circuit.max_var) lits.now }
    ensures { IfSome wide.now.now (λ values. Marks lits.now values marked result) }
{
    let mut set = marked;
    for lit in lits {
        set = both(set, wide.value(*lit));
    }
    set
}

/// The run that a stimulus tells of.
fn told_run(stimulus: Stimulus) -> Option<Finding>
    ensures { result ≡ run_of stimulus }
{
    match stimulus {
        Stimulus::Violated {
            initial,
            inputs,
            ..
        } => Some(Finding::Run { initial, inputs }),
        Stimulus::Holds(_) => None,
        Stimulus::Unknown(_) => None,
    }
}

/// The run as a finding, where it is judged to show the bad literal.
pub fn judged(
    alloc: Global,
    circuit: &Model,
    initial: Seq<bool>,
    inputs: Seq<Seq<bool>>,
) -> Result<Option<Finding>, EngineError>
    ensures shown { IfOk result (λ found. IfSome found (λ f. (f ≡ Run initial inputs) × ShowsBad circuit.now (Violated (Bad 0) initial inputs))) }
    ensures memory { IfErr result (λ e. e ≡ EngineError.OutOfMemory witness) }
{
    let stimulus = Stimulus::Violated {
        property: Property::Bad(0),
        initial,
        inputs,
    };
    match judge(alloc, circuit, &stimulus) {
        Ok(()) => Ok(told_run(stimulus)),
        Err(JudgeError::OutOfMemory(refused)) => Err(EngineError::OutOfMemory(refused)),
        Err(_) => Ok(None),
    }
}

impl<'a> Batch<'a> {
    /// All runs at their first states. There is one draw for each latch that its reset leaves open, in their
    /// order.
    pub fn begin(
        alloc: Global,
        circuit: &'a Model,
        generator: &mut Lcg128Xsl64,
    ) -> Result<Batch<'a>, Refused>
        ensures circuit { IfOk result (λ b. b.circuit ≡ circuit.now) }
        ensures start { IfOk result (λ b. AllStart circuit.now.latches b.first) }
        ensures wide { IfOk result (λ b. b.wide ≡ wide_begun circuit.now b.first) }
        ensures none { IfOk result (λ b. b.inputs ≡ []) }
        ensures all { IfOk result (λ b. (r : ℕ) → r < 256 → value_in b.running r ≡ true) }
    {
        let mut first = filled_like(alloc, all(false), circuit.latches())?;
        first_values(circuit.latches(), generator, &mut first);
        let wide = match Wide::new(alloc, circuit, &first) {
            Ok(wide) => wide,
            Err(ReplayError::OutOfMemory(refused)) => return Err(refused),
            Err(_) => unreachable!(),
        };
        Ok(Batch {
            circuit,
            first,
            inputs: Seq::new(alloc),
            wide,
            running: all(true).to_array(),
        })
    }

    /// Whether nothing is left to be played: the times of all steps were, or no run is in.
    fn is_over(&self, depth: u32) -> bool
        ensures { IsTrue result ↔ ((depth < length self.now.inputs) ⊎ ((r : ℕ) → r < 256 → value_in self.now.running r ≡ false)) }
    {
        self.inputs.len() > depth as usize || none(u64x4::from_array(self.running))
    }

    /// The run as a finding, where it is judged to show the bad literal.
    fn finding(&self, alloc: Global, run: u32) -> Result<Option<Finding>, EngineError>
        requires { run < 256 }
        ensures found { IfOk result (λ found. IfSome found (IsRunOf self.now run)) }
        ensures memory { IfErr result (λ e. e ≡ EngineError.OutOfMemory witness) }
    {
        let initial = row(alloc, &self.first, run)?;
        let inputs = rows(alloc, self.inputs.as_slice(), run)?;
        judged(alloc, self.circuit, initial, inputs)
    }

    /// Steps the runs by inputs that are drawn. Those that break a constraint are out from now on.
    fn advance(&mut self, alloc: Global, generator: &mut Lcg128Xsl64) -> Result<(), Refused>
        ensures { IfOk result (λ _. Plays self.old self.new generator.old generator.new) }
    {
        let inputs = draw_row(alloc, self.circuit.inputs().len(), generator)?;
        self.wide.step(inputs.as_slice());
        self.inputs.push(inputs)?;
        let constraints = self.circuit.parts().constraints.as_slice();
        let running = u64x4::from_array(self.running);
        self.running = setting(&self.wide, running, constraints).to_array();
        Ok(())
    }

    /// The lowest run that is in and sets the bad literal at the time played last.
    fn lowest_bad(&self, alloc: Global) -> Result<Option<Finding>, EngineError>
        requires { IsSome self.now.wide.now }
        ensures found { IfOk result (λ found. IfSome found (IsLowestOf self.now)) }
        ensures memory { IfErr result (λ e. e ≡ EngineError.OutOfMemory witness) }
    {
        let running = u64x4::from_array(self.running);
        let bad = setting(&self.wide, running, self.circuit.parts().bad.as_slice());
        match lowest(bad) {
            Some(run) => self.finding(alloc, run),
            None => Ok(None),
        }
    }

    /// Plays one time after another, for which the inputs' values are drawn, until a run that is in sets the bad
    /// literal, `depth` steps are played, no run is in, the watch says that it is over, or the budget is exhausted. The
    /// first time is counted already. The lowest run that sets the bad literal is answered.
    pub fn play<W: Watch>(
        &mut self,
        alloc: Global,
        generator: &mut Lcg128Xsl64,
        depth: u32,
        watch: &W,
        budget: &mut Budget,
    ) -> Result<Option<Finding>, EngineError>
        ensures circuit { IfOk result (λ _. self.new.circuit ≡ self.old.circuit) }
        ensures spends { Spends budget.old budget.new }
        ensures found { IfOk result (λ found. IfSome found (IsLowestOf self.new)) }
        ensures memory { IfErr result (λ e. e ≡ EngineError.OutOfMemory witness) }
    {
        'playing: loop {
            self.advance(alloc, generator)?;
            if let Some(finding) = self.lowest_bad(alloc)? {
                return Ok(Some(finding));
            }
            if self.is_over(depth) || watch.is_over() || !budget.tick() {
                return Ok(None);
            }
        }
    }
}
