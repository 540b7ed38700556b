//! Rounds of guesses.

ghost use Rattle.std.specs.Prelude.{◌≡◌, ◌+◌};
ghost use Rattle.base.specs.Budget.{Spends};

use crate::affected::{affected, classes_of, members};
use crate::loading::Loaded;
use crate::pairs::{Pair, lits_of, pairs_of};
use crate::reduced::Reduced;
use base::{Budget, Refused};
use engine::Progress;
use graph::{Lit, Model};
use latch_classes::Search;
use solver::{Answer, PartSat, SatError};
use std::alloc::Global;

/// A round costs a step for so many gates of the circuit, beside what its questions cost.
const GATES_A_STEP: usize = 4;

/// What a round says of the classes.
#[derive(Clone, Copy, PartialEq, Eq)]
enum Round {
    /// All that was asked about seems to hold.
    Held,
    /// A class was split.
    Split,
    /// The bad literal may be true, the budget is exhausted, or the circuit is not understood.
    Over,
}

/// Rounds over classes of a circuit's latches.
#[derive(Drop)]
pub(crate) struct Guesses<'a> {
    /// the classes, and the means to split them
    pub search: Search<'a>,
    /// how many rounds there were
    pub count: u64,
}

/// Whether what a pair's latches come to can differ, and how.
fn differing<S: PartSat>(
    solver: &mut S,
    alloc: Global,
    loaded: &mut Loaded,
    pair: Pair,
    budget: &mut Budget,
) -> Result<Answer, SatError>
    requires vars { S.vars solver.old ≡ loaded.old.model.max_var + 1 }
    ensures model { loaded.new.model ≡ loaded.old.model }
    ensures vars { S.vars solver.new ≡ S.vars solver.old }
    ensures spends { Spends budget.old budget.new }
{
    match loaded.differing(solver, alloc, pair.one, pair.other, budget)? {
        Answer::Core(_) => loaded.differing(solver, alloc, pair.other, pair.one, budget),
        answer => Ok(answer),
    }
}

/// Whether the bad literal seems to be false, where one is asked about.
fn excludes<S: PartSat>(
    solver: &mut S,
    alloc: Global,
    loaded: &mut Loaded,
    bad: &[Lit],
    budget: &mut Budget,
) -> Result<bool, SatError>
    requires vars { S.vars solver.old ≡ loaded.old.model.max_var + 1 }
    ensures model { loaded.new.model ≡ loaded.old.model }
    ensures vars { S.vars solver.new ≡ S.vars solver.old }
    ensures spends { Spends budget.old budget.new }
{
    let first = match bad {
        [bad] => loaded.reduced.first(*bad),
        _ => return Ok(true),
    };
    if first.0 == 0 {
        return Ok(true);
    }
    match loaded.differing(solver, alloc, first, Lit(0), budget)? {
        Answer::Core(_) => Ok(true),
        _ => Ok(false),
    }
}

impl<'a> Guesses<'a> {
    /// Splits the classes by values by which the latches of a pair come to differ.
    fn split_by(
        &mut self,
        alloc: Global,
        circuit: &Model,
        loaded: &Loaded,
        pair: Pair,
        values: &[bool],
        budget: &mut Budget,
    ) -> Result<(), Refused>
        ensures { Spends budget.old budget.new }
    {
        let situation = loaded.situation(alloc, circuit, values)?;
        self.search.chase(alloc, situation, budget)?;
        if self.search.classes.class_of(pair.place) == Some(pair.class) {
            self.search.classes.part(pair.place)?;
        }
        Ok(())
    }

    /// Asks whether the latches of a pair can come to differ, where it is one still, and splits the classes where they can.
    fn ask_pair<S: PartSat>(
        &mut self,
        solver: &mut S,
        alloc: Global,
        circuit: &Model,
        loaded: &mut Loaded,
        pair: Pair,
        budget: &mut Budget,
    ) -> Result<Round, SatError>
        requires vars { S.vars solver.old ≡ loaded.old.model.max_var + 1 }
        ensures model { loaded.new.model ≡ loaded.old.model }
        ensures vars { S.vars solver.new ≡ S.vars solver.old }
        ensures spends { Spends budget.old budget.new }
    {
        if self.search.classes.class_of(pair.place) != Some(pair.class) {
            return Ok(Round::Split);
        }
        match differing(solver, alloc, loaded, pair, budget)? {
            Answer::Core(_) => Ok(Round::Held),
            Answer::Model(values) => {
                self.split_by(alloc, circuit, loaded, pair, values.as_slice(), budget)?;
                Ok(Round::Split)
            }
            Answer::Spent => Ok(Round::Over),
        }
    }

    /// Asks so about all pairs.
    fn ask_pairs<S: PartSat>(
        &mut self,
        solver: &mut S,
        alloc: Global,
        circuit: &Model,
        loaded: &mut Loaded,
        pairs: &[Pair],
        budget: &mut Budget,
    ) -> Result<Round, SatError>
        requires vars { S.vars solver.old ≡ loaded.old.model.max_var + 1 }
        ensures spends { Spends budget.old budget.new }
    {
        let mut round = Round::Held;
        'asking: for pair in pairs {
            match self.ask_pair(solver, alloc, circuit, loaded, *pair, budget)? {
                Round::Held => {}
                Round::Split => round = Round::Split,
                Round::Over => return Ok(Round::Over),
            }
        }
        Ok(round)
    }

    /// One round: asks whether these literals seem to be false in the reduced circuit, and whether the latches at these places stay
    /// equal to their leads.
    fn round<S: PartSat>(
        &mut self,
        solver: &mut S,
        alloc: Global,
        circuit: &Model,
        bad: &[Lit],
        places: &[usize],
        budget: &mut Budget,
    ) -> Result<Round, SatError>
        ensures { Spends budget.old budget.new }
    {
        let reduced = Reduced::of(alloc, circuit, &self.search.classes)?;
        let pairs = pairs_of(alloc, circuit, &self.search.classes, &reduced, places)?;
        let lits = lits_of(alloc, bad, pairs.as_slice())?;
        let loaded = Loaded::new(solver, alloc, circuit, reduced, lits.as_slice())?;
        let Some(mut loaded) = loaded else {
            return Ok(Round::Over);
        };
        if !excludes(solver, alloc, &mut loaded, bad, budget)? {
            return Ok(Round::Over);
        }
        self.ask_pairs(
            solver,
            alloc,
            circuit,
            &mut loaded,
            pairs.as_slice(),
            budget,
        )
    }

    /// One round, which is told to `progress`, and behind it the places that the next one is about.
    fn next_places<S: PartSat, P: Progress>(
        &mut self,
        solver: &mut S,
        alloc: Global,
        circuit: &Model,
        places: &[usize],
        progress: &mut P,
        budget: &mut Budget,
    ) -> Result<(Round, Vec<usize>), SatError>
        ensures { Spends budget.old budget.new }
    {
        let before = classes_of(alloc, circuit, &self.search.classes)?;
        let none: &[Lit] = &[];
        let bad = if self.count == 0 { circuit.bad() } else { none };
        self.count = self.count.saturating_add(1);
        progress.round_begun(self.count, places.len(), budget);
        budget.spend((circuit.gates().len() / GATES_A_STEP) as u64);
        let round = self.round(solver, alloc, circuit, bad, places, budget)?;
        if round != Round::Split {
            return Ok((round, Vec::new(alloc)));
        }
        self.search.shake(alloc, budget)?;
        let places = affected(alloc, circuit, &self.search.classes, before.as_slice())?;
        Ok((round, places))
    }

    /// Whether rounds end in classes that seem to stay, and with which the bad literal seemed to be false at first.
    pub(crate) fn settle<S: PartSat, P: Progress>(
        &mut self,
        solver: &mut S,
        alloc: Global,
        circuit: &Model,
        progress: &mut P,
        budget: &mut Budget,
    ) -> Result<bool, SatError>
        ensures { Spends budget.old budget.new }
    {
        let mut places = members(alloc, circuit, &self.search.classes)?;
        'settling: while budget.tick() {
            let slice = places.as_slice();
            let (round, next) = self.next_places(solver, alloc, circuit, slice, progress, budget)?;
            if round != Round::Split {
                return Ok(round == Round::Held);
            }
            places = next;
        }
        Ok(false)
    }
}
