//! A solver that has the clauses of the frames, and answers queries about one step.

ghost use Rattle.std.specs.Prelude.{◌≡◌, ◌<◌, ◌≤◌, Bool, List, None, All, IfOk, OnOk};
ghost use Rattle.base.specs.Budget.{Spends};
ghost use Rattle.graph.specs.declared.parts.Parts.{Parts};
ghost use Rattle.cnf.specs.Formulas.{bad_literal};
ghost use Rattle.states.specs.States.{Holds};
ghost use Rattle.ic3_frames.specs.declared.frames.Entry.{Entry as Item};
ghost use Rattle.ic3_frames.specs.Frames.{InFrame, AreFrames, IsStateClause};
ghost use Rattle.ic3_blocking.specs.Sound.{HasFrames, IsSound};
ghost use Rattle.ic3_blocking.specs.Answers.{IsAfter, IsRelative};

use base::{Budget, Refused, Seq};
use engine::EngineError;
use graph::Model;
use ic3_frames::{Entry, Frames};
use ic3_step::{Consecution, Transition, holds_after};
use solver::PartSat;
use states::StateLit;
use std::alloc::Global;

/// The fewest queries with a clause of their own, and propagated clauses, for which a circuit is
/// loaded.
const FEWEST: u32 = 100;

/// The most of these for which a circuit is loaded.
const MOST: u32 = 1000;

/// For how many variables of the circuit there is one more.
const VARIABLES: u32 = 64;

/// A solver that has a circuit and the clauses of its frames, each under a guard. Its clauses
/// are those of the frames: `IsSound` says so, and every call keeps it.
#[derive(Drop)]
pub struct FrameSolver<S: PartSat> {
    /// what asks about one step
    pub transition: Transition<S>,
    /// the guards below are those of the levels
    pub levels: u32,
    /// how many guards there is room for
    pub room: u32,
    /// the guards from here on are free, one for each query to come
    pub next: u32,
}

/// For how many queries with a clause of their own, and propagated clauses, the circuit is loaded.
/// Loading costs the circuit, and each model the clauses that were added since; so a large circuit
/// is loaded for more queries.
fn queries(circuit: &Model) -> u32
    ensures fewest { 100 ≤ result }
    ensures most { result ≤ 1000 }
{
    let more = circuit.max_var() / VARIABLES;
    more.saturating_add(FEWEST).min(MOST)
}

/// The guards of the levels from `first` on, and below `end`, the greatest first.
pub(crate) fn guards_from(alloc: Global, first: u32, end: u32) -> Result<Seq<u32>, Refused>
    ensures { IfOk result (λ guards. All (λ g. (first ≤ g) × (g < end)) guards) }
{
    let mut guards = Seq::new(alloc);
    'listing: for level in (first..end).rev() {
        guards.push(level)?;
    }
    Ok(guards)
}

impl<S: PartSat> FrameSolver<S> {
    /// A solver that has no circuit yet.
    pub fn new(solver: S) -> FrameSolver<S>
        ensures { result ≡ record { transition = record { vars = S.vars solver; clauses = S.clauses solver; cone = None }; levels = 0; room = 0; next = 0 } }
    {
        FrameSolver {
            transition: Transition::new(solver),
            levels: 0,
            room: 0,
            next: 0,
        }
    }

    /// Adds a clause under the guard of a level.
    pub fn add_clause(
        &mut self,
        alloc: Global,
        circuit: &Model,
        level: u32,
        clause: &[StateLit],
    ) -> Result<(), EngineError>
        requires has { (entries : List Item) × HasFrames circuit.now entries self.old }
        requires level { level < self.old.levels }
        requires clause { IsStateClause circuit.now clause.now }
        ensures levels { self.new.levels ≡ self.old.levels }
        ensures room { self.new.room ≡ self.old.room }
        ensures next { self.new.next ≡ self.old.next }
        ensures has { (entries : List Item) → HasFrames circuit.now entries self.old → ((s : List Bool) → InFrame entries level s → Holds s clause.now) →
            OnOk result (HasFrames circuit.now entries self.new) }
    {
        self.transition.add(alloc, circuit, level, clause)
    }

    /// Counts a clause that was propagated: it takes the room of a query, so that the circuit is loaded again,
    /// without the clauses that are subsumed, after many of them.
    pub fn count_propagated(&mut self)
        ensures levels { self.new.levels ≡ self.old.levels }
        ensures has { (m : Parts) (entries : List Item) → HasFrames m entries self.old → HasFrames m entries self.new }
    {
        self.next = self.room.min(self.next.saturating_add(1));
    }

    /// Adds each clause under the guard of its level.
    fn add_all(
        &mut self,
        alloc: Global,
        circuit: &Model,
        entries: &[Entry],
    ) -> Result<(), EngineError>
        requires has { HasFrames circuit.now entries.now self.old }
        requires clauses { All (λ e. IsStateClause circuit.now e.clause) entries.now }
        requires below { All (λ e. e.level < self.old.levels) entries.now }
        ensures levels { self.new.levels ≡ self.old.levels }
        ensures room { self.new.room ≡ self.old.room }
        ensures next { self.new.next ≡ self.old.next }
        ensures has { OnOk result (HasFrames circuit.now entries.now self.new) }
    {
        'adding: for entry in entries {
            self.add_clause(alloc, circuit, entry.level, entry.clause.as_slice())?;
        }
        Ok(())
    }

    /// Begins anew with the circuit and its frames, and this number of levels. It costs the circuit and
    /// the clauses of the frames.
    pub fn load(&mut self, circuit: &Model, frames: &Frames, levels: u32) -> Result<(), EngineError>
        requires laws { AreFrames circuit.now (bad_literal circuit.now 0) frames.now }
        requires few { levels ≤ 2000000000 }
        requires top { frames.now.top < levels }
        requires below { All (λ e. e.level < levels) frames.now.entries }
        ensures levels { OnOk result (self.new.levels ≡ levels) }
        ensures room { OnOk result (self.new.next < self.new.room) }
        ensures sound { OnOk result (IsSound circuit.now self.new frames.now) }
    {
        let alloc = frames.allocator();
        let room = levels + queries(circuit);
        self.transition.load(alloc, circuit, room)?;
        self.levels = levels;
        self.room = room;
        self.next = levels;
        self.add_all(alloc, circuit, frames.entries())
    }

    /// Begins anew where no guard is free.
    pub fn make_room(&mut self, circuit: &Model, frames: &Frames) -> Result<(), EngineError>
        requires sound { IsSound circuit.now self.old frames.now }
        ensures sound { OnOk result (IsSound circuit.now self.new frames.now) }
        ensures room { OnOk result (self.new.next < self.new.room) }
    {
        if self.next < self.room {
            return Ok(());
        }
        self.load(circuit, frames, self.levels)
    }

    /// Asks whether the clause holds after each step from a state of the frame.
    pub fn after(
        &mut self,
        circuit: &Model,
        frames: &Frames,
        level: u32,
        clause: &[StateLit],
        budget: &mut Budget,
    ) -> Result<Consecution, EngineError>
        requires sound { IsSound circuit.now self.old frames.now }
        requires clause { IsStateClause circuit.now clause.now }
        ensures spends { Spends budget.old budget.new }
        ensures sound { OnOk result (IsSound circuit.now self.new frames.now) }
        ensures lawful { IfOk result (IsAfter circuit.now frames.now.entries level clause.now budget.new) }
    {
        let alloc = frames.allocator();
        let guards = guards_from(alloc, level, frames.top() + 1)?;
        holds_after(
            alloc,
            &mut self.transition,
            circuit,
            guards.as_slice(),
            clause,
            frames.activities(),
            budget,
        )
    }

    /// Asks whether the clause holds after each step from a state of the frame in which it holds.
    /// The query's clause has a guard of its own, the free one that comes next, which is let go afterwards.
    pub(crate) fn relative(
        &mut self,
        circuit: &Model,
        frames: &Frames,
        level: u32,
        clause: &[StateLit],
        budget: &mut Budget,
    ) -> Result<Consecution, EngineError>
        requires sound { IsSound circuit.now self.old frames.now }
        requires room { self.old.next < self.old.room }
        requires clause { IsStateClause circuit.now clause.now }
        ensures spends { Spends budget.old budget.new }
        ensures sound { OnOk result (IsSound circuit.now self.new frames.now) }
        ensures lawful { IfOk result (IsRelative circuit.now frames.now.entries level clause.now budget.new) }
    {
        let alloc = frames.allocator();
        let guard = self.next;
        self.transition.add(alloc, circuit, guard, clause)?;
        self.next += 1;
        let mut guards = guards_from(alloc, level, frames.top() + 1)?;
        guards.push(guard)?;
        let known = holds_after(
            alloc,
            &mut self.transition,
            circuit,
            guards.as_slice(),
            clause,
            frames.activities(),
            budget,
        )?;
        self.transition.add(alloc, circuit, guard, &[])?;
        Ok(known)
    }
}
