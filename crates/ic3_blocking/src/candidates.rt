//! Clauses that are tried before the search.

ghost use Rattle.std.specs.Prelude.{◌≡◌, ◌<◌, ◌↔◌, IsTrue, ℕ, length, IfOk, IfSome, OnOk};
ghost use Rattle.base.specs.Budget.{Spends};
ghost use Rattle.graph.specs.declared.parts.Parts.{Parts};
ghost use Rattle.ic3_frames.specs.Frames.{IsRising, IsStateClause};
ghost use Rattle.ic3_blocking.specs.Sound.{IsSound};
ghost use Rattle.ic3_blocking.specs.Candidates.{HasPositions, AreInside};

use crate::frame_solver::FrameSolver;
use crate::reset::reset_literal;
use base::{Budget, Refused, Seq, filled, push};
use engine::EngineError;
use graph::{Lit, Model};
use ic3_frames::Frames;
use solver::PartSat;
use states::StateLit;
use std::alloc::Global;

/// The position of each latch, by its variable. It costs the circuit's variables.
fn positions_of(alloc: Global, circuit: &Model) -> Result<Vec<Option<u32>>, Refused>
    ensures { IfOk result (λ v. HasPositions (length circuit.now.latches) v.items) }
{
    circuit.well_formed();
    let mut positions = filled(alloc, None, circuit.max_var() as usize + 1)?;
    'placing: for (i, latch) in circuit.latches().iter().enumerate() {
        positions[latch.lit.variable() as usize] = Some(i as u32);
    }
    Ok(positions)
}

/// The literal as a latch and its value, where it is one of a latch.
fn state_lit(positions: &[Option<u32>], lit: Lit) -> Option<StateLit>
    ensures { (n : ℕ) → HasPositions n positions.now → IfSome result (λ a. a.latch < n) }
{
    match positions.get(lit.variable() as usize) {
        Some(Some(latch)) => Some(StateLit {
            latch: *latch,
            value: !lit.is_negated(),
        }),
        _ => None,
    }
}

/// The literals as latches and their values, where each is one of a latch.
fn state_lits(
    alloc: Global,
    positions: &[Option<u32>],
    lits: &[Lit],
) -> Result<Option<Vec<StateLit>>, Refused>
    ensures { (n : ℕ) → HasPositions n positions.now → IfOk result (λ r. IfSome r (λ v. AreInside n v.items)) }
{
    let mut found = Vec::new(alloc);
    'translating: for lit in lits {
        match state_lit(positions, *lit) {
            Some(lit) => push(&mut found, lit)?,
            None => return Ok(None),
        }
    }
    Ok(Some(found))
}

/// Puts literals into the order of their latches.
fn sort(lits: &mut [StateLit])
    ensures len { length lits.new ≡ length lits.old }
    ensures inside { (n : ℕ) → AreInside n lits.old → AreInside n lits.new }
{
    lits.sort_unstable_by_key(|lit| lit.latch);
}

/// Whether the latches are in rising order.
fn is_rising(clause: &[StateLit]) -> bool
    ensures { IsTrue result ↔ IsRising clause.now }
{
    let mut next = 0;
    'comparing: for lit in clause {
        if u64::from(lit.latch) < next {
            return false;
        }
        next = u64::from(lit.latch) + 1;
    }
    true
}

/// The clause over the latches that these literals are: each is one of a latch, and no latch has two.
fn state_clause(
    alloc: Global,
    positions: &[Option<u32>],
    lits: &[Lit],
) -> Result<Option<Seq<StateLit>>, Refused>
    ensures { (m : Parts) → HasPositions (length m.latches) positions.now → IfOk result (λ r. IfSome r (IsStateClause m)) }
{
    let Some(mut found) = state_lits(alloc, positions, lits)? else {
        return Ok(None);
    };
    sort(found.as_mut_slice());
    if !is_rising(found.as_slice()) {
        return Ok(None);
    }
    Ok(Some(Seq::from_vec(found)))
}

impl<S: PartSat> FrameSolver<S> {
    /// Adds a clause to the first frame behind the initial states, if it has a literal that each of those sets and
    /// holds after each step from one.
    fn try_clause(
        &mut self,
        circuit: &Model,
        frames: &mut Frames,
        clause: Seq<StateLit>,
        budget: &mut Budget,
    ) -> Result<(), EngineError>
        requires sound { IsSound circuit.now self.old frames.old }
        requires open { 0 < frames.old.top }
        requires clause { IsStateClause circuit.now clause }
        ensures top { frames.new.top ≡ frames.old.top }
        ensures spends { Spends budget.old budget.new }
        ensures sound { OnOk result (IsSound circuit.now self.new frames.new) }
    {
        if reset_literal(circuit.latches(), clause.as_slice()).is_none() {
            return Ok(());
        }
        if !self.is_onward(circuit, frames, 0, clause.as_slice(), budget)? {
            return Ok(());
        }
        self.add_to_frames(circuit, frames, 0, clause)
    }

    /// Tries a candidate, where it is a clause over the latches.
    fn try_candidate(
        &mut self,
        circuit: &Model,
        frames: &mut Frames,
        positions: &[Option<u32>],
        candidate: &[Lit],
        budget: &mut Budget,
    ) -> Result<(), EngineError>
        requires sound { IsSound circuit.now self.old frames.old }
        requires open { 0 < frames.old.top }
        requires positions { HasPositions (length circuit.now.latches) positions.now }
        ensures top { frames.new.top ≡ frames.old.top }
        ensures spends { Spends budget.old budget.new }
        ensures sound { OnOk result (IsSound circuit.now self.new frames.new) }
    {
        let Some(clause) = state_clause(frames.allocator(), positions, candidate)? else {
            return Ok(());
        };
        self.try_clause(circuit, frames, clause, budget)
    }

    /// Where the first frame behind the initial states is the last one, adds each candidate to it that is a clause
    /// over the latches, has a literal that every initial state sets, and holds after each step from such a state. Each
    /// costs a step of the budget, and a query at most.
    pub fn try_candidates(
        &mut self,
        circuit: &Model,
        frames: &mut Frames,
        candidates: &[Seq<Lit>],
        budget: &mut Budget,
    ) -> Result<(), EngineError>
        requires sound { IsSound circuit.now self.old frames.old }
        ensures top { frames.new.top ≡ frames.old.top }
        ensures spends { Spends budget.old budget.new }
        ensures sound { OnOk result (IsSound circuit.now self.new frames.new) }
    {
        if frames.top() != 1 {
            return Ok(());
        }
        let positions = positions_of(frames.allocator(), circuit)?;
        'trying: for candidate in candidates {
            if !budget.tick() {
                return Ok(());
            }
            let lits = candidate.as_slice();
            self.try_candidate(circuit, frames, &positions, lits, budget)?;
        }
        Ok(())
    }
}
