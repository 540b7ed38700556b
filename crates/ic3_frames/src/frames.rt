//! Frames, kept as clauses with levels.

ghost use Rattle.std.specs.Prelude.{◌≡◌, ◌≢◌, ◌+◌, ◌<◌, ◌≤◌, ◌⊎◌, ℕ, Bool, true, false, List, None, length, slice_index_or, take, All, Contains, IsTrue, OnOk, OnErr, IfOk, IfSome};
ghost use Rattle.graph.specs.declared.circuit.Lit.{Lit};
ghost use Rattle.graph.specs.declared.parts.Parts.{Parts};
ghost use Rattle.cnf.specs.Formulas.{bad_literal};
ghost use Rattle.cnf.specs.Invariants.{IsInvariant};
ghost use Rattle.states.specs.States.{Holds, IsPartOf};
ghost use Rattle.ic3_frames.specs.declared.frames.Entry.{Entry};
ghost use Rattle.ic3_frames.specs.Frames.{InFrame, AreFrames, AreWithin, Excludes, IsStateClause, HoldsInitially, HoldsAfter, HoldsOnward, IsFalseAfter, IsNotSubsumed};
ghost use Rattle.ic3_frames.specs.Resets.{IsInitialState};

use crate::activities::Activities;
use crate::failed_pushes::FailedPushes;
use crate::invariant::{clauses_above, is_left};
use crate::marks::Marks;
use crate::resets::reset_entries;
use crate::signature::signatures_of;
use crate::subsumption::{insert, remove_subsumed};
use crate::uses::Uses;
use base::{Refused, Seq};
use graph::{Lit, Model};
use states::StateLit;
use std::alloc::Global;

/// A clause that holds in each frame up to its level.
#[derive(Drop)]
pub struct Entry {
    pub clause: Seq<StateLit>,
    pub level: u32,
}

/// The frames from 0 to the greatest, which is still open. A contract sees them as `Levels`.
#[derive(Drop)]
pub struct Frames {
    entries: Vec<Entry>,
    /// of the entries' clauses, by the entries' places
    signatures: Vec<u64>,
    top: u32,
    activities: Activities,
    uses: Uses,
    failed_pushes: FailedPushes,
}

impl std::marker::Model for Frames {
    ghost use Rattle.ic3_frames.specs.Frames.{Levels};
    ghost use Rattle.ic3_frames.specs.Signatures.{AreSignatures};
    ghost use Rattle.ic3_frames.specs.FailedPushes.{clauses_of};

    ghost Value = { Levels };

    ghost view = { λ f. record { entries = f.entries.items; top = f.top; failed = clauses_of f.failed_pushes.items.items } };

    ghost invariant = { λ f. AreSignatures f.entries.items f.signatures.items };
}

impl Frames {
    /// The first frame alone, which is open: a clause of one literal for each latch that is reset
    /// to 0 or 1, at level 0.
    pub fn first(alloc: Global, circuit: &Model) -> Result<Frames, Refused>
        ensures top { IfOk result (λ f. f.top ≡ 0) }
        ensures level { IfOk result (λ f. All (λ e. e.level ≡ 0) f.entries) }
        ensures laws { (bad : Lit) → IfOk result (AreFrames circuit.now bad) }
        ensures initial { IfOk result (λ f. (s : List Bool) → InFrame f.entries 0 s → IsInitialState circuit.now s) }
    {
        circuit.well_formed();
        let entries = reset_entries(alloc, circuit.latches())?;
        let signatures = signatures_of(alloc, entries.as_slice())?;
        let activities = Activities::new(alloc, circuit.latches())?;
        let uses = Uses::new(alloc, circuit.latches(), entries.as_slice())?;
        let failed_pushes = FailedPushes::new(alloc);
        Ok(Frames {
            entries,
            signatures,
            top: 0,
            activities,
            uses,
            failed_pushes,
        })
    }

    /// The allocator of the clauses.
    pub fn allocator(&self) -> Global {
        *self.entries.allocator()
    }

    /// The greatest frame, which is open.
    pub fn top(&self) -> u32
        ensures { result ≡ self.now.top }
    {
        self.top
    }

    /// The clauses with their levels, in no order.
    pub fn entries(&self) -> &[Entry]
        ensures { result.now ≡ self.now.entries }
    {
        self.entries.as_slice()
    }

    /// How active each latch is, by its position: the more, the more clauses with it were added, and the later. A query
    /// about a clause assumes the most active first. Nothing else rests on it.
    pub fn activities(&self) -> &[u64] {
        self.activities.values()
    }

    /// In how many clauses of the frames each latch is, by its position. A clause is made shorter by the latches of the fewest
    /// first. Nothing else rests on it.
    pub fn uses(&self) -> &[u32] {
        self.uses.values()
    }

    /// Whether the clause could not be pushed from the frame at this level, by a state that still lies in the frame, so that it
    /// cannot be pushed now. It costs the clauses of the frames and the failed pushes.
    pub fn push_fails_again(&self, level: u32, clause: &[StateLit]) -> bool
        ensures { IsTrue result → Contains self.now.failed clause.now }
    {
        let entries = self.entries.as_slice();
        self.failed_pushes.fails_again(entries, level, clause)
    }

    /// Keeps that the clause could not be pushed from the frame at this level, by this state: a counterexample to induction. It
    /// costs the failed pushes.
    pub fn add_failed_push(
        &mut self,
        level: u32,
        clause: Seq<StateLit>,
        state: Seq<bool>,
    ) -> Result<(), Refused>
        ensures entries { self.new.entries ≡ self.old.entries }
        ensures top { self.new.top ≡ self.old.top }
        ensures failed { All (λ c. Contains self.old.failed c ⊎ (c ≡ clause)) self.new.failed }
        ensures laws { (m : Parts) (bad : Lit) → AreFrames m bad self.old → IsFalseAfter m clause → AreFrames m bad self.new }
    {
        self.failed_pushes.add(level, clause, state)
    }

    /// Whether a clause of the frame at `level` is part of this one, which then holds in each of its states. It costs a look at
    /// the signature of each clause of all frames, and one look for each literal, up to the first that is not in this one, of a
    /// clause of the frame whose signature's bits are all in this one's. It takes two bits for each latch up to this one's greatest.
    pub fn implies(&self, alloc: Global, level: u32, clause: &[StateLit]) -> Result<bool, Refused>
        ensures sound { IfOk result (λ b. b ≡ true → (s : List Bool) → InFrame self.now.entries level s → Holds s clause.now) }
        ensures complete { IfOk result (λ b. b ≡ false → All (λ e. level ≤ e.level → IsPartOf e.clause clause.now → ⊥) self.now.entries) }
    {
        let marks = Marks::new(alloc, clause)?;
        let entries = self.entries.as_slice();
        Ok(marks.have_one(entries, self.signatures.as_slice(), level))
    }

    /// Where the longest is of the clauses that end at `level` and are part of this one, or one of several: the clause that a
    /// frame before excluded these states by. It costs as `implies`.
    pub fn longest_part(
        &self,
        alloc: Global,
        level: u32,
        clause: &[StateLit],
    ) -> Result<Option<usize>, Refused>
        ensures part { (d : Entry) → IfOk result (λ r. IfSome r (λ p. (p < length self.now.entries) × ((slice_index_or self.now.entries p d).level ≡ level) ×
            IsPartOf (slice_index_or self.now.entries p d).clause clause.now)) }
        ensures longest { (d : Entry) → IfOk result (λ r. IfSome r (λ p. All (λ e. e.level ≡ level → IsPartOf e.clause clause.now →
            length e.clause ≤ length (slice_index_or self.now.entries p d).clause) self.now.entries)) }
        ensures none { IfOk result (λ r. r ≡ None → All (λ e. e.level ≡ level → IsPartOf e.clause clause.now → ⊥) self.now.entries) }
    {
        let marks = Marks::new(alloc, clause)?;
        let entries = self.entries.as_slice();
        Ok(marks.longest(entries, self.signatures.as_slice(), level))
    }

    /// Adds a clause to the frames up to `level`, and drops the clauses that it subsumes
    /// there: those of a level no greater that have all its literals. It takes a look at the signature
    /// of each clause, and a search only in a clause of such a level whose signature has all bits of
    /// this one's. A refusal changes nothing.
    pub fn add(&mut self, clause: Seq<StateLit>, level: u32) -> Result<(), Refused>
        ensures top { self.new.top ≡ self.old.top }
        ensures failed { self.new.failed ≡ self.old.failed }
        ensures newest { OnOk result (Contains self.new.entries (record { clause = clause; level = level })) }
        ensures only { OnOk result ((e : Entry) → Contains self.new.entries e → Contains self.old.entries e ⊎ (e ≡ record { clause = clause; level = level })) }
        ensures lean { OnOk result (All (λ e. IsNotSubsumed clause level e ⊎ (e ≡ record { clause = clause; level = level })) self.new.entries) }
        ensures within { OnOk result (AreWithin self.new.entries self.old.entries) }
        ensures err { OnErr result (self.new ≡ self.old) }
        ensures laws { (m : Parts) (bad : Lit) (k : ℕ) → AreFrames m bad self.old → level ≡ k + 1 → IsStateClause m clause → HoldsInitially m clause →
            HoldsOnward m self.old.entries k clause → OnOk result (AreFrames m bad self.new) }
    {
        self.activities.bump(clause.as_slice());
        insert(
            &mut self.entries,
            &mut self.signatures,
            &mut self.uses,
            clause,
            level,
        )
    }

    /// Propagates the clause at a place to the next frame, drops the other clauses that it subsumes there, and answers where it is
    /// then, no further back. What is in front of it then was in front of it before. It takes a look at the signature of each clause, and
    /// a search only in a clause of such a level whose signature has all bits of this one's. A refusal changes nothing.
    pub fn propagate(&mut self, alloc: Global, place: usize) -> Result<usize, Refused>
        requires place { place < length self.old.entries }
        requires level { All (λ e. e.level < 4294967295) self.old.entries }
        ensures top { self.new.top ≡ self.old.top }
        ensures failed { self.new.failed ≡ self.old.failed }
        ensures place { (d : Entry) → IfOk result (λ p. (p < length self.new.entries) × (slice_index_or self.new.entries p d ≡ record { clause = (slice_index_or self.old.entries place d).clause; level = (slice_index_or self.old.entries place d).level + 1 })) }
        ensures front { IfOk result (λ p. p ≤ place) }
        ensures order { IfOk result (λ p. All (Contains (take place self.old.entries)) (take p self.new.entries)) }
        ensures only { (d : Entry) → OnOk result ((e : Entry) → Contains self.new.entries e → Contains self.old.entries e ⊎ (e ≡ record { clause = (slice_index_or self.old.entries place d).clause; level = (slice_index_or self.old.entries place d).level + 1 })) }
        ensures lean { (d : Entry) → OnOk result (All (λ e. IsNotSubsumed (slice_index_or self.old.entries place d).clause ((slice_index_or self.old.entries place d).level + 1) e ⊎
            (e ≡ record { clause = (slice_index_or self.old.entries place d).clause; level = (slice_index_or self.old.entries place d).level + 1 })) self.new.entries) }
        ensures within { OnOk result (AreWithin self.new.entries self.old.entries) }
        ensures err { OnErr result (self.new ≡ self.old) }
        ensures laws { (m : Parts) (bad : Lit) (k : ℕ) (d : Entry) → AreFrames m bad self.old → (slice_index_or self.old.entries place d).level ≡ k →
            HoldsAfter m self.old.entries k (slice_index_or self.old.entries place d).clause → OnOk result (AreFrames m bad self.new) }
    {
        let clause = self.entries[place].clause.copy(alloc)?;
        let signature = self.signatures[place];
        self.entries[place].level += 1;
        let level = self.entries[place].level;
        Ok(remove_subsumed(
            &mut self.entries,
            &mut self.signatures,
            &mut self.uses,
            clause.as_slice(),
            signature,
            level,
            Some(place),
        ))
    }

    /// Opens the next frame, and forgets the failed pushes where they are many more than the clauses.
    pub fn open(&mut self)
        requires { self.old.top < 4294967295 }
        ensures entries { self.new.entries ≡ self.old.entries }
        ensures top { self.new.top ≡ self.old.top + 1 }
        ensures failed { All (Contains self.old.failed) self.new.failed }
        ensures laws { (m : Parts) (bad : Lit) → AreFrames m bad self.old → Excludes m bad self.old.entries self.old.top → AreFrames m bad self.new }
    {
        self.top += 1;
        self.failed_pushes.trim(self.entries.as_slice());
    }

    /// The invariant that the frame above `level` is, where it is the same as the frame at `level`,
    /// since no clause ends there.
    pub fn invariant_at(
        &self,
        alloc: Global,
        circuit: &Model,
        level: u32,
    ) -> Result<Option<Seq<Seq<Lit>>>, Refused>
        requires left { level < self.now.top }
        ensures invariant { AreFrames circuit.now (bad_literal circuit.now 0) self.now → IfOk result (λ r. IfSome r (IsInvariant circuit.now)) }
        ensures none { IfOk result (λ r. r ≡ None → All (λ e. e.level ≢ level) self.now.entries → ⊥) }
    {
        circuit.well_formed();
        let entries = self.entries.as_slice();
        if !is_left(entries, level) {
            return Ok(None);
        }
        let clauses = clauses_above(alloc, circuit.latches(), entries, level)?;
        Ok(Some(clauses))
    }
}
