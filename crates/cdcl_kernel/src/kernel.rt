//! What is known for sure: the clauses.

ghost use Rattle.std.specs.Prelude.{◌≡◌, ◌≤◌, ◌+◌, ◌++◌, ◌∷◌, [], ℤ, neg_ℤ, IsTrue, ◌↔◌, All, IfOk, IfErr, IfSome, MatchOption, OnOk, OnErr, length, map, option_map};
ghost use Rattle.base.specs.Witness.{witness};
ghost use Rattle.lrat.specs.Literals.{IsLiteral};
ghost use Rattle.cdcl_kernel.specs.Kept.{find_in, origin_in, added};
ghost use Rattle.cdcl_kernel.specs.Forgotten.{Forgets};
ghost use Rattle.cdcl_kernel.specs.Known.{none_known, with_clause, IsLearned, Learns};
ghost use Rattle.cdcl_kernel.specs.Valued.{valued};
ghost use Rattle.cdcl_kernel.specs.declared.origin.Origin.TheVariants.{Added};
ghost use Rattle.cdcl_kernel.specs.Verdicts.{IsSatisfiedBy, IsUnsatisfied, DeniesAssumed, IsOpposed};
ghost use Rattle.solver.specs.Answers.{IsModel, IsCore};
ghost use Rattle.solver.specs.Parts.{IsPartModel};
ghost use Rattle.solver.specs.declared.sat_error.SatError.TheVariants.{Limit, OutOfMemory};
ghost use Rattle.solver.specs.Full.{full};

use crate::literals::{are_nonzero, negated};
use crate::origin::Origin;
use crate::store::Store;
use crate::values::values_of;
use crate::verdict::{assumed_part, opposed_pair};
use base::copied;
use lrat::{Fault, Trail, derive_with};
use solver::{Part, SatError, Taken, are_true, fits_gates};
use std::alloc::Global;
use std::marker::Model;

/// Clauses by their ids.
///
/// Whatever it is asked, each clause that it keeps follows from those that were added.
#[derive(Drop)]
pub struct Kernel {
    /// the clauses by their ids
    store: Store,
    /// for the check of a clause's hints: holds nothing between calls
    scratch: Trail,
}

impl Model for Kernel {
    ghost use Rattle.cdcl_kernel.specs.Known.{Known};

    ghost Value = { Known };

    ghost use Rattle.cdcl_kernel.specs.Inside.{known_of, IsSound};

    ghost view = { λ b. known_of b.store };

    ghost invariant = { λ b. IsSound b.store b.scratch };
}

impl Kernel {
    /// No variables and no clauses, which take no memory.
    pub fn new(alloc: Global) -> Kernel
        ensures { result ≡ none_known 0 }
    {
        Kernel {
            store: Store::new(alloc),
            scratch: Trail::empty(alloc),
        }
    }

    /// Begins anew with the variables 1 to `vars` and no clauses. A refusal changes nothing. It
    /// takes a byte for each variable; the memory of the clauses stays.
    pub fn reset(&mut self, alloc: Global, vars: u32) -> Result<(), SatError>
        requires { vars ≤ 2147483647 }
        ensures ok { OnOk result (self.new ≡ none_known vars) }
        ensures err { OnErr result (self.new ≡ self.old) }
        ensures refused { IfErr result (λ e. e ≡ OutOfMemory witness) }
    {
        let scratch = Trail::new(alloc, vars)?;
        self.store.clear(vars);
        self.scratch = scratch;
        Ok(())
    }

    /// The greatest variable.
    pub fn vars(&self) -> u32
        ensures value { result ≡ self.now.vars }
        ensures fits { self.now.vars ≤ 2147483647 }
    {
        self.scratch.vars()
    }

    /// How many ids there are: the last one, as they begin at 1.
    pub fn clauses(&self) -> usize
        ensures value { result ≡ length self.now.kept }
        ensures few { length self.now.kept ≤ 4294967295 }
    {
        self.store.len()
    }

    /// The ids of the clauses, and those of a room that is left out.
    pub fn taken(&self, room: u32) -> Taken
        requires { room ≤ 2147483647 }
        ensures { result.ids ≡ length self.now.kept + room }
    {
        self.store.taken(room)
    }

    /// The clause with this id, where it was not taken out.
    #[inline]
    pub fn clause(&self, id: u32) -> Option<&[i32]>
        ensures value { option_map (λ c. c.now) result ≡ find_in self.now.kept id }
        ensures in_range { IfSome result (λ c. All (IsLiteral self.now.vars) c.now) }
    {
        self.store.clause(id)
    }

    /// Where the clause with this id comes from.
    pub fn origin(&self, id: u32) -> Origin
        ensures { result ≡ origin_in self.now.kept id }
    {
        self.store.origin(id)
    }

    /// Adds a clause, whose id is the number of ids then. A refusal changes nothing.
    pub fn add(&mut self, clause: &[i32]) -> Result<(), SatError>
        requires { All (IsLiteral self.old.vars) clause.now }
        ensures vars { self.new.vars ≡ self.old.vars }
        ensures ok { OnOk result (self.new ≡ with_clause self.old Added clause.now) }
        ensures added { OnOk result (added self.new.kept ≡ added self.old.kept ++ clause.now ∷ []) }
        ensures err { OnErr result (self.new ≡ self.old) }
        ensures limit { IfErr result (λ e. e ≡ Limit full → length self.old.kept ≡ 4294967295) }
    {
        self.store.add(clause, Origin::Added)?;
        Ok(())
    }

    /// Whether the hints show the clause.
    fn shows(&mut self, clause: &[i32], hints: &[u32]) -> Result<bool, SatError>
        ensures same { self.new ≡ self.old }
        ensures shown { IfOk result (λ b. IsTrue b ↔ IsLearned self.old clause.now hints.now) }
        ensures refused { IfErr result (λ e. e ≡ OutOfMemory witness) }
    {
        if !are_nonzero(clause) {
            return Ok(false);
        }
        match derive_with(&mut self.scratch, &self.store, clause, hints) {
            Ok(()) => return Ok(true),
            Err(Fault::OutOfMemory(refused)) => return Err(SatError::OutOfMemory(refused)),
            Err(_) => return Ok(false),
        }
    }

    /// Learns the clause where the hints show it, and answers whether they do. A refusal changes
    /// nothing. It costs the literals of the clause and of the hinted clauses.
    pub fn learn(&mut self, clause: &[i32], hints: &[u32]) -> Result<bool, SatError>
        ensures vars { self.new.vars ≡ self.old.vars }
        ensures added { added self.new.kept ≡ added self.old.kept }
        ensures learns { IfOk result (λ b. Learns self.old self.new clause.now hints.now b) }
        ensures err { OnErr result (self.new ≡ self.old) }
        ensures limit { IfErr result (λ e. e ≡ Limit full → length self.old.kept ≡ 4294967295) }
    {
        let shown = self.shows(clause, hints)?;
        if shown {
            self.store.add(clause, Origin::Learned)?;
        }
        Ok(shown)
    }

    /// Takes the learned ones of these clauses out. It costs the number of the ids, and now and
    /// then that of the literals.
    pub fn forget(&mut self, ids: &[u32])
        ensures vars { self.new.vars ≡ self.old.vars }
        ensures added { added self.new.kept ≡ added self.old.kept }
        ensures forgets { Forgets self.old.kept self.new.kept ids.now }
    {
        self.store.forget(ids);
    }

    /// The first added clause of which no literal is true under the values, as `values_of` gives
    /// them. It costs the literals of the clauses up to that one.
    pub fn unsatisfied(&self, values: &[bool]) -> Option<u32>
        ensures { MatchOption result (All (IsSatisfiedBy values.now) (added self.now.kept)) (IsUnsatisfied self.now.kept values.now) }
    {
        self.store.unsatisfied(values)
    }

    /// The values that the literals give (`values_of`), exactly where they satisfy each added
    /// clause and all assumptions. It costs the literals, those of the added clauses and of the
    /// assumptions, and the variables.
    pub fn model_of(
        &self,
        alloc: Global,
        literals: &[i32],
        assume: &[i32],
    ) -> Result<Option<Vec<bool>>, SatError>
        ensures model { IfOk result (λ r. MatchOption r (IsModel self.now.vars (added self.now.kept) assume.now (valued self.now.vars literals.now) → ⊥) (λ b. (b.items ≡ valued self.now.vars literals.now) × IsModel self.now.vars (added self.now.kept) assume.now b.items)) }
        ensures refused { IfErr result (λ e. e ≡ OutOfMemory witness) }
    {
        let values = values_of(alloc, self.vars(), literals)?;
        if let Some(_) = self.unsatisfied(values.as_slice()) {
            return Ok(None);
        }
        if !are_true(values.as_slice(), assume) {
            return Ok(None);
        }
        Ok(Some(values))
    }

    /// The values that the literals give (`values_of`), exactly where by them each gate of the
    /// part has its value by its right sides, and the part's literals and all assumptions are
    /// true. It costs the literals, the part, the assumptions and the variables.
    pub fn part_model(
        &self,
        alloc: Global,
        literals: &[i32],
        part: &Part,
        assume: &[i32],
    ) -> Result<Option<Vec<bool>>, SatError>
        ensures model { IfOk result (λ r. MatchOption r (IsPartModel self.now.vars part.now assume.now (valued self.now.vars literals.now) → ⊥) (λ b. (b.items ≡ valued self.now.vars literals.now) × IsPartModel self.now.vars part.now assume.now b.items)) }
        ensures refused { IfErr result (λ e. e ≡ OutOfMemory witness) }
    {
        let values = values_of(alloc, self.vars(), literals)?;
        if !fits_gates(values.as_slice(), part.gates.as_slice()) {
            return Ok(None);
        }
        if !are_true(values.as_slice(), part.literals.as_slice()) {
            return Ok(None);
        }
        let is_assumed = are_true(values.as_slice(), assume);
        if !is_assumed {
            return Ok(None);
        }
        Ok(Some(values))
    }

    /// The part of the assumptions that the clause denies, where the hints show the clause and it
    /// denies nothing else. It costs the literals of the clause and of the hinted clauses, and
    /// the assumptions but for a logarithm.
    pub fn core_of(
        &mut self,
        alloc: Global,
        clause: &[i32],
        hints: &[u32],
        assume: &[i32],
    ) -> Result<Option<Vec<i32>>, SatError>
        ensures same { self.new ≡ self.old }
        ensures core { IfOk result (λ r. MatchOption r (DeniesAssumed self.old clause.now hints.now assume.now → ⊥) (λ part. IsCore (added self.old.kept) assume.now part.items)) }
        ensures denials { IfOk result (λ r. IfSome r (λ part. part.items ≡ map neg_ℤ clause.now)) }
        ensures learned { IfOk result (λ r. IfSome r (λ _. IsLearned self.old clause.now hints.now)) }
        ensures refused { IfErr result (λ e. e ≡ OutOfMemory witness) }
    {
        let _vars = self.vars();
        if !self.shows(clause, hints)? {
            return Ok(None);
        }
        let part = assumed_part(alloc, clause, assume)?;
        Ok(part)
    }

    /// An assumption and its negation, where both are assumed: a core of any clauses.
    pub fn opposed_of(&self, alloc: Global, assume: &[i32]) -> Result<Option<Vec<i32>>, SatError>
        requires { All (IsLiteral self.now.vars) assume.now }
        ensures core { IfOk result (λ r. MatchOption r (All (λ l. IsOpposed assume.now l → ⊥) assume.now) (λ part. IsCore (added self.now.kept) assume.now part.items)) }
        ensures opposed { IfOk result (λ r. IfSome r (λ part. (l : ℤ) × (part.items ≡ l ∷ neg_ℤ l ∷ []) × IsOpposed assume.now l)) }
        ensures refused { IfErr result (λ e. e ≡ OutOfMemory witness) }
    {
        let _vars = self.vars();
        let Some(literal) = opposed_pair(alloc, assume)? else {
            return Ok(None);
        };
        let part = copied(alloc, &[literal, negated(literal)])?;
        Ok(Some(part))
    }
}
