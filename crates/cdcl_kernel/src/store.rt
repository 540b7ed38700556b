//! Clauses in one flat list, by their ids: 1, 2 and so on.

ghost use Rattle.std.specs.Prelude.{IsTrue, ◌↔◌, MatchOption, ◌≡◌, ◌≤◌, ◌+◌, ◌++◌, ◌∷◌, [], All, OnOk, OnErr, IfErr, IfSome, length, option_map};
ghost use Rattle.lrat.specs.Literals.{IsLiteral};
ghost use Rattle.cdcl_kernel.specs.Forgotten.{Forgets};
ghost use Rattle.cdcl_kernel.specs.Kept.{find_in, origin_in, without, added};
ghost use Rattle.cdcl_kernel.specs.Verdicts.{IsSatisfiedBy, SatisfiesOf, IsUnsatisfied};
ghost use Rattle.cdcl_kernel.specs.declared.origin.Origin.TheVariants.{Removed};
ghost use Rattle.solver.specs.declared.sat_error.SatError.TheVariants.{Limit};
ghost use Rattle.solver.specs.Full.{full};

use crate::clause_ref::{ClauseRef, close_up};
use crate::origin::Origin;
use crate::values::satisfies;
use base::{extend, push, reserve_one};
use lrat::{FoundClause, Lookup};
use solver::{SatError, Taken};
use std::alloc::Global;
use std::marker::Model;

/// Clauses in one flat list. The ids are 1, 2 and so on, and never shift.
#[derive(Drop)]
pub struct Store {
    /// the greatest variable
    vars: u32,
    /// for each id, from 1 on, where its clause lies
    clause_refs: Vec<ClauseRef>,
    /// for each id where its clause comes from: apart, as the clause references are read far more often
    origins: Vec<Origin>,
    /// the literals of the clauses, one clause after the other
    literals: Vec<i32>,
    /// about how many of these are of clauses that were taken out
    dead: usize,
}

impl Model for Store {
    ghost use Rattle.cdcl_kernel.specs.Kept.{Stored};

    ghost Value = { Stored };

    ghost use Rattle.cdcl_kernel.specs.ClauseRefs.{kept_at, AreInside};

    ghost view = { λ s. record { vars = s.vars; kept = kept_at s.literals.items s.clause_refs.items s.origins.items } };

    ghost invariant = { λ s. AreInside s.vars s.literals.items s.clause_refs.items s.origins.items };
}

impl Store {
    /// No clauses over no variables, which take no memory.
    pub fn new(alloc: Global) -> Store
        ensures { result ≡ record { vars = 0; kept = [] } }
    {
        Store {
            vars: 0,
            clause_refs: Vec::new(alloc),
            origins: Vec::new(alloc),
            literals: Vec::new(alloc),
            dead: 0,
        }
    }

    /// Begins anew with the variables 1 to `vars`. The memory stays.
    pub fn clear(&mut self, vars: u32)
        ensures { self.new ≡ record { vars = vars; kept = [] } }
    {
        self.vars = vars;
        self.clause_refs.clear();
        self.origins.clear();
        self.literals.clear();
        self.dead = 0;
    }

    /// How many ids there are.
    pub fn len(&self) -> usize
        ensures value { result ≡ length self.now.kept }
        ensures few { length self.now.kept ≤ 4294967295 }
    {
        self.clause_refs.len()
    }

    /// The ids of the clauses, and those of a room that is left out.
    pub fn taken(&self, room: u32) -> Taken
        requires { room ≤ 2147483647 }
        ensures { result.ids ≡ length self.now.kept + room }
    {
        Taken::by(self.clause_refs.as_slice(), room)
    }

    /// Adds a clause, added or learned, with the next id. A refusal changes nothing.
    pub fn add(&mut self, clause: &[i32], origin: Origin) -> Result<(), SatError>
        requires in_range { All (IsLiteral self.old.vars) clause.now }
        requires live { origin ≡ Removed → ⊥ }
        ensures vars { self.new.vars ≡ self.old.vars }
        ensures ok { OnOk result (self.new.kept ≡ self.old.kept ++ record { origin = origin; clause = clause.now } ∷ []) }
        ensures err { OnErr result (self.new ≡ self.old) }
        ensures limit { IfErr result (λ e. e ≡ Limit full → length self.old.kept ≡ 4294967295) }
    {
        Taken::by(self.clause_refs.as_slice(), 0).next_id(&[])?;
        let start = self.literals.len();
        reserve_one(&mut self.origins)?;
        extend(&mut self.literals, clause)?;
        let clause_ref = ClauseRef {
            start,
            len: clause.len(),
        };
        push(&mut self.clause_refs, clause_ref)?;
        push(&mut self.origins, origin)?;
        Ok(())
    }

    /// Takes the clause with this id out, if there is one.
    fn remove(&mut self, id: u32)
        ensures vars { self.new.vars ≡ self.old.vars }
        ensures kept { self.new.kept ≡ without self.old.kept id }
    {
        let index = id as usize;
        if index > 0 && index <= self.clause_refs.len() {
            let clause_ref = self.clause_refs[index - 1];
            self.dead = self.dead.saturating_add(clause_ref.len);
            self.clause_refs[index - 1] = ClauseRef {
                start: clause_ref.start,
                len: 0,
            };
            self.origins[index - 1] = Origin::Removed;
        }
    }

    /// Takes the learned ones of these clauses out. It costs the number of the ids. Where more than
    /// half of the list is dead then, it is closed up, which costs its length.
    pub fn forget(&mut self, ids: &[u32])
        ensures vars { self.new.vars ≡ self.old.vars }
        ensures added { added self.new.kept ≡ added self.old.kept }
        ensures forgets { Forgets self.old.kept self.new.kept ids.now }
    {
        self.take_out(ids);
        if self.dead > self.literals.len() / 2 {
            self.close_up();
        }
    }

    /// Takes the learned ones of these clauses out, and leaves their room.
    fn take_out(&mut self, ids: &[u32])
        ensures vars { self.new.vars ≡ self.old.vars }
        ensures added { added self.new.kept ≡ added self.old.kept }
        ensures forgets { Forgets self.old.kept self.new.kept ids.now }
    {
        for id in ids {
            if let Origin::Learned = self.origin(*id) {
                self.remove(*id);
            }
        }
    }

    /// Gives up the room of the clauses that were taken out. It takes no memory.
    fn close_up(&mut self)
        ensures { self.new ≡ self.old }
    {
        let end = close_up(&mut self.literals, &mut self.clause_refs);
        self.literals.truncate(end);
        self.dead = 0;
    }

    /// The first added clause of which no literal is true under the values. It costs the literals
    /// of the clauses up to that one.
    pub fn unsatisfied(&self, values: &[bool]) -> Option<u32>
        ensures { MatchOption result (All (IsSatisfiedBy values.now) (added self.now.kept)) (IsUnsatisfied self.now.kept values.now) }
    {
        for index in 0..self.len() {
            let id = index as u32 + 1;
            if let Origin::Added = self.origin(id) {
                if !self.is_satisfied(values, id) {
                    return Some(id);
                }
            }
        }
        None
    }

    /// Whether a literal of the clause with this id is true under the values.
    fn is_satisfied(&self, values: &[bool], id: u32) -> bool
        ensures { IsTrue result ↔ SatisfiesOf self.now.kept values.now id }
    {
        match self.clause(id) {
            Some(clause) => satisfies(values, clause),
            None => false,
        }
    }

    /// The clause with this id, where it was not taken out.
    #[inline]
    pub fn clause(&self, id: u32) -> Option<&[i32]>
        ensures value { option_map (λ c. c.now) result ≡ find_in self.now.kept id }
        ensures in_range { IfSome result (λ c. All (IsLiteral self.now.vars) c.now) }
    {
        let index = id as usize;
        if index == 0 || index > self.clause_refs.len() {
            return None;
        }
        let clause_ref = self.clause_refs[index - 1];
        if clause_ref.len == 0 {
            return match self.origins[index - 1] {
                Origin::Removed => None,
                _ => Some(&self.literals[..0]),
            };
        }
        Some(&self.literals[clause_ref.start..clause_ref.start + clause_ref.len])
    }

    /// Where the clause with this id comes from.
    pub fn origin(&self, id: u32) -> Origin
        ensures { result ≡ origin_in self.now.kept id }
    {
        let index = id as usize;
        if index > 0 && index <= self.origins.len() {
            self.origins[index - 1]
        } else {
            Origin::Removed
        }
    }
}

impl Lookup for Store {
    ghost vars = { λ s. s.vars };

    ghost find = { λ s. find_in s.kept };

    fn vars(&self) -> u32 {
        self.vars
    }

    #[inline]
    fn get(&self, id: u32) -> Option<FoundClause<'_>> {
        match self.clause(id) {
            Some(clause) => Some(FoundClause::Slice(clause)),
            None => None,
        }
    }
}
