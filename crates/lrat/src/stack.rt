//! Clauses that many refutations share.

ghost use Rattle.std.specs.Prelude.{◌≡◌, ◌+◌, ◌≤◌, ◌<◌, ◌^◌, ◌⊎◌, ℕ, true, None, map, length, OnOk, OnErr, IfOk, MatchOption, All, Contains};
ghost use Rattle.std.specs.FinMap as fin;
ghost use Rattle.lrat.specs.Limits.{IsFormula};
ghost use Rattle.lrat.specs.Literals.{IsLiteral};
ghost use Rattle.lrat.specs.Proofs.{numbered_from};
ghost use Rattle.lrat.specs.Shared.{base_of, unit_clauses};
ghost use Rattle.lrat.specs.Slots.{IsRising, ids_in, live_at, live_of, revived};
ghost use Rattle.lrat.specs.Layers.{bare, find_present, IsLiveAt};

use crate::clause::Clause;
use crate::clause_row::{AddClause, ClauseRow};
use crate::formula::Formula;
use crate::found_clause::FoundClause;
use crate::lookup::Lookup;
use crate::shelf::Shelf;
use base::{Refused, push};
use std::alloc::Global;
use std::marker::Model;

/// Clauses that many refutations share, and over them those of the one in progress, which can be
/// forgotten in time of what it did. Ids rise, so that the shared clauses come first. A clause is
/// found in constant time where no id up to it is missing, or none behind it, and else in time of
/// the logarithm. One of the refutation's own that is taken out makes room for others. The formula's
/// keep the form in which they came, until one of them is taken out.
#[derive(Drop)]
pub struct Stack<'a> {
    /// the shared clauses, and then the refutation's own
    shelf: Shelf<'a>,
    /// how many clauses are shared
    mark: u32,
    /// the greatest id that was ever present when they were shared
    shared_top: u32,
    /// the indices of the shared clauses that the refutation deleted
    hidden: Vec<u32>,
    /// the greatest id that was ever present
    top: u32,
}

impl<'a> Model for Stack<'a> {
    ghost use Rattle.lrat.specs.Layers.{Layers, layers_code, layers_of, AreLayered};
    ghost use Rattle.lrat.specs.Shelves.{AreLoose};

    ghost Value = { Layers };

    ghost coded = { layers_code };

    ghost view = { λ s. layers_of s.shelf.row s.mark s.shared_top s.top };

    ghost invariant = { λ s. AreLayered s.shelf.row.slots s.mark s.shared_top s.hidden.items s.top × AreLoose s.shelf.given s.mark s.hidden.items };
}

impl<'a> Stack<'a> {
    /// The formula's clauses, shared. It costs their literals.
    pub fn new(alloc: Global, formula: &Formula) -> Result<Stack<'a>, Refused>
        requires { IsFormula formula.now }
        ensures { IfOk result (λ s. s ≡ bare (base_of formula.now)) }
    {
        let clauses = listed(alloc, formula.clauses.as_slice())?;
        Ok(Stack::over(alloc, formula.vars, clauses))
    }

    /// These clauses, shared, under the ids 1, 2 and so on. It takes no memory.
    pub fn over(alloc: Global, vars: u32, clauses: ClauseRow<'a>) -> Stack<'a>
        requires { IsFormula (record { vars = vars; clauses = clauses }) }
        ensures { result ≡ bare (base_of (record { vars = vars; clauses = clauses.entry })) }
    {
        let shelf = Shelf::over(alloc, vars, clauses);
        let mark = shelf.given() as u32;
        Stack {
            shelf,
            mark,
            shared_top: mark,
            hidden: Vec::new(alloc),
            top: mark,
        }
    }

    /// The greatest id that was ever present.
    pub fn top(&self) -> u32
        ensures { result ≡ self.now.top }
    {
        self.top
    }

    /// The greatest id that was ever present when the clauses were shared.
    pub fn shared_top(&self) -> u32
        ensures { result ≡ self.now.base.top }
    {
        self.shared_top
    }

    /// Adds a clause of the refutation's own. Without memory nothing changes.
    #[inline(always)]
    pub fn add(&mut self, id: u32, clause: &[i32]) -> Result<(), Refused>
        requires above { self.old.top < id }
        requires in_range { All (IsLiteral self.old.base.vars) clause.now }
        ensures ok { OnOk result (self.new ≡ record { base = self.old.base; present = fin.insert self.old.present id clause.now; top = id }) }
        ensures err { OnErr result (self.new ≡ self.old) }
    {
        self.shelf.add(id, clause)?;
        self.top = id;
        Ok(())
    }

    /// Adds clauses of one literal each under the next ids. Without memory some of them are added.
    pub fn add_units(&mut self, units: &[i32]) -> Result<(), Refused>
        requires in_range { All (IsLiteral self.old.base.vars) units.now }
        requires few { self.old.top + length units.now < 2 ^ 32 }
        ensures base { self.new.base ≡ self.old.base }
        ensures present { OnOk result (self.new.present ≡ numbered_from (self.old.top + 1) (unit_clauses units.now) self.old.present) }
        ensures top { OnOk result (self.new.top ≡ self.old.top + length units.now) }
    {
        for unit in units {
            let next = self.top() + 1;
            self.add(next, &[*unit])?;
        }
        Ok(())
    }

    /// Takes out the clause with this id, and answers whether there was one. The first of the
    /// formula's costs all clauses. Without memory nothing changes.
    pub fn remove(&mut self, id: u32) -> Result<bool, Refused>
        ensures was { IfOk result (λ was. was ≡ fin.contains_key self.old.present id) }
        ensures ok { OnOk result (self.new ≡ record { base = self.old.base; present = fin.remove self.old.present id; top = self.old.top }) }
        ensures err { OnErr result (self.new ≡ self.old) }
    {
        let Some(index) = find(&self.shelf, id) else {
            return Ok(false);
        };
        self.shelf.loosen(index)?;
        let mark = self.mark as usize;
        if index < mark {
            push(&mut self.hidden, index as u32)?;
            self.shelf.mark(index, false);
            return Ok(true);
        }
        self.shelf.drop_at(index);
        self.shelf.tidy(mark);
        Ok(true)
    }

    /// Shares what is present, in place of what was shared. It takes no memory, and costs the
    /// clauses that there are.
    pub fn share(&mut self)
        ensures { self.new ≡ bare (record { vars = self.old.base.vars; present = self.old.present; top = self.old.top }) }
    {
        let _top = self.top();
        self.shelf.compact();
        self.hidden.clear();
        self.mark = self.shelf.len() as u32;
        self.shared_top = self.top;
    }

    /// Forgets what was added and taken out since the clauses were shared.
    pub fn rewind(&mut self)
        ensures { self.new ≡ bare self.old.base }
    {
        self.shelf.truncate(self.mark as usize);
        revive(&mut self.shelf, self.hidden.as_slice());
        self.hidden.clear();
        self.top = self.shared_top;
    }
}

impl<'a> Lookup for Stack<'a> {
    ghost vars = { λ s. s.base.vars };

    ghost find = { find_present };

    fn vars(&self) -> u32 {
        self.shelf.vars()
    }

    #[inline(always)]
    fn get(&self, id: u32) -> Option<FoundClause<'_>> {
        match find(&self.shelf, id) {
            Some(index) => Some(self.shelf.clause(index)),
            None => None,
        }
    }
}

/// The formula's clauses in a row.
fn listed<'a>(alloc: Global, formula: &[Clause]) -> Result<ClauseRow<'a>, Refused>
    ensures { IfOk result (λ r. r ≡ formula.now) }
{
    let mut row = ClauseRow::new(alloc);
    for clause in formula {
        row.add_clause(alloc, clause.as_slice())?;
    }
    Ok(row)
}

/// At which index the live clause with this id is.
#[inline(always)]
fn find(shelf: &Shelf<'_>, id: u32) -> Option<usize>
    requires { IsRising 0 (ids_in shelf.now.row.slots) }
    ensures { MatchOption result (fin.get (live_of shelf.now.row.slots) id ≡ None) (IsLiveAt shelf.now.row.slots id) }
{
    let Some(index) = shelf.position(id) else {
        return None;
    };
    if !shelf.is_live(index) {
        return None;
    }
    Some(index)
}

/// Makes the clauses at these indices live again.
fn revive(shelf: &mut Shelf<'_>, indices: &[u32])
    requires within { All (λ i. i < length shelf.old.row.slots) indices.now }
    requires loose { All (λ i. shelf.old.given ≤ i) indices.now }
    ensures given { shelf.new.given ≡ shelf.old.given }
    ensures vars { shelf.new.row.vars ≡ shelf.old.row.vars }
    ensures same { map revived shelf.new.row.slots ≡ map revived shelf.old.row.slots }
    ensures live { (i : ℕ) → live_at shelf.old.row.slots i ≡ true ⊎ Contains indices.now i → live_at shelf.new.row.slots i ≡ true }
{
    for index in indices {
        shelf.mark(*index as usize, true);
    }
}
