//! The clauses of a formula, and behind them those of lines.

ghost use Rattle.std.specs.Prelude.{◌≡◌, ◌≤◌, ◌<◌, ◌^◌, ◌++◌, ◌∷◌, [], true, false, All, Contains, IfOk, MatchOption, OnOk, OnErr, get_or, length, set, take};
ghost use Rattle.lrat.specs.Found.{found_literals};
ghost use Rattle.lrat.specs.Literals.{IsLiteral};
ghost use Rattle.lrat.specs.Shelves.{AreShelved, slots_from};
ghost use Rattle.lrat.specs.Slots.{IsRising, IsTidied, blank, ids_in, live_slots};

use crate::clause_row::ClauseRow;
use crate::found_clause::FoundClause;
use crate::row::Row;
use base::Refused;
use std::alloc::Global;
use std::marker::Model;

/// Clauses by rising ids: first those of a formula under the ids 1, 2 and so on, in the form in which
/// they came, then others. None of the formula's can be taken out before `loosen`.
#[derive(Drop)]
pub struct Shelf<'a> {
    /// the formula's clauses
    formula: ClauseRow<'a>,
    /// how many they are
    given: usize,
    /// the others
    row: Row,
}

impl<'a> Model for Shelf<'a> {
    ghost use Rattle.lrat.specs.Shelves.{Shelf as AShelf, shelf_code};

    ghost Value = { AShelf };

    ghost coded = { shelf_code };

    ghost use Rattle.lrat.specs.Shelves.{AreShelved, shelf_of};

    ghost view = { λ s. shelf_of s.formula s.given s.row };

    ghost invariant = { λ s. AreShelved s.row.vars s.formula s.given };
}

impl<'a> Shelf<'a> {
    /// The clauses of a formula alone. It takes no memory.
    pub fn over(alloc: Global, vars: u32, formula: ClauseRow<'a>) -> Shelf<'a>
        requires in_range { All (λ c. All (IsLiteral vars) c) formula }
        requires few { length formula < 2 ^ 32 }
        ensures row { result.row ≡ record { vars = vars; slots = slots_from 1 formula.entry } }
        ensures given { result.given ≡ length formula.entry }
    {
        let given = formula.len();
        Shelf {
            formula,
            given,
            row: Row::new(alloc, vars),
        }
    }

    /// The greatest variable.
    pub fn vars(&self) -> u32
        ensures { result ≡ self.now.row.vars }
    {
        self.row.vars()
    }

    /// How many clauses at the front stay as they are.
    pub fn given(&self) -> usize
        ensures value { result ≡ self.now.given }
        ensures within { self.now.given ≤ length self.now.row.slots }
    {
        self.given
    }

    /// How many clauses have a place, also those that were taken out and not closed up.
    pub fn len(&self) -> usize
        ensures { result ≡ length self.now.row.slots }
    {
        self.given + self.row.len()
    }

    /// Adds a clause behind the others. Without memory nothing changes.
    #[inline(always)]
    pub fn add(&mut self, id: u32, clause: &[i32]) -> Result<(), Refused>
        requires { All (IsLiteral self.old.row.vars) clause.now }
        ensures given { self.new.given ≡ self.old.given }
        ensures vars { self.new.row.vars ≡ self.old.row.vars }
        ensures ok { OnOk result (self.new.row.slots ≡ self.old.row.slots ++ record { id = id; live = true; clause = clause.now } ∷ []) }
        ensures err { OnErr result (self.new ≡ self.old) }
    {
        self.row.add(id, clause)
    }

    /// At which index the id is.
    #[inline(always)]
    pub fn position(&self, id: u32) -> Option<usize>
        requires { IsRising 0 (ids_in self.now.row.slots) }
        ensures { MatchOption result (Contains (ids_in self.now.row.slots) id → ⊥) (λ i. (i < length self.now.row.slots) × (get_or (ids_in self.now.row.slots) i 0 ≡ id)) }
    {
        if id == 0 {
            return None;
        }
        let index = id as usize - 1;
        if index < self.given {
            return Some(index);
        }
        match self.row.position(id, self.given) {
            Some(index) => Some(self.given + index),
            None => None,
        }
    }

    /// Whether the clause at the index is live.
    #[inline(always)]
    pub fn is_live(&self, index: usize) -> bool
        requires { index < length self.now.row.slots }
        ensures { result ≡ (get_or self.now.row.slots index blank).live }
    {
        if index < self.given {
            return true;
        }
        self.row.is_live(index - self.given)
    }

    /// The clause at the index.
    #[inline(always)]
    pub fn clause(&self, index: usize) -> FoundClause<'_>
        requires { index < length self.now.row.slots }
        ensures value { found_literals result ≡ (get_or self.now.row.slots index blank).clause }
        ensures in_range { All (IsLiteral self.now.row.vars) (found_literals result) }
    {
        if index < self.given {
            return self.formula.clause(index);
        }
        FoundClause::Slice(self.row.clause(index - self.given))
    }

    /// Makes the clause at the index one that can be taken out. Where it is the formula's, all of the
    /// formula's are copied, which costs them and the others. Without memory nothing changes.
    pub fn loosen(&mut self, index: usize) -> Result<(), Refused>
        ensures row { self.new.row ≡ self.old.row }
        ensures given { self.new.given ≤ self.old.given }
        ensures ok { OnOk result (self.new.given ≤ index) }
        ensures err { OnErr result (self.new ≡ self.old) }
    {
        if index < self.given {
            let row = joined(&self.formula, self.given, &self.row)?;
            self.formula.clear(row.allocator());
            self.given = 0;
            self.row = row;
        }
        Ok(())
    }

    /// Marks the clause at the index as live or not.
    pub fn mark(&mut self, index: usize, live: bool)
        requires within { index < length self.old.row.slots }
        requires loose { self.old.given ≤ index }
        ensures given { self.new.given ≡ self.old.given }
        ensures vars { self.new.row.vars ≡ self.old.row.vars }
        ensures slots { self.new.row.slots ≡ set self.old.row.slots index (record (get_or self.old.row.slots index blank) { live = live }) }
    {
        self.row.mark(index - self.given, live);
    }

    /// Takes the clause at the index out for good. Its place and its literals stay until they are
    /// closed up.
    pub fn drop_at(&mut self, index: usize)
        requires within { index < length self.old.row.slots }
        requires loose { self.old.given ≤ index }
        ensures given { self.new.given ≡ self.old.given }
        ensures vars { self.new.row.vars ≡ self.old.row.vars }
        ensures slots { self.new.row.slots ≡ set self.old.row.slots index record { id = (get_or self.old.row.slots index blank).id; live = false; clause = [] } }
    {
        self.row.drop_at(index - self.given);
    }

    /// Drops the clauses from the index on that were taken out, where there is much of them.
    pub fn tidy(&mut self, first: usize)
        requires { self.old.given ≤ first }
        ensures given { self.new.given ≡ self.old.given }
        ensures row { IsTidied first self.old.row self.new.row }
    {
        self.row.tidy(first - self.given);
    }

    /// Drops the clauses that were taken out, with their places and literals, for good. It takes no
    /// memory, and costs the places and the literals behind the formula's.
    pub fn compact(&mut self)
        ensures given { self.new.given ≡ self.old.given }
        ensures within { self.new.given ≤ length self.new.row.slots }
        ensures row { self.new.row ≡ record { vars = self.old.row.vars; slots = live_slots self.old.row.slots } }
    {
        self.row.compact();
    }

    /// Goes back to the first `len` clauses.
    pub fn truncate(&mut self, len: usize)
        requires { self.old.given ≤ len }
        ensures given { self.new.given ≡ self.old.given }
        ensures row { self.new.row ≡ record { vars = self.old.row.vars; slots = take len self.old.row.slots } }
    {
        self.row.truncate(len - self.given);
    }
}

/// The formula's clauses, and behind them the others, in one row.
fn joined(formula: &ClauseRow<'_>, given: usize, row: &Row) -> Result<Row, Refused>
    requires { AreShelved row.now.vars formula.now given }
    ensures { IfOk result (λ r. r ≡ record { vars = row.now.vars; slots = slots_from 1 formula.now ++ row.now.slots }) }
{
    let mut all = numbered(formula, given, row)?;
    for index in 0..row.len() {
        all.add_from(row, index)?;
    }
    Ok(all)
}

/// The formula's clauses in a row of the same variables.
fn numbered(formula: &ClauseRow<'_>, given: usize, row: &Row) -> Result<Row, Refused>
    requires { AreShelved row.now.vars formula.now given }
    ensures { IfOk result (λ r. r ≡ record { vars = row.now.vars; slots = slots_from 1 formula.now }) }
{
    let mut all = Row::new(row.allocator(), row.vars());
    for index in 0..given {
        all.add(index as u32 + 1, formula.clause(index).as_slice())?;
    }
    Ok(all)
}
