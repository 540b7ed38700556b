//! Clauses in one flat list, by rising ids.

ghost use Rattle.std.specs.Prelude.{◌≡◌, ◌<◌, ◌++◌, ◌∷◌, [], true, false, All, Contains, MatchOption, OnOk, OnErr, get_or, if◌then◌else◌, is_ok, length, set, take, ◌^◌};
ghost use Rattle.lrat.specs.Literals.{IsLiteral};
ghost use Rattle.lrat.specs.Places.{kept_at, AreInside};
ghost use Rattle.lrat.specs.Slots.{IsRising, IsTidied, blank, ids_in, live_slots, live_slots_from};

use crate::place::{Place, close_up, keep_live, position};
use base::{Refused, push};
use std::alloc::Global;
use std::marker::Model;

/// Clauses in one flat list, by rising ids. A clause costs 24 bytes and 4 for each literal. One
/// that is taken out leaves its place and its literals, until what is dead is closed up.
#[derive(Drop)]
pub struct Row {
    /// the greatest variable
    vars: u32,
    /// for each clause, where it lies
    places: Vec<Place>,
    /// the literals of the clauses, one clause after the other
    literals: Vec<i32>,
    /// about how many places and literals are of clauses that were taken out
    dead: usize,
}

impl Model for Row {
    ghost use Rattle.lrat.specs.Slots.{Row as ARow, row_code};

    ghost Value = { ARow };

    ghost coded = { row_code };

    ghost use Rattle.lrat.specs.Places.{kept_at, AreInside};

    ghost view = { λ r. record { vars = r.vars; slots = kept_at r.literals.items r.places.items } };

    ghost invariant = { λ r. AreInside r.vars r.literals.items r.places.items };
}

/// Adds the literals of a clause at the end. Without memory the list stays. It adds them one by one:
/// most clauses have a few, and a copy of a few costs a call.
#[inline(always)]
fn add_literals(to: &mut Vec<i32>, clause: &[i32]) -> Result<(), Refused>
    ensures items { to.new.items ≡ (if is_ok result then to.old.items ++ clause.now else to.old.items) }
{
    let start = to.len();
    for literal in clause {
        if let Err(refused) = push(to, *literal) {
            to.truncate(start);
            return Err(refused);
        }
    }
    Ok(())
}

impl Row {
    /// No clauses, which take no memory.
    pub fn new(alloc: Global, vars: u32) -> Row
        ensures { result ≡ record { vars = vars; slots = [] } }
    {
        Row {
            vars,
            places: Vec::new(alloc),
            literals: Vec::new(alloc),
            dead: 0,
        }
    }

    /// The greatest variable.
    pub fn vars(&self) -> u32
        ensures { result ≡ self.now.vars }
    {
        self.vars
    }

    /// What asks for memory.
    pub fn allocator(&self) -> Global {
        *self.places.allocator()
    }

    /// How many clauses have a place, also those that were taken out and not closed up.
    pub fn len(&self) -> usize
        ensures value { result ≡ length self.now.slots }
        ensures few { length self.now.slots < 2 ^ 63 }
    {
        self.places.len()
    }

    /// Adds a clause behind the others. Without memory nothing changes.
    #[inline(always)]
    pub fn add(&mut self, id: u32, clause: &[i32]) -> Result<(), Refused>
        requires { All (IsLiteral self.old.vars) clause.now }
        ensures vars { self.new.vars ≡ self.old.vars }
        ensures ok { OnOk result (self.new.slots ≡ self.old.slots ++ record { id = id; live = true; clause = clause.now } ∷ []) }
        ensures err { OnErr result (self.new ≡ self.old) }
    {
        self.add_slot(id, true, clause)
    }

    /// Adds the clause at an index of another row, live or not as it is there.
    pub fn add_from(&mut self, from: &Row, index: usize) -> Result<(), Refused>
        requires within { index < length from.now.slots }
        requires same_vars { from.now.vars ≡ self.old.vars }
        ensures vars { self.new.vars ≡ self.old.vars }
        ensures ok { OnOk result (self.new.slots ≡ self.old.slots ++ get_or from.now.slots index blank ∷ []) }
    {
        let place = from.places[index];
        self.add_slot(place.id, place.live, from.clause(index))
    }

    /// Adds a clause behind the others, live or not. Without memory nothing changes.
    #[inline(always)]
    fn add_slot(&mut self, id: u32, live: bool, clause: &[i32]) -> Result<(), Refused>
        requires { All (IsLiteral self.old.vars) clause.now }
        ensures vars { self.new.vars ≡ self.old.vars }
        ensures ok { OnOk result (self.new.slots ≡ self.old.slots ++ record { id = id; live = live; clause = clause.now } ∷ []) }
        ensures err { OnErr result (self.new ≡ self.old) }
    {
        let start = self.literals.len();
        add_literals(&mut self.literals, clause)?;
        push(
            &mut self.places,
            Place {
                start,
                len: clause.len(),
                id,
                live,
            },
        )?;
        Ok(())
    }

    /// At which index the id is, where so many ids come before: in constant time where no other id up
    /// to it is missing, or none behind it, and else in time of the logarithm.
    pub fn position(&self, id: u32, before: usize) -> Option<usize>
        requires { IsRising 0 (ids_in self.now.slots) }
        ensures value { MatchOption result (Contains (ids_in self.now.slots) id → ⊥) (λ i. (i < length self.now.slots) × (get_or (ids_in self.now.slots) i 0 ≡ id)) }
        ensures few { length self.now.slots < 2 ^ 63 }
    {
        position(self.places.as_slice(), id, before)
    }

    /// Whether the clause at the index is live.
    pub fn is_live(&self, index: usize) -> bool
        requires { index < length self.now.slots }
        ensures { result ≡ (get_or self.now.slots index blank).live }
    {
        self.places[index].live
    }

    /// The clause at the index.
    pub fn clause(&self, index: usize) -> &[i32]
        requires { index < length self.now.slots }
        ensures value { result.now ≡ (get_or self.now.slots index blank).clause }
        ensures in_range { All (IsLiteral self.now.vars) result.now }
    {
        let place = self.places[index];
        &self.literals[place.start..place.start + place.len]
    }

    /// Marks the clause at the index as live or not.
    pub fn mark(&mut self, index: usize, live: bool)
        requires { index < length self.old.slots }
        ensures vars { self.new.vars ≡ self.old.vars }
        ensures slots { self.new.slots ≡ set self.old.slots index (record (get_or self.old.slots index blank) { live = live }) }
    {
        let place = self.places[index];
        self.places[index] = Place {
            start: place.start,
            len: place.len,
            id: place.id,
            live,
        };
    }

    /// Takes the clause at the index out for good. Its place and its literals stay until they are
    /// closed up.
    pub fn drop_at(&mut self, index: usize)
        requires { index < length self.old.slots }
        ensures vars { self.new.vars ≡ self.old.vars }
        ensures slots { self.new.slots ≡ set self.old.slots index record { id = (get_or self.old.slots index blank).id; live = false; clause = [] } }
    {
        let place = self.places[index];
        self.dead = self.dead.saturating_add(place.len).saturating_add(1);
        self.places[index] = Place {
            start: place.start,
            len: 0,
            id: place.id,
            live: false,
        };
    }

    /// Drops the clauses from the index on that were taken out, where their literals and places are
    /// more than seven in eight of those that there are: an id is found soonest where none up to it is
    /// missing. It takes no memory, and costs a constant for each clause and literal that died since.
    pub fn tidy(&mut self, first: usize)
        ensures { IsTidied first self.old self.new }
    {
        if first >= self.places.len() {
            return;
        }
        let start = self.places[first].start;
        let literals = self.literals.len().saturating_sub(start);
        let places = self.places.len() - first;
        if self.dead > literals.saturating_add(places) / 8 * 7 {
            self.drop_dead(first);
        }
    }

    /// Drops the clauses that were taken out, with their places and literals, for good. It takes no
    /// memory, and costs the places and the literals.
    pub fn compact(&mut self)
        ensures { self.new ≡ record { vars = self.old.vars; slots = live_slots self.old.slots } }
    {
        self.drop_dead(0);
    }

    /// Drops the clauses from the index on that were taken out, and moves the others together.
    fn drop_dead(&mut self, first: usize)
        ensures { self.new ≡ record { vars = self.old.vars; slots = live_slots_from first self.old.slots } }
    {
        if first >= self.places.len() {
            return;
        }
        let start = self.places[first].start;
        keep_live(&mut self.places, first);
        let end = close_up(&mut self.literals, &mut self.places, first, start);
        self.literals.truncate(end);
        self.dead = 0;
    }

    /// Goes back to the first `len` clauses.
    pub fn truncate(&mut self, len: usize)
        ensures { self.new ≡ record { vars = self.old.vars; slots = take len self.old.slots } }
    {
        if len < self.places.len() {
            let end = self.places[len].start;
            self.literals.truncate(end);
            self.places.truncate(len);
            self.dead = 0;
        }
    }
}
