//! Clauses by their ids.

ghost use Rattle.std.specs.Prelude.{◌≡◌, None, OnOk, OnErr, All};
ghost use Rattle.std.specs.FinMap as fin;
ghost use Rattle.lrat.specs.Literals.{IsLiteral};
ghost use Rattle.lrat.specs.Store.{find_in};

use crate::clause::Clause;
use crate::found_clause::FoundClause;
use crate::lookup::Lookup;
use base::{Refused, insert};
use std::alloc::Global;
use std::collections::BTreeMap;
use std::marker::Model;

/// Clauses by their ids, over the variables 1 to `vars`. An id costs the logarithm of their
/// number.
#[derive(Drop)]
pub struct Clauses {
    vars: u32,
    /// literals of these clauses are not 0 and in range
    by_id: BTreeMap<u32, Clause>,
}

impl Model for Clauses {
    ghost use Rattle.lrat.specs.Store.{Store, store_code};

    ghost Value = { Store };

    ghost coded = { store_code };

    ghost use Rattle.lrat.specs.Inside.{store_of, HasLiterals};

    ghost view = { λ a. store_of a.vars a.by_id };

    ghost invariant = { λ a. HasLiterals a.vars a.by_id };
}

impl Clauses {
    /// No clauses, which take no memory.
    pub fn new(alloc: Global, vars: u32) -> Self
        ensures vars { result.vars ≡ vars }
        ensures empty { result.by_id ≡ fin.empty }
    {
        Clauses {
            vars,
            by_id: BTreeMap::new(alloc),
        }
    }

    /// Adds a clause under an id that is free. Without memory nothing changes.
    pub fn add(&mut self, alloc: Global, id: u32, clause: &[i32]) -> Result<(), Refused>
        requires absent { fin.get self.old.by_id id ≡ None }
        requires in_range { All (IsLiteral self.old.vars) clause.now }
        ensures vars { self.new.vars ≡ self.old.vars }
        ensures ok { OnOk result (self.new.by_id ≡ fin.insert self.old.by_id id clause.now) }
        ensures err { OnErr result (self.new ≡ self.old) }
    {
        let stored = Clause::from_slice(alloc, clause)?;
        insert(&mut self.by_id, id, stored)?;
        Ok(())
    }

    /// Takes the clause with this id out, and answers whether there was one.
    pub fn remove(&mut self, id: u32) -> bool
        ensures vars { self.new.vars ≡ self.old.vars }
        ensures removed { self.new.by_id ≡ fin.remove self.old.by_id id }
        ensures was { result ≡ fin.contains_key self.old.by_id id }
    {
        self.by_id.remove(&id).is_some()
    }
}

impl Lookup for Clauses {
    ghost vars = { λ s. s.vars };

    ghost find = { find_in };

    fn vars(&self) -> u32 {
        self.vars
    }

    fn get(&self, id: u32) -> Option<FoundClause<'_>> {
        match self.by_id.get(&id) {
            Some(clause) => Some(FoundClause::Slice(clause.as_slice())),
            None => None,
        }
    }
}
